// Any two ends that a public call's contract allows are equal: definitions and theorems alone.
#![tactic(auto)]
