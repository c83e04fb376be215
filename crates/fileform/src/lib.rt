// The form of the chain file: a contents table, then bodies. Its definitions and the theorems about them stand here, the code in `chainfile`.
#![tactic(auto)]
