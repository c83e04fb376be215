// The archive for C: each function of `zones` under the same name, with the same clauses. A library exports nothing, whatever its
// functions are marked with, so the symbols stand here. A function here calls that of `zones`, and does nothing else.
#![tactic(auto)]

pub mod chains;
pub mod courses;
pub mod files;
pub mod pairs;
pub mod replacing;
pub mod scalars;
