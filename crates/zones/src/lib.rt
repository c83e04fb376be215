// The face for C: each public call as a function under a name of its own. Records go in and out by value, slices as pointer
// and length. A function here takes C's records as the call's, calls, and answers in C's; it decides nothing. `zones_c` exports them.
#![tactic(auto)]

pub mod chains;
pub mod courses;
pub mod files;
pub mod pairs;
pub mod replacing;
pub mod scalars;
