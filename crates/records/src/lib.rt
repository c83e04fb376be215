// The records as C has them: what goes into a call, and what it answers, field by field. A refusal is a number, a place and an index.
#![tactic(auto)]

pub mod given;
pub mod held;
pub mod told;
