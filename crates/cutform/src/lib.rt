// What the cut of a bond is, and what a rounding is: definitions and examples worked out; the code is in `bond`, `cuts` and `rounding`.
#![tactic(auto)]

// What is said of a bond once it is cut: the rank kept, the sweeps made, whether its matrix is settled at their end, and the
// largest singular value that was not kept, +0 if all were.
#[derive(Clone, Copy)]
pub struct Bond {
    pub rank: usize,
    pub sweeps: usize,
    pub settled: bool,
    pub dropped: f64,
}

// The modes of a cut: 1e-30 is a bound by itself, or beside the numbers that a matrix has. They are numbers, so that one that isn't
// known can be lent, and refused.
pub const ABSOLUTE: usize = 0;

pub const SCALED: usize = 1;

// How a cut is made: kept is what lies above eps times the largest value; the mode says what is small enough to be let be.
#[derive(Clone, Copy)]
pub struct Cutting {
    pub eps: f64,
    pub mode: usize,
}

// The chain's shape at the end, and what is said of each bond.
#[derive(Clone, Copy)]
pub struct Rounded {
    pub verdict: Result<(), answers::Refusal>,
    pub shape: shape::Shape,
    pub bonds: [Bond; shape::MOST_AXES],
}
