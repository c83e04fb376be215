// A kept run: what it holds beside the slices that it is lent, and what its calls answer.
#![tactic(auto)]

// Its inputs but for the source chain and the weights; then what it keeps: what is said of bond k, at
// place k; and the figure.
#[derive(Clone, Copy)]
pub struct Run {
    pub shape: shape::Shape,
    pub axes: [stepform::Axis; shape::MOST_AXES],
    pub set: stepform::Settings,
    pub bonds: [cutform::Bond; shape::MOST_AXES],
    pub figure: f64,
}

// How many slices a run has. What a call is lent behind them, a new part and then scratch, has the places
// from there on.
pub const SLICES: usize = 5;

pub const BEHIND_PART: usize = SLICES + 1;

// The lengths of a run's slices, in their order.
#[derive(Clone, Copy)]
pub struct Lengths {
    pub source: usize,
    pub weights: usize,
    pub chain: usize,
    pub carries: usize,
    pub sums: usize,
}

#[derive(Clone, Copy)]
pub struct Ran {
    pub verdict: Result<(), answers::Refusal>,
    pub run: Run,
}
