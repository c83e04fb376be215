// What the pair is: two neighbours joined to a slab and split again. Definitions stand in specs/; here are its records.
#![tactic(auto)]

// The kept rank and the passes made, the quiet one included.
#[derive(Clone, Copy)]
pub struct Paired {
    pub rank: usize,
    pub passes: usize,
}

// The sizes of one core.
#[derive(Clone, Copy)]
pub struct Sizes {
    pub rl: usize,
    pub n: usize,
    pub rr: usize,
}
