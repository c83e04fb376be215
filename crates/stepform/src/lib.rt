// What a step is: one axis shifted, core 0 scaled, the chain rounded. Definitions stand in specs/; here are the records that calls are given.
#![tactic(auto)]

// The boundaries that an axis can have. They are numbers, so that one that isn't known can be lent, and refused.
pub const PERIODIC: usize = 0;

pub const REFLECTING: usize = 1;

// The settings of one axis.
#[derive(Clone, Copy)]
pub struct Axis {
    pub a: f64,
    pub b: f64,
    pub xmin: f64,
    pub xmax: f64,
    pub boundary: usize,
}

// A core stays, or is shifted by a ratio along an axis of such a boundary.
#[derive(Clone, Copy)]
pub enum Shift {
    Stay,
    By(f64, usize),
}

// One step of a plan: its lone settings.
#[derive(Clone, Copy)]
pub struct Settings {
    pub tau: f64,
    pub c: f64,
    pub cutting: cutform::Cutting,
}

// Steps one after another: how far, in how many, and the lone settings of each.
#[derive(Clone, Copy)]
pub struct Course {
    pub t_final: f64,
    pub steps: usize,
    pub c: f64,
    pub cutting: cutform::Cutting,
}
