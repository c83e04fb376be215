// The plan: five zones in a row. A core has, for each kind of weather before its zone, the chance of each load together with
// the weather behind it, so that all chances of the chain add up to 1.
pub const ZONES: usize = 5;

// How many numbers the cores have, the weights, the carries and the sums, and the scratch of a call.
pub const ENTRIES: usize = 86;

pub const POINTS: usize = 21;

pub const CARRIES: usize = 21;

pub const SUMS: usize = 10;

pub const SCRATCH: usize = shape::SCRATCH_TIMES * ENTRIES + shape::SCRATCH_BESIDE;

pub const HARBOUR_NUMBERS: usize = 8;

// What the day's plan is rounded by.
pub const MILLIONTH: f64 = 0.000001;

// The zones of which an input is replaced, and the one that reflects from the morning on.
pub const HARBOUR: usize = 0;

pub const OLD_TOWN: usize = 1;

pub const MILL: usize = 2;

pub const STATION: usize = 3;

pub const HOSPITAL: usize = 4;

// Harbour has 8 numbers, Old Town 30, Mill 18, Station 24, Hospital 6.
const CORES: [f64; ENTRIES] = [
    0.28, 0.03, 0.28, 0.09, 0.105, 0.12, 0.035, 0.06, 0.28, 0.018, 0.001, 0.28, 0.045, 0.002, 0.16,
    0.072, 0.005, 0.064, 0.036, 0.008, 0.016, 0.009, 0.004, 0.07, 0.06, 0.01, 0.07, 0.15, 0.02,
    0.04, 0.24, 0.05, 0.016, 0.12, 0.08, 0.004, 0.03, 0.04, 0.54, 0.02, 0.27, 0.05, 0.09, 0.03,
    0.18, 0.14, 0.09, 0.35, 0.03, 0.21, 0.06, 0.18, 0.03, 0.45, 0.01, 0.27, 0.18, 0.005, 0.27,
    0.01, 0.225, 0.02, 0.135, 0.03, 0.072, 0.025, 0.018, 0.01, 0.04, 0.04, 0.06, 0.08, 0.05, 0.16,
    0.03, 0.24, 0.016, 0.2, 0.004, 0.08, 0.5, 0.4, 0.1, 0.2, 0.5, 0.3,
];

// For each zone's loads: 1 within the pipe's limit, less from the limit on.
const WEIGHTS: [f64; POINTS] = [
    1.0, 1.0, 1.0, 0.5, 1.0, 1.0, 1.0, 1.0, 0.5, 1.0, 1.0, 0.75, 1.0, 1.0, 1.0, 1.0, 0.5, 0.25,
    1.0, 1.0, 0.75,
];

// Loads from 0 to 6 megawatts; a says how far they spread, and the boundary where those come to that spread beyond an end.
pub fn axis(a: f64, boundary: usize) -> stepform::Axis {
    stepform::Axis {
        a,
        b: 0.1,
        xmin: 0.0,
        xmax: 6.0,
        boundary,
    }
}

// Hospital's axis reflects. Two kinds of weather between neighbours, mild and cold, and between Old Town and Mill also severe. A step of a quarter of an hour,
// nothing added; what is not above eps times the largest is rounded off. The run keeps nothing yet.
pub fn plan(eps: f64, mode: usize) -> crate::plans::Plan {
    let shape = shape::Shape {
        d: ZONES,
        left: [1, 2, 3, 2, 2, 0, 0, 0, 0, 0, 0, 0, 0, 0, 0, 0],
        n: [4, 5, 3, 6, 3, 0, 0, 0, 0, 0, 0, 0, 0, 0, 0, 0],
        right: [2, 3, 2, 2, 1, 0, 0, 0, 0, 0, 0, 0, 0, 0, 0, 0],
    };
    let none = bond::no_bond();
    let mut axes = [axis(0.04, stepform::PERIODIC); shape::MOST_AXES];
    axes[HOSPITAL] = axis(0.04, stepform::REFLECTING);
    let run = runform::Run {
        shape,
        axes,
        set: stepform::Settings {
            tau: 0.25,
            c: 0.0,
            cutting: cutform::Cutting { eps, mode },
        },
        bonds: [none; shape::MOST_AXES],
        figure: 0.0,
    };
    crate::plans::Plan {
        run,
        source: CORES,
        weights: WEIGHTS,
        chain: [0.0; ENTRIES],
        carries: [0.0; CARRIES],
        sums: [0.0; SUMS],
    }
}

// The morning's plan in weather of one chance in 10^32: so much less are Harbour's.
pub fn rare_plan(mode: usize) -> crate::plans::Plan {
    let mut p = plan(MILLIONTH, mode);
    let mut source = CORES;
    for x in &mut source[..HARBOUR_NUMBERS] {
        *x = *x * 1e-32;
    }
    p.source = source;
    p
}

// A new forecast for Old Town, in which severe weather always has a quarter of the chance of cold weather.
pub fn new_forecast() -> [f64; 30] {
    [
        0.21, 0.024, 0.006, 0.245, 0.06, 0.015, 0.14, 0.084, 0.021, 0.07, 0.048, 0.012, 0.035,
        0.024, 0.006, 0.06, 0.064, 0.016, 0.07, 0.16, 0.04, 0.04, 0.224, 0.056, 0.02, 0.128, 0.032,
        0.01, 0.064, 0.016,
    ]
}
