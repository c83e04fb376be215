// Steps and evolves.
use std::io::Stdin;

// Above the records of any case: a count that is out of step is cut down, so that the program ends.
const MOST_RECORDS: usize = 64;

fn record(input: Stdin) -> stepform::Axis {
    let a = crate::cases::number(input);
    let b = crate::cases::number(input);
    let xmin = crate::cases::number(input);
    let xmax = crate::cases::number(input);
    let boundary = crate::cases::word(input);
    stepform::Axis {
        a,
        b,
        xmin,
        xmax,
        boundary,
    }
}

// The axis records that follow; one too many is refused by its count, wherever it stands.
fn records(input: Stdin, count: usize) -> [stepform::Axis; shape::MOST_AXES] {
    let mut list = [axes::BLANK; shape::MOST_AXES];
    for k in 0..count {
        list[k % shape::MOST_AXES] = record(input);
    }
    list
}

// The call of a case: kind 0 is a step, any other an evolve.
fn call(
    kind: usize,
    s: shape::Shape,
    p: stepform::Course,
    xs: [stepform::Axis; shape::MOST_AXES],
    count: usize,
    chain: &mut [f64],
    scratch: &mut [f64],
) -> cutform::Rounded {
    if kind == 0 {
        let cutting = p.cutting;
        let set = stepform::Settings {
            tau: p.t_final,
            c: p.c,
            cutting,
        };
        return evolution::step_over(s, set, xs, count, chain, scratch);
    }
    evolution::evolve_over(s, p, xs, count, chain, scratch)
}

// One case: kind, shape, axis records, c, eps, mode, chain, tau or t_final, steps, the length of scratch, then the answer of a rounding.
pub fn agrees(input: Stdin) -> bool {
    let mut a = crate::cases::room();
    let mut b = crate::cases::room();
    let kind = crate::cases::word(input);
    let s = crate::cases::shape(input);
    let count = crate::cases::word(input) / 5 % MOST_RECORDS;
    let xs = records(input, count);
    let c = crate::cases::number(input);
    let eps = crate::cases::number(input);
    let mode = crate::cases::word(input);
    let chain = crate::cases::list(input, &mut a);
    let t_final = crate::cases::number(input);
    let steps = crate::cases::word(input);
    let p = stepform::Course {
        t_final,
        steps,
        c,
        cutting: cutform::Cutting { eps, mode },
    };
    let scratch = crate::cases::lent(input, &mut b);
    let r = call(kind, s, p, xs, count, chain, scratch);
    crate::round::ended(input, r, chain, scratch)
}
