// Roundings.
use std::io::Stdin;

// The verdict, the shape, what is said of the bonds, the chain, and scratch.
pub fn ended(input: Stdin, r: cutform::Rounded, chain: &[f64], scratch: &[f64]) -> bool {
    let verdict = r.verdict;
    let shape = r.shape;
    let bonds = r.bonds;
    let right = shape.right;
    let told = crate::cases::verdict(input, verdict);
    let shaped = crate::cases::shape_is(input, shape);
    let made = crate::cases::sweeps(input, bonds, right);
    let small = crate::cases::flags(input, bonds);
    let lost = crate::cases::dropped(input, bonds);
    let entries = crate::cases::holds(input, chain);
    let left = crate::cases::holds(input, scratch);
    told & shaped & made & small & lost & entries & left
}

// One case: shape, eps, mode, chain, the length of scratch, then the answer.
pub fn agrees(input: Stdin) -> bool {
    let mut a = crate::cases::room();
    let mut b = crate::cases::room();
    let s = crate::cases::shape(input);
    let eps = crate::cases::number(input);
    let mode = crate::cases::word(input);
    let chain = crate::cases::list(input, &mut a);
    let scratch = crate::cases::lent(input, &mut b);
    let cutting = cutform::Cutting { eps, mode };
    let r = rounding::tt_round(s, cutting, chain, scratch);
    ended(input, r, chain, scratch)
}
