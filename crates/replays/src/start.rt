// Separable starts.
use std::io::Stdin;

// One case: shape, vectors, the length of the chain, then the verdict, the shape, which a refusal leaves as it was, and what the chain holds at the end.
pub fn agrees(input: Stdin) -> bool {
    let mut a = crate::cases::room();
    let mut b = crate::cases::room();
    let s = crate::cases::shape(input);
    let vectors = crate::cases::list(input, &mut a);
    let chain = crate::cases::lent(input, &mut b);
    let made = product::start::rank1_separable(s, vectors, chain);
    let told = crate::cases::verdict(input, made.map(|_| ()));
    let shaped = crate::cases::shape_is(input, made.unwrap_or(s));
    told & shaped & crate::cases::holds(input, chain)
}
