// Inner products.
use std::io::Stdin;

// One case: shape, chain, weights, then the verdict and the figure, +0 where it is refused, down to the sign of a zero.
pub fn agrees(input: Stdin) -> bool {
    let mut a = crate::cases::room();
    let mut b = crate::cases::room();
    let s = crate::cases::shape(input);
    let chain = crate::cases::list(input, &mut a);
    let weights = crate::cases::list(input, &mut b);
    let figure = product::inner_separable(s, chain, weights);
    let told = crate::cases::verdict(input, figure.map(|_| ()));
    told & crate::cases::is_next(input, figure.unwrap_or(0.0))
}
