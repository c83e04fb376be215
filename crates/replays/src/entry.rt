// Entries of a core, through its view.
use std::io::Stdin;

// Whether what was seen is what follows: 1 and the number, or 0 and 0 where there is none.
fn is_seen(input: Stdin, v: Option<f64>) -> bool {
    let there = crate::cases::word(input) == 1;
    match v {
        Some(x) => there & crate::cases::is_next(input, x),
        None => !there & crate::cases::is_next(input, 0.0),
    }
}

// One case: shape, chain, core, left index, point, right index, then what is seen.
pub fn agrees(input: Stdin) -> bool {
    let mut a = crate::cases::room();
    let s = crate::cases::shape(input);
    let chain = crate::cases::list(input, &mut a);
    let k = crate::cases::word(input);
    let il = crate::cases::word(input);
    let im = crate::cases::word(input);
    let ir = crate::cases::word(input);
    is_seen(input, view::entry_of(chain, s, k, il, im, ir))
}
