// Pairs.
use std::io::Stdin;

fn sizes(input: Stdin) -> pairform::Sizes {
    let rl = crate::cases::word(input);
    let n = crate::cases::word(input);
    let rr = crate::cases::word(input);
    pairform::Sizes { rl, n, rr }
}

// The verdict, the rank and the passes, which are 0 after a refusal, both cores, and scratch.
fn ended(
    input: Stdin,
    w: Result<pairform::Paired, answers::Refusal>,
    lefts: &[f64],
    rights: &[f64],
    scratch: &[f64],
) -> bool {
    let told = match w {
        Ok(p) => {
            crate::cases::verdict(input, Ok(()))
                & (crate::cases::word(input) == p.rank)
                & (crate::cases::word(input) == p.passes)
        }
        Err(r) => {
            crate::cases::verdict(input, Err(r))
                & (crate::cases::word(input) == 0)
                & (crate::cases::word(input) == 0)
        }
    };
    let left = crate::cases::holds(input, lefts);
    let right = crate::cases::holds(input, rights);
    let clear = crate::cases::holds(input, scratch);
    told & left & right & clear
}

// One case: the sizes of both cores, eps, their numbers, the lengths of both outputs and of scratch, then the answer.
pub fn agrees(input: Stdin) -> bool {
    let mut a = crate::cases::room();
    let mut b = crate::cases::room();
    let mut x = crate::cases::room();
    let mut y = crate::cases::room();
    let mut z = crate::cases::room();
    let l = sizes(input);
    let r = sizes(input);
    let eps = crate::cases::number(input);
    let left = crate::cases::list(input, &mut a);
    let right = crate::cases::list(input, &mut b);
    let lefts = crate::cases::lent(input, &mut x);
    let rights = crate::cases::lent(input, &mut y);
    let scratch = crate::cases::lent(input, &mut z);
    let w = pair::contract_and_split(l, r, eps, left, right, lefts, rights, scratch);
    ended(input, w, lefts, rights, scratch)
}
