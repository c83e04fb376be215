// The lists of cases one behind the other: inner products, roundings, steps and evolves, pairs, separable starts, entries of a
// core, chain files. Of each prints how many cases it has, and how many agree. Behind each list stands one of cases whose answer is
// wrong in one word, of which none may agree.
#![tactic(auto)]

mod cases;
mod entry;
mod file;
mod inner;
mod pairs;
mod round;
mod start;
mod step;

use std::io;
use std::io::Stdin;

// Above the cases of any list: a count that is out of step is cut down, so that the program ends.
const MOST_CASES: usize = 4096;

// The cases that follow, as many as it says, each judged by `agrees`.
fn replayed<F: Fn(Stdin) -> bool>(
    rt: &impl Print,
    input: Stdin,
    words: &str,
    agrees: &F,
) -> io::Result<()>
    requires { F.IsAlwaysCallable agrees.now }
{
    let cases = cases::word(input);
    let mut good: usize = 0;
    for _ in 0..cases % MOST_CASES {
        if agrees(input) {
            good += 1;
        }
    }
    cases::print(rt, words, cases, good)
}

// A list, then the wrong answers behind it.
fn both<F: Fn(Stdin) -> bool>(
    rt: &impl Print,
    input: Stdin,
    words: &str,
    agrees: F,
) -> io::Result<()>
    requires { F.IsAlwaysCallable agrees }
{
    replayed(rt, input, words, &agrees)?;
    replayed(rt, input, "  made wrong", &agrees)
}

fn main(rt: HostRuntime) -> io::Result<()> {
    let input = rt.stdin();
    both(&rt, input, "inner products", inner::agrees)?;
    both(&rt, input, "roundings", round::agrees)?;
    both(&rt, input, "steps and evolves", step::agrees)?;
    both(&rt, input, "pairs", pairs::agrees)?;
    both(&rt, input, "starts", start::agrees)?;
    both(&rt, input, "entries", entry::agrees)?;
    both(&rt, input, "chain files", file::agrees)
}
