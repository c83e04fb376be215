// Pieces of text on standard output: a number's digits, a figure, a yes.
use std::io::Result;

// Digits are text.
pub fn text(digits: &[u8]) -> &str {
    str::from_utf8(digits).unwrap_or("")
}

// The largest value that a bond dropped, or a small chance, at the right end of a column: none, one too small for six decimals, or the
// value.
pub fn small(rt: &impl Print, x: f64, width: usize) -> Result<()> {
    let digits = digits::chance(x);
    let words = if x == 0.0 {
        "nothing"
    } else if x < 0.000001 {
        "<0.000001"
    } else {
        text(&digits)
    };
    print!(rt; "{words:>width$}")
}

pub fn yes(b: bool) -> &'static str {
    if b { "yes" } else { "NO" }
}

// The figure, once as a planner reads it and once to the last bit.
pub fn figure(rt: &impl Print, x: f64) -> Result<()> {
    let chance = digits::chance(x);
    let bits = digits::bits(x);
    println!(rt; "chance {}   bits {}", text(&chance), text(&bits))
}
