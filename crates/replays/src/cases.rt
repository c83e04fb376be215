// A list of cases as a program reads it from standard input: words of eight bytes, the lowest first.
ghost use Rattle.std.specs.Prelude.{◌≡◌, ◌*◌, length};
ghost use Rattle.shape.specs.Limits.{most_core};

use std::io;
use std::io::{Read, Stdin};

// What stands in an output or in scratch before a call.
const MARK: f64 = 7.5;

const ROOM: usize = 8 * shape::MOST_CORE;

// Fills a list with what the input has, up to its end; a read that fails counts as the end.
pub fn fill(input: Stdin, list: &mut [u8]) {
    let mut from = input;
    // A read gives as many bytes as it can, so how many there are is not known before.
    let mut done = 0;
    while done < list.len() {
        match from.read(&mut list[done..]) {
            Ok(0) => return,
            Ok(more) => done += more,
            Err(_) => return,
        }
    }
}

// One word; bytes past the end of the input count as 0.
pub fn word(input: Stdin) -> usize {
    let mut b = [0u8; 8];
    fill(input, &mut b);
    let low = words::u32_at(&b, 0);
    let high = words::u32_at(&b, 4);
    low + 4294967296 * high
}

// A number by its bits; one NaN stands for all.
pub fn number(input: Stdin) -> f64 {
    let bits = word(input) as u64;
    if bits % 0x8000_0000_0000_0000 > 0x7ff0_0000_0000_0000 {
        return 0.0 / 0.0;
    }
    f64::from_bits(bits)
}

// Room for more numbers than a list has.
pub fn room() -> [f64; ROOM]
    ensures { 8 * most_core ≡ length result }
{
    [MARK; ROOM]
}

// As many numbers of a room as the word that follows says, or all.
pub fn lent(input: Stdin, room: &mut [f64]) -> &mut [f64] {
    let n = word(input);
    if room.len() < n {
        return room;
    }
    &mut room[0..n]
}

// How many numbers follow, then each: the front of a room that holds them.
pub fn list(input: Stdin, room: &mut [f64]) -> &mut [f64] {
    let list = lent(input, room);
    for x in list.iter_mut() {
        *x = number(input);
    }
    list
}

// The word that follows while i is below n, then `rest`.
fn wanted(input: Stdin, i: usize, n: usize, rest: usize) -> usize {
    if i < n { word(input) } else { rest }
}

// The n sizes that follow, and 0 behind them; of more than an array has, those that it has.
fn sizes(input: Stdin, n: usize) -> [usize; shape::MOST_AXES] {
    let mut list = [0; shape::MOST_AXES];
    for k in 0..shape::MOST_AXES {
        list[k] = wanted(input, k, n, 0);
    }
    list
}

// d, then the left ranks of the cores, their sizes, their right ranks.
pub fn shape(input: Stdin) -> shape::Shape {
    let d = word(input);
    let left = sizes(input, d);
    let n = sizes(input, d);
    let right = sizes(input, d);
    shape::Shape { d, left, n, right }
}

// ---- what a call answered and left
// Whether a call answered what a case says: thrice 0 where it is accepted, else number, place and index.
pub fn verdict(input: Stdin, v: Result<(), answers::Refusal>) -> bool {
    let number = word(input);
    let place = word(input);
    let index = word(input);
    match v {
        Ok(()) => (number == 0) & (place == 0) & (index == 0),
        Err(r) => (number == r.number() as usize) & (place == r.place()) & (index == r.index()),
    }
}

// Whether a number has the bits that follow.
pub fn is_next(input: Stdin, x: f64) -> bool {
    digits::pattern(x) == word(input) as u64
}

// Whether a list holds what follows: how many numbers stand at its front, what stands behind them, then each by its bits.
pub fn holds(input: Stdin, list: &[f64]) -> bool {
    let n = word(input);
    let rest = word(input);
    let mut all = n <= list.len();
    for (i, x) in list.iter().enumerate() {
        all &= digits::pattern(*x) == wanted(input, i, n, rest) as u64;
    }
    all
}

// Whether the counts that follow, how many and each, are the first of an array, and 0 behind them.
pub fn counts(input: Stdin, list: [usize; shape::MOST_AXES]) -> bool {
    let n = word(input);
    let mut all = true;
    for k in 0..shape::MOST_AXES {
        all &= list[k] == wanted(input, k, n, 0);
    }
    all
}

// Whether the sweeps that follow, how many and each, are those of the first bonds, and 0 behind them; a bond's rank is the shape's.
pub fn sweeps(
    input: Stdin,
    list: [cutform::Bond; shape::MOST_AXES],
    right: [usize; shape::MOST_AXES],
) -> bool {
    let n = word(input);
    let mut all = true;
    for k in 0..shape::MOST_AXES {
        let b = list[k];
        all &= b.rank == if k < n { right[k] } else { 0 };
        all &= b.sweeps == wanted(input, k, n, 0);
    }
    all
}

// Whether the flags that follow, 1 and 0, are those of the first bonds, and none is set behind them.
pub fn flags(input: Stdin, list: [cutform::Bond; shape::MOST_AXES]) -> bool {
    let n = word(input);
    let mut all = true;
    for k in 0..shape::MOST_AXES {
        all &= list[k].settled == (wanted(input, k, n, 0) == 1);
    }
    all
}

// Whether the numbers that follow, how many and each by its bits, are what the first bonds dropped, and +0 behind them.
pub fn dropped(input: Stdin, list: [cutform::Bond; shape::MOST_AXES]) -> bool {
    let n = word(input);
    let mut all = true;
    for k in 0..shape::MOST_AXES {
        all &= digits::pattern(list[k].dropped) == wanted(input, k, n, 0) as u64;
    }
    all
}

// Whether a shape is the one that follows: d, then the three arrays as counts.
pub fn shape_is(input: Stdin, s: shape::Shape) -> bool {
    let left = s.left;
    let n = s.n;
    let right = s.right;
    let d = word(input);
    let lefts = counts(input, left);
    let points = counts(input, n);
    let rights = counts(input, right);
    (s.d == d) & lefts & points & rights
}

// A line of standard output: words, how many cases there are, and how many agree.
pub fn print(rt: &impl Print, words: &str, cases: usize, good: usize) -> io::Result<()> {
    println!(rt; "{words} {cases} agree {good}")
}
