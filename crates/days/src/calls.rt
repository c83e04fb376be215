// The calls of a kept run on lists that stand in one list: source, weights, chain, carries, sums, each from a place of its own on.
use drawing::asks::{Ask, List};
use drawing::parts;

// What scratch holds before a call, and what is kept before a fresh run.
pub const MARK: f64 = 7.5;

// The most that the source and the chain have, and the most that the others have.
const ROOM: usize = shape::MOST_CORE;

const LITTLE: usize = shape::MOST_CARRIES;

pub const WEIGHTS: usize = ROOM;

// What is kept stands from here on.
pub const CHAIN: usize = WEIGHTS + LITTLE;

pub const CARRIES: usize = CHAIN + ROOM;

pub const SUMS: usize = CARRIES + LITTLE;

pub const HELD: usize = SUMS + LITTLE;

pub const KEPT: usize = HELD - CHAIN;

const SCRATCH: usize = shape::SCRATCH_TIMES * ROOM + shape::SCRATCH_BESIDE;

// What a refusal tells.
#[derive(Clone, Copy, Debug, PartialEq, Eq)]
pub struct Told {
    pub number: usize,
    pub place: usize,
    pub index: usize,
}

// What a check tells: nothing was being stored.
pub fn checked(number: usize, place: usize) -> Told {
    Told {
        number,
        place,
        index: 0,
    }
}

// None where a call was accepted.
pub fn reading(v: Result<(), answers::Refusal>) -> Option<Told> {
    v.err().map(|q| Told {
        number: usize::from(q.number()),
        place: q.place(),
        index: q.index(),
    })
}

// How many numbers of each list a call is lent.
#[derive(Clone, Copy)]
pub struct Lengths {
    source: usize,
    weights: usize,
    chain: usize,
    carries: usize,
    sums: usize,
    scratch: usize,
}

// One more or one less where the list is the one whose length is wrong.
fn lent(wrong: Option<List>, list: List, n: usize) -> usize {
    if wrong == Some(list) { n ^ 1 } else { n }
}

pub fn lengths_of(s: shape::Shape, wrong: Option<List>) -> Lengths {
    let end = drawing::plans::starts(s, s.d);
    let scratch = if end.core < ROOM {
        shape::scratch_for(end.core)
    } else {
        SCRATCH
    };
    Lengths {
        source: lent(wrong, List::Source, end.core),
        weights: lent(wrong, List::Weights, end.weights),
        chain: lent(wrong, List::Chain, end.core),
        carries: lent(wrong, List::Carries, end.carry),
        sums: lent(wrong, List::Sums, end.sums),
        scratch: lent(wrong, List::Scratch, scratch),
    }
}

// ---- a list out of the one in which all stand, and back
fn list(held: &[f64; HELD], at: usize, n: usize) -> [f64; ROOM] {
    let mut out = [0.0; ROOM];
    parts::paste(0, parts::window(held, at, n), &mut out);
    out
}

fn keep(at: usize, list: &[f64; ROOM], n: usize, held: &mut [f64; HELD]) {
    parts::paste(at, parts::window(list, 0, n), held);
}

pub fn all_are(list: &[f64], x: f64) -> bool {
    list.iter().all(|y| comparing::same_number(*y, x))
}

// What a call answered, and whether it left alone what it must.
#[derive(Clone, Copy)]
pub struct Ended {
    pub ran: runform::Ran,
    pub clean: bool,
}

// Scratch is unwritten after a refusal that nothing was worked for, and zero after any other answer.
fn ending(ran: runform::Ran, scratch: &[f64; SCRATCH], n: usize) -> Ended {
    let left = match ran.verdict {
        Err(q) if q.before_work() => MARK,
        _ => 0.0,
    };
    Ended {
        ran,
        clean: all_are(parts::window(scratch, 0, n), left),
    }
}

// ---- the four calls
pub fn fresh(r: runform::Run, n: Lengths, held: &mut [f64; HELD]) -> Ended {
    let mut chain = list(held, CHAIN, n.chain);
    let mut carries = list(held, CARRIES, n.carries);
    let mut sums = list(held, SUMS, n.sums);
    let mut scratch = [MARK; SCRATCH];
    let all = &*held;
    let ran = runs::fresh_run(
        r.shape,
        r.axes,
        r.set,
        parts::window(all, 0, n.source),
        parts::window(all, WEIGHTS, n.weights),
        parts::front(&mut chain, n.chain),
        parts::front(&mut carries, n.carries),
        parts::front(&mut sums, n.sums),
        parts::front(&mut scratch, n.scratch),
    );
    keep(CHAIN, &chain, n.chain, held);
    keep(CARRIES, &carries, n.carries, held);
    keep(SUMS, &sums, n.sums, held);
    ending(ran, &scratch, n.scratch)
}

pub fn core(q: Ask, r: runform::Run, n: Lengths, part: &[f64], held: &mut [f64; HELD]) -> Ended {
    let mut source = list(held, 0, n.source);
    let mut chain = list(held, CHAIN, n.chain);
    let mut carries = list(held, CARRIES, n.carries);
    let mut sums = list(held, SUMS, n.sums);
    let mut scratch = [MARK; SCRATCH];
    let ran = runs::replace_core(
        r,
        q.zone,
        parts::front(&mut source, n.source),
        parts::window(held, WEIGHTS, n.weights),
        parts::front(&mut chain, n.chain),
        parts::front(&mut carries, n.carries),
        parts::front(&mut sums, n.sums),
        part,
        parts::front(&mut scratch, n.scratch),
    );
    keep(0, &source, n.source, held);
    keep(CHAIN, &chain, n.chain, held);
    keep(CARRIES, &carries, n.carries, held);
    keep(SUMS, &sums, n.sums, held);
    ending(ran, &scratch, n.scratch)
}

pub fn weights(q: Ask, r: runform::Run, n: Lengths, part: &[f64], held: &mut [f64; HELD]) -> Ended {
    let mut weights = list(held, WEIGHTS, n.weights);
    let mut sums = list(held, SUMS, n.sums);
    let mut scratch = [MARK; SCRATCH];
    let all = &*held;
    let ran = runs::replace_weights(
        r,
        q.zone,
        parts::window(all, 0, n.source),
        parts::front(&mut weights, n.weights),
        parts::window(all, CHAIN, n.chain),
        parts::window(all, CARRIES, n.carries),
        parts::front(&mut sums, n.sums),
        part,
        parts::front(&mut scratch, n.scratch),
    );
    keep(WEIGHTS, &weights, n.weights, held);
    keep(SUMS, &sums, n.sums, held);
    ending(ran, &scratch, n.scratch)
}

pub fn axis(q: Ask, r: runform::Run, n: Lengths, held: &mut [f64; HELD]) -> Ended {
    let mut chain = list(held, CHAIN, n.chain);
    let mut carries = list(held, CARRIES, n.carries);
    let mut sums = list(held, SUMS, n.sums);
    let mut scratch = [MARK; SCRATCH];
    let all = &*held;
    let ran = runs::replace_axis(
        r,
        q.zone,
        q.axis,
        parts::window(all, 0, n.source),
        parts::window(all, WEIGHTS, n.weights),
        parts::front(&mut chain, n.chain),
        parts::front(&mut carries, n.carries),
        parts::front(&mut sums, n.sums),
        parts::front(&mut scratch, n.scratch),
    );
    keep(CHAIN, &chain, n.chain, held);
    keep(CARRIES, &carries, n.carries, held);
    keep(SUMS, &sums, n.sums, held);
    ending(ran, &scratch, n.scratch)
}
