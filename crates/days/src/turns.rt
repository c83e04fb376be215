// One turn of a day: a replacement, and a fresh run beside it, compared.
use crate::calls;
use crate::calls::Told;
use drawing::asks::{Ask, Flaw, Held, Kind, List};
use drawing::{asks, parts, plans};

// Whether a fresh run with the new part in is to answer the same, but for a shift that is made too far.
fn as_fresh(q: Ask) -> bool {
    match q.flaw {
        None => true,
        Some(
            Flaw::NotFinite
            | Flaw::BelowZero
            | Flaw::Unknown
            | Flaw::TooFar
            | Flaw::Overflow
            | Flaw::OldTooFar,
        ) => true,
        _ => false,
    }
}

// Whether a replacement shifts the axis whose record others wrote to: one of a core, of a zone not behind it, as long as time goes on.
fn is_shifted(q: Ask, set: stepform::Settings) -> bool {
    q.kind == Kind::Core && q.zone <= q.spot && 0.0 < set.tau
}

// The place of a list in a call; behind a new part scratch is one further on.
fn place(list: List, kind: Kind) -> usize {
    match (list, kind) {
        (List::Scratch, Kind::Core | Kind::Weights) => 6,
        _ => list as usize,
    }
}

// What is to be told: by the flaw, or as a fresh run, where there can be one.
fn expected(q: Ask, set: stepform::Settings, fresh: Option<Told>) -> Option<Told> {
    let (number, place) = match q.flaw {
        Some(Flaw::RankZero | Flaw::RankAbove) => (3, q.spot),
        Some(Flaw::Zone) => (4, 0),
        Some(Flaw::Part) => (5, 5),
        Some(Flaw::Lent(list)) => (5, place(list, q.kind)),
        Some(Flaw::Held(_)) => (6, q.spot),
        Some(Flaw::Figure) => (6, 0),
        Some(Flaw::LoneNotFinite) => (6, 0),
        Some(Flaw::LoneOutOfOrder) => (7, 0),
        Some(Flaw::OldNotFinite | Flaw::TwoSettings) => (6, q.spot),
        Some(Flaw::OldBelowZero | Flaw::OldUnknown) => (7, q.spot),
        Some(Flaw::SizeAndZone) => (2, q.spot),
        Some(Flaw::TwoNumbers(_)) => (6, q.spot.min(q.zone)),
        Some(Flaw::OldTooFar) if is_shifted(q, set) => (8, q.spot),
        _ => return fresh,
    };
    Some(calls::checked(number, place))
}

// ---- the fresh run
// The run with a new record that is in order, or its lists with a new part.
fn renewed(q: Ask, r: runform::Run, part: &[f64], held: &mut [f64; calls::HELD]) -> runform::Run {
    if !as_fresh(q) {
        return r;
    }
    let at = plans::starts(r.shape, q.zone);
    let mut xs = r.axes;
    match q.kind {
        Kind::Core => parts::paste(at.core, part, held),
        Kind::Weights => parts::paste(calls::WEIGHTS.wrapping_add(at.weights), part, held),
        Kind::Axis => {
            if let Some(x) = xs.get_mut(q.zone) {
                *x = q.axis;
            }
        }
    }
    let mut run = r;
    run.axes = xs;
    run
}

// ---- what others wrote
// What is said of a bond, with a rank that none can have, or a dropped value that isn't finite; `right` is the source's there.
fn spoilt_bond(q: Ask, b: cutform::Bond, right: usize) -> cutform::Bond {
    let mut t = b;
    match q.flaw {
        Some(Flaw::RankZero) => t.rank = 0,
        Some(Flaw::RankAbove) => t.rank = right.wrapping_add(1),
        Some(Flaw::Held(Held::Dropped) | Flaw::TwoNumbers(Held::Dropped)) => t.dropped = q.wrong,
        _ => {}
    }
    t
}

// The record as others wrote to it.
fn spoilt(q: Ask, r: runform::Run) -> runform::Run {
    let mut t = r;
    let mut s = r.shape;
    let mut xs = r.axes;
    let set = r.set;
    let mut bonds = r.bonds;
    let k = q.spot;
    if k < shape::MOST_AXES {
        xs[k] = asks::spoilt_axis(q, xs[k]);
        if q.flaw == Some(Flaw::SizeAndZone) {
            s.n[k] = 0;
        }
        bonds[k] = spoilt_bond(q, bonds[k], s.right[k]);
    }
    if q.flaw == Some(Flaw::Figure) {
        t.figure = q.wrong;
    }
    t.shape = s;
    t.axes = xs;
    t.set = asks::spoilt_settings(q, set);
    t.bonds = bonds;
    t
}

// The record as it was before others wrote to it, of a replacement that was made all the same.
fn mended(q: Ask, a: runform::Run, r: runform::Run) -> runform::Run {
    let mut t = a;
    if q.flaw == Some(Flaw::OldTooFar) {
        let xs = r.axes;
        t.axes = xs;
    }
    t
}

// Where they wrote to a list, or behind all.
fn spoilt_place(q: Ask, s: shape::Shape) -> usize {
    let at = plans::starts(s, q.spot);
    match q.flaw.and_then(Flaw::held) {
        Some(Held::List(List::Source)) => at.core,
        Some(Held::List(List::Weights)) => calls::WEIGHTS.wrapping_add(at.weights),
        Some(Held::List(List::Chain)) => calls::CHAIN.wrapping_add(at.core),
        Some(Held::List(List::Carries)) => calls::CARRIES.wrapping_add(at.carry),
        Some(Held::List(List::Sums)) => calls::SUMS.wrapping_add(at.sums),
        _ => calls::HELD,
    }
}

fn replace(q: Ask, r: runform::Run, part: &[f64], held: &mut [f64; calls::HELD]) -> calls::Ended {
    let lent = match q.flaw {
        Some(Flaw::Lent(list)) => Some(list),
        _ => None,
    };
    let n = calls::lengths_of(r.shape, lent);
    match q.kind {
        Kind::Core => calls::core(q, r, n, part, held),
        Kind::Weights => calls::weights(q, r, n, part, held),
        Kind::Axis => calls::axis(q, r, n, held),
    }
}

// The replacement on the run as others wrote to it, where that is the flaw; what they wrote must stand after it, and is put right.
fn replace_spoilt(
    q: Ask,
    r: runform::Run,
    part: &[f64],
    held: &mut [f64; calls::HELD],
) -> calls::Ended {
    let at = spoilt_place(q, r.shape);
    let was = parts::exchanged(held, at, q.wrong);
    let mut end = replace(q, spoilt(q, r), part, held);
    let found = parts::exchanged(held, at, was);
    end.clean = end.clean && comparing::same_number(found, q.wrong);
    end
}

// ---- the comparison
fn same_axis(a: stepform::Axis, b: stepform::Axis) -> bool {
    comparing::same_number(a.a, b.a)
        && comparing::same_number(a.b, b.b)
        && comparing::same_number(a.xmin, b.xmin)
        && comparing::same_number(a.xmax, b.xmax)
        && a.boundary == b.boundary
}

fn same_settings(s: stepform::Settings, t: stepform::Settings) -> bool {
    comparing::same_number(s.tau, t.tau)
        && comparing::same_number(s.c, t.c)
        && comparing::same_number(s.cutting.eps, t.cutting.eps)
        && s.cutting.mode == t.cutting.mode
}

fn same_axes(
    xs: [stepform::Axis; shape::MOST_AXES],
    ys: [stepform::Axis; shape::MOST_AXES],
) -> bool {
    xs.iter().zip(&ys).all(|(x, y)| same_axis(*x, *y))
}

// Two records, in every field.
fn same_run(a: runform::Run, b: runform::Run) -> bool {
    same_settings(a.set, b.set)
        && a.shape == b.shape
        && same_axes(a.axes, b.axes)
        && comparing::same_record(a, b)
}

// What was found of the lists: as the fresh run's, as they were, and what is kept of the zones before z as it was.
#[derive(Clone, Copy)]
struct Found {
    fresh: bool,
    still: bool,
    apart: bool,
}

fn look(
    n: plans::Places,
    held: &[f64; calls::HELD],
    before: &[f64; calls::HELD],
    fresh: &[f64; calls::HELD],
) -> Found {
    let cores = comparing::same_numbers(
        parts::window(held, calls::CHAIN, n.core),
        parts::window(before, calls::CHAIN, n.core),
    );
    let carried = comparing::same_numbers(
        parts::window(held, calls::CARRIES, n.carry),
        parts::window(before, calls::CARRIES, n.carry),
    );
    let summed = comparing::same_numbers(
        parts::window(held, calls::SUMS, n.sums),
        parts::window(before, calls::SUMS, n.sums),
    );
    Found {
        fresh: comparing::same_numbers(held, fresh),
        still: comparing::same_numbers(held, before),
        apart: cores & carried & summed,
    }
}

// Whether an answer is right: one that is no refusal has the fresh run's bits, what others wrote, and no zone before the named one
// written; a refused one left the run alone, and the run, where the flaw is none of its inputs', is still the fresh one.
fn right(q: Ask, r: runform::Run, got: runform::Ran, want: runform::Ran, f: Found) -> bool {
    let told = calls::reading(got.verdict);
    if told != expected(q, r.set, calls::reading(want.verdict)) {
        return false;
    }
    match told {
        None => same_run(got.run, spoilt(q, want.run)) && f.fresh && f.apart,
        Some(_) => {
            same_run(got.run, spoilt(q, r))
                && f.still
                && (as_fresh(q) || same_run(r, want.run) && f.fresh)
        }
    }
}

// The run after a turn and its lists, what was told, and whether all was as it must be.
#[derive(Clone, Copy)]
pub struct Turned {
    pub run: runform::Run,
    pub held: [f64; calls::HELD],
    pub told: Option<Told>,
    pub agrees: bool,
}

// Whether a fresh run that is refused left alone what it was to write.
fn unwritten(v: Result<(), answers::Refusal>, held: &[f64; calls::HELD]) -> bool {
    v.is_ok() || calls::all_are(parts::window(held, calls::CHAIN, calls::KEPT), calls::MARK)
}

// ---- unused room
// How many numbers a core has: so many stand before the next one of a chain of three.
fn size_of(left: usize, n: usize, right: usize) -> usize {
    let mut lefts = [1; shape::MOST_AXES];
    let mut points = [1; shape::MOST_AXES];
    let mut rights = [1; shape::MOST_AXES];
    rights[0] = left;
    lefts[1] = left;
    points[1] = n;
    rights[1] = right;
    lefts[2] = right;
    let s = shape::Shape {
        d: 3,
        left: lefts,
        n: points,
        right: rights,
    };
    let to = plans::starts(s, 2).core;
    to.wrapping_sub(plans::starts(s, 1).core)
}

// Whether a slot of a list, from one place to another, is +0 behind its first `used` numbers.
fn is_clear(held: &[f64; calls::HELD], list: usize, from: usize, to: usize, used: usize) -> bool {
    let size = to.wrapping_sub(from);
    if size < used {
        return size == 0;
    }
    let at = list.wrapping_add(from.wrapping_add(used));
    calls::all_are(parts::window(held, at, size - used), 0.0)
}

// Whether the slots of zone k are +0 behind what is kept of it, by the kept ranks on its sides.
fn zone_clear(
    s: shape::Shape,
    k: usize,
    left: usize,
    n: usize,
    right: usize,
    kept: usize,
    held: &[f64; calls::HELD],
) -> bool {
    let at = plans::starts(s, k);
    let to = plans::starts(s, k.wrapping_add(1));
    let core = is_clear(held, calls::CHAIN, at.core, to.core, size_of(left, n, kept));
    let carry = is_clear(
        held,
        calls::CARRIES,
        at.carry,
        to.carry,
        size_of(kept, right, 1),
    );
    core && carry && is_clear(held, calls::SUMS, at.sums, to.sums, kept)
}

// The same of all zones.
fn room_clear(r: runform::Run, held: &[f64; calls::HELD]) -> bool {
    let s = r.shape;
    let mut left = 1;
    for k in 0..s.d.min(shape::MOST_AXES) {
        let kept = if k + 1 < s.d { r.bonds[k].rank } else { 1 };
        if !zone_clear(s, k, left, s.n[k], s.right[k], kept, held) {
            return false;
        }
        left = kept;
    }
    true
}

// ---- fresh runs that are refused
// The record as it is before a fresh run.
fn blank(r: runform::Run) -> runform::Run {
    let mut t = r;
    let none = bond::no_bond();
    t.bonds = [none; shape::MOST_AXES];
    t.figure = 0.0;
    t
}

fn same_lists(a: &[f64; calls::HELD], b: &[f64; calls::HELD]) -> bool {
    comparing::same_numbers(a, b)
}

// Whether a fresh run is refused with what is due, and leaves its lists alone and in its record nothing but what it was given.
pub fn is_refused(
    r: runform::Run,
    wrong: Option<List>,
    held: [f64; calls::HELD],
    due: Option<Told>,
) -> bool {
    let mut now = held;
    let end = calls::fresh(r, calls::lengths_of(r.shape, wrong), &mut now);
    calls::reading(end.ran.verdict) == due
        && end.clean
        && same_run(end.ran.run, blank(r))
        && same_lists(&now, &held)
}

// The same of the settings and the axis record that others wrote to, where they are to be refused.
fn refused_beside(q: Ask, r: runform::Run, held: [f64; calls::HELD]) -> bool {
    match q.flaw {
        Some(
            Flaw::LoneNotFinite
            | Flaw::LoneOutOfOrder
            | Flaw::OldNotFinite
            | Flaw::OldBelowZero
            | Flaw::OldUnknown
            | Flaw::TwoSettings,
        ) => is_refused(spoilt(q, r), None, held, expected(q, r.set, None)),
        _ => true,
    }
}

// One turn: what is asked is done on the run that is held, and a fresh run is made beside it. Its lists and those of its one caller share
// the stack, where each has fewer copies.
#[inline(always)]
pub fn turn(q: Ask, r: runform::Run, held: [f64; calls::HELD], part: &[f64]) -> Turned {
    let mut now = held;
    let mut fresh = held;
    fresh[calls::CHAIN..].fill(calls::MARK);
    let end = replace_spoilt(q, r, part, &mut now);
    let with = renewed(q, r, part, &mut fresh);
    let beside = calls::fresh(with, calls::lengths_of(r.shape, None), &mut fresh);
    let f = look(plans::starts(r.shape, q.zone), &now, &held, &fresh);
    let agrees = right(q, r, end.ran, beside.ran, f)
        && end.clean
        && beside.clean
        && unwritten(beside.ran.verdict, &fresh)
        && refused_beside(q, r, held);
    let made = end.ran.run;
    let told = calls::reading(end.ran.verdict);
    match told {
        None => Turned {
            run: mended(q, made, r),
            held: now,
            told,
            agrees: agrees && room_clear(made, &now),
        },
        Some(_) => Turned {
            run: r,
            held: now,
            told,
            agrees,
        },
    }
}
