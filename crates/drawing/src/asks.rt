// What a turn asks for: a replacement, drawn, in order or with one flaw.
use crate::{chance, parts, plans};

// The three replacements.
#[derive(Clone, Copy, Debug, PartialEq, Eq)]
pub enum Kind {
    Core,
    Weights,
    Axis,
}

// The lists of a call.
#[derive(Clone, Copy, Debug, PartialEq, Eq)]
pub enum List {
    Source,
    Weights,
    Chain,
    Carries,
    Sums,
    Scratch,
}

// In their order.
pub const LISTS: [List; 6] = [
    List::Source,
    List::Weights,
    List::Chain,
    List::Carries,
    List::Sums,
    List::Scratch,
];

impl List {
    // One of the lists; without a bond there are no carries.
    fn drawn(x: usize, d: usize) -> List {
        let list = LISTS[chance::below(x, LISTS.len())];
        match list {
            List::Carries if d < 2 => List::Source,
            _ => list,
        }
    }
}

// What others wrote to: a list of the run, or what a bond dropped, which stands in the record.
#[derive(Clone, Copy, Debug, PartialEq, Eq)]
pub enum Held {
    List(List),
    Dropped,
}

impl Held {
    // What others wrote to: one of the run's five lists, or what a bond dropped, where there is a bond.
    fn drawn(x: usize, d: usize) -> Held {
        match List::drawn(x, d) {
            List::Scratch if d < 2 => Held::List(List::Source),
            List::Scratch => Held::Dropped,
            list => Held::List(list),
        }
    }
}

// The flaws, each by the refusal that it is to bring.
#[derive(Clone, Copy, Debug, PartialEq, Eq)]
pub enum Flaw {
    // ---- about the call or about a run that others wrote to: no fresh run can have them
    // 3: a kept rank of 0, or above its source's
    RankZero,
    RankAbove,
    // 4
    Zone,
    // 5: the length of the part, or of one of the lists
    Part,
    Lent(List),
    // 6: a NaN or an infinity that others wrote into a list of the run, to what a bond dropped, or into its figure
    Held(Held),
    Figure,
    // ---- in what is new
    // 6: in the new part
    NotFinite,
    // 7: an a below zero, or a boundary that isn't known
    BelowZero,
    Unknown,
    // 8, where anything is shifted
    TooFar,
    // 9, 12, 13 or 14, nearly always
    Overflow,
    // ---- more flaws of a run that others wrote to, drawn for turns of their own
    // 6, 7: a lone setting that isn't finite, or one below zero or a mode that isn't known
    LoneNotFinite,
    LoneOutOfOrder,
    // 6, 7, 7: an axis record that isn't finite, with an a below zero, or with a boundary that isn't known
    OldNotFinite,
    OldBelowZero,
    OldUnknown,
    // 6: a lone setting that is out of order so, and an axis record that isn't finite
    TwoSettings,
    // 2: a size of 0, and a zone number of d or more
    SizeAndZone,
    // 6, of the lower zone: in the new part, and in a list of the run or in what a bond dropped
    TwoNumbers(Held),
    // 8, where that axis is shifted: an axis record whose shift is too far
    OldTooFar,
}

impl Flaw {
    // A flaw that a chain of d cores can have, or none: one core has no bond. Those that have several lists are drawn more often.
    fn drawn(x: usize, d: usize) -> Option<Flaw> {
        match chance::below(x, 37) {
            0 if 2 <= d => Some(Flaw::RankZero),
            1 if 2 <= d => Some(Flaw::RankAbove),
            2 => Some(Flaw::Zone),
            3 => Some(Flaw::Part),
            4 | 31 | 32 => Some(Flaw::Lent(List::drawn(x / 256, d))),
            5 | 33..=36 => Some(Flaw::Held(Held::drawn(x / 256, d))),
            6 => Some(Flaw::Figure),
            7 => Some(Flaw::NotFinite),
            8 => Some(Flaw::BelowZero),
            9 => Some(Flaw::Unknown),
            10 => Some(Flaw::TooFar),
            11 => Some(Flaw::Overflow),
            _ => None,
        }
    }

    // A flaw of a run that others wrote to.
    fn drawn_spoilt(x: usize, d: usize) -> Flaw {
        match chance::below(x, 9) {
            0 => Flaw::LoneNotFinite,
            1 => Flaw::LoneOutOfOrder,
            2 => Flaw::OldNotFinite,
            3 => Flaw::OldBelowZero,
            4 => Flaw::OldUnknown,
            5 => Flaw::TwoSettings,
            6 => Flaw::SizeAndZone,
            7 => Flaw::TwoNumbers(Held::drawn(x / 256, d)),
            _ => Flaw::OldTooFar,
        }
    }

    // What others wrote to beside the record's own numbers.
    pub fn held(self) -> Option<Held> {
        match self {
            Flaw::Held(held) | Flaw::TwoNumbers(held) => Some(held),
            _ => None,
        }
    }

    // Whether it is in a bond, which stands between two zones.
    fn is_of_bond(self) -> bool {
        match self {
            Flaw::RankZero | Flaw::RankAbove => true,
            _ => matches!(self.held(), Some(Held::List(List::Carries) | Held::Dropped)),
        }
    }
}

impl Kind {
    // The replacement that can have the flaw.
    fn drawn(x: usize, flaw: Option<Flaw>) -> Kind {
        let drawn = chance::below(x, 3);
        match (flaw, drawn) {
            (Some(Flaw::BelowZero | Flaw::Unknown | Flaw::TooFar), _) => Kind::Axis,
            (Some(Flaw::Part | Flaw::Overflow | Flaw::OldTooFar), 2) => Kind::Core,
            (_, 0) => Kind::Core,
            (_, 1) => Kind::Weights,
            _ => Kind::Axis,
        }
    }
}

#[derive(Clone, Copy)]
pub struct Ask {
    pub kind: Kind,
    pub flaw: Option<Flaw>,
    // the zone that is named, and the one that others wrote to
    pub zone: usize,
    pub spot: usize,
    // how many numbers the part has
    pub length: usize,
    // a NaN or an infinity
    pub wrong: f64,
    pub axis: stepform::Axis,
    // from which the next is drawn
    pub seed: usize,
}

// The zone that others wrote to: one with a bond on its right where the flaw is in a bond.
fn spot(x: usize, d: usize, flaw: Option<Flaw>) -> usize {
    let k = chance::below(x, d);
    match flaw {
        Some(f) if f.is_of_bond() => k.saturating_sub(1),
        _ => k,
    }
}

// How many numbers the part has; one more or one less where the flaw is that.
fn length(s: shape::Shape, z: usize, kind: Kind, flaw: Option<Flaw>) -> usize {
    let from = plans::starts(s, z);
    let to = plans::starts(s, z.wrapping_add(1));
    let n = match kind {
        Kind::Core => to.core.wrapping_sub(from.core),
        Kind::Weights | Kind::Axis => to.weights.wrapping_sub(from.weights),
    };
    if flaw == Some(Flaw::Part) { n ^ 1 } else { n }
}

fn not_finite(x: usize) -> f64 {
    [1.0 / 0.0, -1.0 / 0.0, 0.0 / 0.0][chance::below(x, 3)]
}

// An axis record with one of four flaws, by what it is in a new one, or as it was.
fn flawed(x: stepform::Axis, flaw: Option<Flaw>, wrong: f64) -> stepform::Axis {
    let mut a = x;
    match flaw {
        Some(Flaw::NotFinite) => a.b = wrong,
        Some(Flaw::BelowZero) => a.a = -0.25,
        Some(Flaw::Unknown) => a.boundary = 2,
        Some(Flaw::TooFar) => {
            a.b = 1e12;
            a.xmax = a.xmin + 0.5;
        }
        _ => {}
    }
    a
}

// A new axis record with the flaw.
fn axis(x: usize, flaw: Option<Flaw>, wrong: f64) -> stepform::Axis {
    let of_new = match flaw {
        Some(Flaw::TwoNumbers(_)) => Some(Flaw::NotFinite),
        _ => flaw,
    };
    flawed(plans::axis(x), of_new, wrong)
}

// What the next turn asks.
pub fn drawn(seed: usize, s: shape::Shape) -> Ask {
    asked(seed, s, Flaw::drawn(chance::next(seed), s.d))
}

// What the next turn asks on a run that others wrote to.
pub fn drawn_spoilt(seed: usize, s: shape::Shape) -> Ask {
    asked(seed, s, Some(Flaw::drawn_spoilt(chance::next(seed), s.d)))
}

// A request with a flaw, or without.
fn asked(seed: usize, s: shape::Shape, flaw: Option<Flaw>) -> Ask {
    let x = chance::next(seed);
    let y = chance::next(x);
    let next = chance::next(y);
    let kind = Kind::drawn(x / 64, flaw);
    let zone = chance::below(y, s.d);
    let wrong = not_finite(y / 16);
    Ask {
        kind,
        flaw,
        zone: match flaw {
            Some(Flaw::Zone | Flaw::SizeAndZone) => s.d.wrapping_add(y % 3),
            _ => zone,
        },
        spot: spot(y / 64, s.d, flaw),
        length: length(s, zone, kind, flaw),
        wrong,
        axis: axis(next, flaw, wrong),
        seed: next,
    }
}

// What the numbers of a part are scaled by: mostly 1, else so little that squares vanish, much, or 0; too much where that is the
// flaw.
fn scale(x: usize, flaw: Option<Flaw>, kind: Kind) -> f64 {
    match (flaw, kind) {
        (Some(Flaw::Overflow), Kind::Weights) => 8e307,
        (Some(Flaw::Overflow), _) => [1e155, 1e200, 8.9e307, 8.9e307][chance::below(x, 4)],
        _ => match chance::below(x, 20) {
            0 => 1e-170,
            1 => 1e40,
            2 => 0.0,
            _ => 1.0,
        },
    }
}

// The numbers of the part that is asked for, at the front of a list.
pub fn write_part(q: Ask, part: &mut [f64]) {
    let x = q.seed ^ 0x5851_f42d_4c95_7f2d;
    chance::fill(x, scale(x, q.flaw, q.kind), part);
    if matches!(q.flaw, Some(Flaw::NotFinite | Flaw::TwoNumbers(_))) {
        parts::exchanged(part, chance::below(x, q.length), q.wrong);
    }
}

// ---- the record as others wrote to it
// One lone setting: tau or eps; c where it isn't finite, the mode where it is out of order.
pub fn spoilt_settings(q: Ask, set: stepform::Settings) -> stepform::Settings {
    let mut t = set;
    let mut cutting = set.cutting;
    match (q.flaw, chance::below(q.seed, 3)) {
        (Some(Flaw::LoneNotFinite), 0) => t.tau = q.wrong,
        (Some(Flaw::LoneNotFinite), 1) => t.c = q.wrong,
        (Some(Flaw::LoneNotFinite), _) => cutting.eps = q.wrong,
        (Some(Flaw::LoneOutOfOrder | Flaw::TwoSettings), 0) => t.tau = -0.5,
        (Some(Flaw::LoneOutOfOrder | Flaw::TwoSettings), 1) => cutting.eps = -0.5,
        (Some(Flaw::LoneOutOfOrder | Flaw::TwoSettings), _) => cutting.mode = 2,
        _ => {}
    }
    t.cutting = cutting;
    t
}

// The axis record of the zone that others wrote to.
pub fn spoilt_axis(q: Ask, x: stepform::Axis) -> stepform::Axis {
    let of_old = match q.flaw {
        Some(Flaw::OldNotFinite | Flaw::TwoSettings) => Some(Flaw::NotFinite),
        Some(Flaw::OldBelowZero) => Some(Flaw::BelowZero),
        Some(Flaw::OldUnknown) => Some(Flaw::Unknown),
        Some(Flaw::OldTooFar) => Some(Flaw::TooFar),
        _ => None,
    };
    flawed(x, of_old, q.wrong)
}
