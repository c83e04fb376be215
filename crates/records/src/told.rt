// What a call answers.
ghost use Rattle.std.specs.Prelude.{◌≡◌, map, Err};
ghost use Rattle.records.specs.Told.{refusal_of, shape_out, bond_out, rounded_out, figure_out, started_out, paired_out, read_out, seen_out};

use crate::given::CShape;
use answers::Refusal;
use cutform::{Bond, Rounded};
use shape::{MOST_AXES, Shape};

// A refusal by its number in the scope's table, its place, and the index inside what was being stored; number 0 is none.
#[repr(C)]
#[derive(Clone, Copy)]
pub struct CRefusal {
    pub number: u8,
    pub place: usize,
    pub index: usize,
}

// What is said of a bond: the rank kept, the sweeps made, whether its matrix is settled at their end, and the largest value not kept.
#[repr(C)]
#[derive(Clone, Copy)]
pub struct CBond {
    pub rank: usize,
    pub sweeps: usize,
    pub settled: bool,
    pub dropped: f64,
}

// The chain's shape at the end, and what is said of each bond.
#[repr(C)]
#[derive(Clone, Copy)]
pub struct CRounded {
    pub refusal: CRefusal,
    pub shape: CShape,
    pub bonds: [CBond; MOST_AXES],
}

// The figure, +0 where it is refused.
#[repr(C)]
#[derive(Clone, Copy)]
pub struct CFigure {
    pub refusal: CRefusal,
    pub value: f64,
}

// The shape of the chain that a separable start makes, or that a file holds.
#[repr(C)]
#[derive(Clone, Copy)]
pub struct CFormed {
    pub refusal: CRefusal,
    pub shape: CShape,
}

// The rank that a pair keeps, and the passes made.
#[repr(C)]
#[derive(Clone, Copy)]
pub struct CPaired {
    pub refusal: CRefusal,
    pub rank: usize,
    pub passes: usize,
}

// A number of a core, or +0 outside of it.
#[repr(C)]
#[derive(Clone, Copy)]
pub struct CSeen {
    pub inside: bool,
    pub value: f64,
}

impl From<Refusal> for CRefusal {
    ghost from_gives = { λ q c. c ≡ refusal_of (Err q) };

    fn from(q: Refusal) -> CRefusal {
        CRefusal {
            number: q.number(),
            place: q.place(),
            index: q.index(),
        }
    }
}

pub fn refusal_of(v: Result<(), Refusal>) -> CRefusal
    ensures { result ≡ refusal_of v }
{
    match v {
        Err(q) => q.into(),
        Ok(()) => CRefusal {
            number: 0,
            place: 0,
            index: 0,
        },
    }
}

impl From<Shape> for CShape {
    ghost from_gives = { λ s t. t ≡ shape_out s };

    fn from(s: Shape) -> CShape {
        let Shape { d, left, n, right } = s;
        CShape { d, left, n, right }
    }
}

impl From<Bond> for CBond {
    ghost from_gives = { λ b c. c ≡ bond_out b };

    fn from(b: Bond) -> CBond {
        CBond {
            rank: b.rank,
            sweeps: b.sweeps,
            settled: b.settled,
            dropped: b.dropped,
        }
    }
}

// All of them, one after another: an array's `map` moves each several times.
pub(crate) fn bonds_out(bs: &[Bond; MOST_AXES]) -> [CBond; MOST_AXES]
    ensures { result ≡ map bond_out bs.now }
{
    let mut list = [CBond {
        rank: 0,
        sweeps: 0,
        settled: false,
        dropped: 0.0,
    }; MOST_AXES];
    for k in 0..MOST_AXES {
        list[k] = bs[k].into();
    }
    list
}

pub fn rounded_out(w: Rounded) -> CRounded
    ensures { result ≡ rounded_out w }
{
    CRounded {
        refusal: refusal_of(w.verdict),
        shape: w.shape.into(),
        bonds: bonds_out(&w.bonds),
    }
}

pub fn figure_out(w: Result<f64, Refusal>) -> CFigure
    ensures { result ≡ figure_out w }
{
    match w {
        Ok(value) => CFigure {
            refusal: refusal_of(Ok(())),
            value,
        },
        Err(q) => CFigure {
            refusal: refusal_of(Err(q)),
            value: 0.0,
        },
    }
}

// A refusal leaves the shape s that was given.
pub fn started_out(s: Shape, w: Result<Shape, Refusal>) -> CFormed
    ensures { result ≡ started_out s w }
{
    match w {
        Ok(made) => CFormed {
            refusal: refusal_of(Ok(())),
            shape: made.into(),
        },
        Err(q) => CFormed {
            refusal: refusal_of(Err(q)),
            shape: s.into(),
        },
    }
}

// Of a file that is refused, the shape is all zeros.
pub fn read_out(w: Result<Shape, Refusal>) -> CFormed
    ensures { result ≡ read_out w }
{
    match w {
        Ok(s) => CFormed {
            refusal: refusal_of(Ok(())),
            shape: s.into(),
        },
        Err(q) => CFormed {
            refusal: refusal_of(Err(q)),
            shape: CShape {
                d: 0,
                left: [0; shape::MOST_AXES],
                n: [0; shape::MOST_AXES],
                right: [0; shape::MOST_AXES],
            },
        },
    }
}

pub fn paired_out(w: Result<pairform::Paired, Refusal>) -> CPaired
    ensures { result ≡ paired_out w }
{
    match w {
        Ok(p) => CPaired {
            refusal: refusal_of(Ok(())),
            rank: p.rank,
            passes: p.passes,
        },
        Err(r) => CPaired {
            refusal: refusal_of(Err(r)),
            rank: 0,
            passes: 0,
        },
    }
}

impl From<Option<f64>> for CSeen {
    ghost from_gives = { λ w c. c ≡ seen_out w };

    fn from(w: Option<f64>) -> CSeen {
        CSeen {
            inside: w.is_some(),
            value: w.unwrap_or(0.0),
        }
    }
}
