// A kept run's record, which goes into a call and comes out of it.
ghost use Rattle.std.specs.Prelude.{◌≡◌, map};
ghost use Rattle.records.specs.Held.{bond_in, run_in, axis_out, cutting_out, settings_out, run_out, ran_out};

use crate::given::{CAxis, CCutting, CSettings, CShape, axes_in};
use crate::told::{CBond, CRefusal, bonds_out, refusal_of};
use cutform::{Bond, Cutting};
use runform::{Ran, Run};
use shape::MOST_AXES;
use stepform::{Axis, PERIODIC, Settings};

// Its inputs but for the source chain and the weights; then what is said of bond k, at place k; and the figure.
#[repr(C)]
#[derive(Clone, Copy)]
pub struct CRun {
    pub shape: CShape,
    pub axes: [CAxis; MOST_AXES],
    pub set: CSettings,
    pub bonds: [CBond; MOST_AXES],
    pub figure: f64,
}

#[repr(C)]
#[derive(Clone, Copy)]
pub struct CRan {
    pub refusal: CRefusal,
    pub run: CRun,
}

impl From<CBond> for Bond {
    ghost from_gives = { λ b c. c ≡ bond_in b };

    fn from(b: CBond) -> Bond {
        Bond {
            rank: b.rank,
            sweeps: b.sweeps,
            settled: b.settled,
            dropped: b.dropped,
        }
    }
}

fn bonds_in(bs: &[CBond; MOST_AXES]) -> [Bond; MOST_AXES]
    ensures { result ≡ map bond_in bs.now }
{
    let mut list = [Bond {
        rank: 0,
        sweeps: 0,
        settled: false,
        dropped: 0.0,
    }; MOST_AXES];
    for k in 0..MOST_AXES {
        list[k] = bs[k].into();
    }
    list
}

impl From<CRun> for Run {
    ghost from_gives = { λ r w. w ≡ run_in r };

    fn from(r: CRun) -> Run {
        Run {
            shape: r.shape.into(),
            axes: axes_in(&r.axes),
            set: r.set.into(),
            bonds: bonds_in(&r.bonds),
            figure: r.figure,
        }
    }
}

impl From<Axis> for CAxis {
    ghost from_gives = { λ x y. y ≡ axis_out x };

    fn from(x: Axis) -> CAxis {
        CAxis {
            a: x.a,
            b: x.b,
            xmin: x.xmin,
            xmax: x.xmax,
            boundary: x.boundary,
        }
    }
}

fn axes_out(xs: &[Axis; MOST_AXES]) -> [CAxis; MOST_AXES]
    ensures { result ≡ map axis_out xs.now }
{
    let mut list = [CAxis {
        a: 0.0,
        b: 0.0,
        xmin: 0.0,
        xmax: 0.0,
        boundary: PERIODIC,
    }; MOST_AXES];
    for k in 0..MOST_AXES {
        list[k] = xs[k].into();
    }
    list
}

impl From<Cutting> for CCutting {
    ghost from_gives = { λ x y. y ≡ cutting_out x };

    fn from(x: Cutting) -> CCutting {
        CCutting {
            eps: x.eps,
            mode: x.mode,
        }
    }
}

impl From<Settings> for CSettings {
    ghost from_gives = { λ x y. y ≡ settings_out x };

    fn from(x: Settings) -> CSettings {
        CSettings {
            tau: x.tau,
            c: x.c,
            cutting: x.cutting.into(),
        }
    }
}

impl From<Run> for CRun {
    ghost from_gives = { λ r w. w ≡ run_out r };

    fn from(r: Run) -> CRun {
        CRun {
            shape: r.shape.into(),
            axes: axes_out(&r.axes),
            set: r.set.into(),
            bonds: bonds_out(&r.bonds),
            figure: r.figure,
        }
    }
}

pub fn ran_out(w: Ran) -> CRan
    ensures { result ≡ ran_out w }
{
    CRan {
        refusal: refusal_of(w.verdict),
        run: w.run.into(),
    }
}
