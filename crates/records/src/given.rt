// What goes into a call.
ghost use Rattle.std.specs.Prelude.{◌≡◌, ◌<◌, map};
ghost use Rattle.shape.specs.Limits.{most_axes};
ghost use Rattle.stepform.specs.Axes.{axis_at, gathered};
ghost use Rattle.records.specs.Given.{shape_in, axis_in, lent_of, cutting_in, settings_in, course_in, sizes_in};

use cutform::Cutting;
use pairform::Sizes;
use shape::{MOST_AXES, Shape};
use stepform::{Axis, Course, PERIODIC, Settings};

// d cores; core k has the sizes left[k], n[k], right[k].
#[repr(C)]
#[derive(Clone, Copy)]
pub struct CShape {
    pub d: usize,
    pub left: [usize; MOST_AXES],
    pub n: [usize; MOST_AXES],
    pub right: [usize; MOST_AXES],
}

// The settings of one axis.
#[repr(C)]
#[derive(Clone, Copy)]
pub struct CAxis {
    pub a: f64,
    pub b: f64,
    pub xmin: f64,
    pub xmax: f64,
    pub boundary: usize,
}

// Room for the records of as many axes as a chain can have.
#[repr(C)]
#[derive(Clone, Copy)]
pub struct CAxes {
    pub axis: [CAxis; MOST_AXES],
}

// How a cut is made.
#[repr(C)]
#[derive(Clone, Copy)]
pub struct CCutting {
    pub eps: f64,
    pub mode: usize,
}

// The lone settings of a step.
#[repr(C)]
#[derive(Clone, Copy)]
pub struct CSettings {
    pub tau: f64,
    pub c: f64,
    pub cutting: CCutting,
}

// Steps one after another: how far, in how many, and the lone settings of each.
#[repr(C)]
#[derive(Clone, Copy)]
pub struct CCourse {
    pub t_final: f64,
    pub steps: usize,
    pub c: f64,
    pub cutting: CCutting,
}

// The sizes of one core.
#[repr(C)]
#[derive(Clone, Copy)]
pub struct CSizes {
    pub left: usize,
    pub n: usize,
    pub right: usize,
}

impl From<CShape> for Shape {
    ghost from_gives = { λ s t. t ≡ shape_in s };

    fn from(s: CShape) -> Shape {
        let CShape { d, left, n, right } = s;
        Shape { d, left, n, right }
    }
}

impl From<CAxis> for Axis {
    ghost from_gives = { λ x y. y ≡ axis_in x };

    fn from(x: CAxis) -> Axis {
        Axis {
            a: x.a,
            b: x.b,
            xmin: x.xmin,
            xmax: x.xmax,
            boundary: x.boundary,
        }
    }
}

impl From<CCutting> for Cutting {
    ghost from_gives = { λ x y. y ≡ cutting_in x };

    fn from(x: CCutting) -> Cutting {
        Cutting {
            eps: x.eps,
            mode: x.mode,
        }
    }
}

impl From<CSettings> for Settings {
    ghost from_gives = { λ x y. y ≡ settings_in x };

    fn from(x: CSettings) -> Settings {
        Settings {
            tau: x.tau,
            c: x.c,
            cutting: x.cutting.into(),
        }
    }
}

impl From<CCourse> for Course {
    ghost from_gives = { λ x y. y ≡ course_in x };

    fn from(x: CCourse) -> Course {
        Course {
            t_final: x.t_final,
            steps: x.steps,
            c: x.c,
            cutting: x.cutting.into(),
        }
    }
}

impl From<CSizes> for Sizes {
    ghost from_gives = { λ x y. y ≡ sizes_in x };

    fn from(x: CSizes) -> Sizes {
        Sizes {
            rl: x.left,
            n: x.n,
            rr: x.right,
        }
    }
}

// What stands in a list before its records do.
const BLANK: Axis = Axis {
    a: 0.0,
    b: 0.0,
    xmin: 0.0,
    xmax: 0.0,
    boundary: PERIODIC,
};

// All of them, one after another: an array's `map` moves each several times.
pub(crate) fn axes_in(xs: &[CAxis; MOST_AXES]) -> [Axis; MOST_AXES]
    ensures { result ≡ map axis_in xs.now }
{
    let mut list = [BLANK; MOST_AXES];
    for k in 0..MOST_AXES {
        list[k] = xs[k].into();
    }
    list
}

impl From<CAxes> for [Axis; MOST_AXES] {
    ghost from_gives = { λ xs ys. ys ≡ map axis_in xs.axis };

    fn from(xs: CAxes) -> [Axis; MOST_AXES] {
        axes_in(&xs.axis)
    }
}

impl CAxes {
    // The record of axis k, where it is among the first `count`; else a blank.
    fn lent_at(&self, count: usize, k: usize) -> Axis
        requires { k < most_axes }
        ensures { result ≡ axis_at (lent_of count self.now.axis) k }
    {
        if k < count {
            return self.axis[k].into();
        }
        BLANK
    }

    // The first `count` records as a list that was lent, gathered.
    pub fn lent(&self, count: usize) -> [Axis; MOST_AXES]
        ensures { result ≡ gathered (lent_of count self.now.axis) }
    {
        let mut list = [BLANK; MOST_AXES];
        for k in 0..MOST_AXES {
            list[k] = self.lent_at(count, k);
        }
        list
    }
}
