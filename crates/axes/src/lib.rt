// The settings of one axis, what is asked of them, and a record out of a lent list.
#![tactic(auto)]

ghost use Rattle.std.specs.Prelude.{◌≡◌, ◌<◌};
ghost use Rattle.shape.specs.Limits.{most_axes};
ghost use Rattle.stepform.specs.Boundaries.{boundary_ok};
ghost use Rattle.stepform.specs.Axes.{axis_finite, axis_ok, axis_at, gathered};

use stepform::Axis;

// Whether all four floats are finite.
#[tactic(auto, unfolding(stepform::specs::Axes::axis_finite))]
pub fn axis_finite(x: Axis) -> bool
    ensures { result ≡ axis_finite x }
{
    numbers::is_finite(x.a)
        && numbers::is_finite(x.b)
        && numbers::is_finite(x.xmin)
        && numbers::is_finite(x.xmax)
}

// Whether a boundary is known.
#[tactic(auto, unfolding(stepform::specs::Boundaries::boundary_ok))]
fn boundary_ok(boundary: usize) -> bool
    ensures { result ≡ boundary_ok boundary }
{
    boundary == stepform::PERIODIC || boundary == stepform::REFLECTING
}

// Whether a is not below zero, and the boundary known.
#[tactic(auto, unfolding(stepform::specs::Axes::axis_ok))]
pub fn axis_ok(x: Axis) -> bool
    ensures { result ≡ axis_ok x }
{
    !(x.a < 0.0) && boundary_ok(x.boundary)
}

// What stands where a list has no record.
pub const BLANK: Axis = Axis {
    a: 0.0,
    b: 0.0,
    xmin: 0.0,
    xmax: 0.0,
    boundary: stepform::PERIODIC,
};

// Record k of a lent list, or a blank past its end.
pub fn axis_at(xs: &[Axis], k: usize) -> Axis
    ensures { result ≡ axis_at xs.now k }
{
    xs.get(k).copied().unwrap_or(BLANK)
}

// The records of a lent list, by value: what it has, at most as many as a chain can have axes, and then blanks.
pub fn gather(xs: &[Axis]) -> [Axis; shape::MOST_AXES]
    ensures { result ≡ gathered xs.now }
{
    let mut list = [BLANK; shape::MOST_AXES];
    for k in 0..shape::MOST_AXES {
        list[k] = axis_at(xs, k);
    }
    list
}

// Record k of a list by value.
#[tactic(auto, using(lists::proofs::Tables::get_d_any))]
pub fn axis_in(list: [Axis; shape::MOST_AXES], k: usize) -> Axis
    requires { k < most_axes }
    ensures { result ≡ axis_at list k }
{
    list[k]
}
