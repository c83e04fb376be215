// What a step or an evolve asks before it works. The axis records come by value, with the number of those that were lent.
ghost use Rattle.std.specs.Prelude.{◌≡◌, ℕ, ◌≤◌, ◌<◌, length};
ghost use Rattle.lists.specs.Lists.{first_not};
ghost use Rattle.shape.specs.Limits.{most_axes};
ghost use Rattle.shape.specs.Shapes.{entries_of};
ghost use Rattle.shape.specs.Sizes.{PointsWithin, SizesWithin};
ghost use Rattle.stepform.specs.Axes.{axis_finite, axis_ok, axis_at};
ghost use Rattle.stepform.specs.Lone.{lone_finite, lone_ok};
ghost use Rattle.stepform.specs.Call.{axis_reaches, zones_finite, settings_ok, step_ok};

// What 6 asks of the lone settings.
#[tactic(auto, unfolding(stepform::specs::Lone::lone_finite))]
pub fn lone_finite(set: stepform::Settings) -> bool
    ensures { result ≡ lone_finite set }
{
    numbers::is_finite(set.tau) && numbers::is_finite(set.c) && crate::cutting_finite(set.cutting)
}

// What 7 asks of them.
#[tactic(auto, unfolding(stepform::specs::Lone::lone_ok))]
pub fn lone_ok(set: stepform::Settings) -> bool
    ensures { result ≡ lone_ok set }
{
    crate::not_below_zero(set.tau) && crate::cutting_ok(set.cutting)
}

// The first axis with a number that isn't finite, or d.
#[tactic(auto, using(crate::proofs::StepVerdicts::axes_passing))]
pub fn first_not_finite(d: usize, xs: [stepform::Axis; shape::MOST_AXES]) -> usize
    requires { d ≤ most_axes }
    ensures { result ≡ first_not (λ (k : ℕ). axis_finite (axis_at xs k)) d }
{
    for k in 0..d {
        if !axes::axis_finite(axes::axis_in(xs, k)) {
            return k;
        }
    }
    d
}

// The first axis whose a is below zero or whose boundary isn't known, or d.
#[tactic(auto, using(crate::proofs::StepVerdicts::axes_passing))]
pub fn first_out_of_order(d: usize, xs: [stepform::Axis; shape::MOST_AXES]) -> usize
    requires { d ≤ most_axes }
    ensures { result ≡ first_not (λ (k : ℕ). axis_ok (axis_at xs k)) d }
{
    for k in 0..d {
        if !axes::axis_ok(axes::axis_in(xs, k)) {
            return k;
        }
    }
    d
}

// Whether the core of axis k stays or its shift is near enough.
#[tactic(auto, using(crate::proofs::StepVerdicts::reaches_found))]
pub fn axis_reaches(
    set: stepform::Settings,
    s: shape::Shape,
    xs: [stepform::Axis; shape::MOST_AXES],
    k: usize,
) -> bool
    requires points_within { PointsWithin s }
    requires k_lt_d { k < s.d }
    ensures { result ≡ axis_reaches set s xs k }
{
    shift::reaches(shift::shift_of(axes::axis_in(xs, k), set.tau, s.n[k]))
}

// Refusal 6: the first core or axis with a number that isn't finite.
#[tactic(auto, using(crate::proofs::StepVerdicts::least_found))]
fn zones_finite(
    s: shape::Shape,
    xs: [stepform::Axis; shape::MOST_AXES],
    chain: &[f64],
) -> Result<(), answers::Refusal>
    requires sizes_within { SizesWithin s }
    requires s_in_bounds { entries_of s ≤ length chain.now }
    ensures { result ≡ zones_finite s xs chain.now }
{
    let core = s.first_not_finite_core(chain);
    let axis = first_not_finite(s.d, xs);
    let first = core.min(axis);
    if first < s.d {
        return Err(answers::Refusal::Number(first));
    }
    Ok(())
}

// Refusals 7 and 8.
#[tactic(auto, using(crate::proofs::Verdicts::in_a_row, lists::proofs::Demands::passing), unfolding(stepform::specs::Call::settings_ok))]
fn settings_ok(
    mild: bool,
    set: stepform::Settings,
    s: shape::Shape,
    xs: [stepform::Axis; shape::MOST_AXES],
) -> Result<(), answers::Refusal>
    requires { PointsWithin s }
    ensures { result ≡ settings_ok mild set s xs }
{
    if !mild {
        return Err(answers::Refusal::Setting(0));
    }
    let record = first_out_of_order(s.d, xs);
    if record < s.d {
        return Err(answers::Refusal::Setting(record));
    }
    for k in 0..s.d {
        if !axis_reaches(set, s, xs, k) {
            return Err(answers::Refusal::Reach(k));
        }
    }
    Ok(())
}

// All that a step asks. `lone` and `mild` are what 6 and 7 ask of the lone settings.
#[tactic(auto, using(crate::proofs::Verdicts::in_a_row), unfolding(stepform::specs::Call::step_ok))]
pub fn step_ok(
    lone: bool,
    mild: bool,
    set: stepform::Settings,
    s: shape::Shape,
    count: usize,
    xs: [stepform::Axis; shape::MOST_AXES],
    chain: &[f64],
    scratch: usize,
) -> Result<(), answers::Refusal>
    ensures { result ≡ step_ok lone mild set s count xs chain.now scratch }
{
    s.check()?;
    if count != s.d {
        return Err(answers::Refusal::Length(0));
    }
    crate::lengths_ok(s, 1, chain.len(), 2, scratch)?;
    if !lone {
        return Err(answers::Refusal::Number(0));
    }
    zones_finite(s, xs, chain)?;
    settings_ok(mild, set, s, xs)
}
