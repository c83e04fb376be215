// The calls `step` and `evolve`. Work is done in scratch, and the chain is written once, at the very end.
#![tactic(auto)]

ghost use Rattle.std.specs.Prelude.{◌≡◌, true, ℕ, ◌≤◌, ◌<◌, length, Ok};
ghost use Rattle.shape.specs.Shapes.{chain_ok, entries_of};
ghost use Rattle.shape.specs.Cores.{cores_of};
ghost use Rattle.cutform.specs.Call.{ended_as, ended_by};
ghost use Rattle.stepform.specs.Steps.{step, steps_of};
ghost use Rattle.stepform.specs.Lone.{most_steps, course_finite, course_ok};
ghost use Rattle.stepform.specs.Call.{axis_reaches, step_over, step_call, settings_for, evolve_over, evolve_call};
ghost use Rattle.evolution.specs.Held.{Answers};

use stepform::Course;

const MOST_STEPS: usize = 10000;

// One step, once the checks have passed.
fn work_once(
    s: shape::Shape,
    set: stepform::Settings,
    xs: [stepform::Axis; shape::MOST_AXES],
    chain: &mut [f64],
    scratch: &mut [f64],
) -> cutform::Rounded
    requires s_value { (chain_ok s ≡ Ok tt) × ((k : ℕ) → k < s.d → axis_reaches set s xs k ≡ true) }
    requires chain_len { (length chain.old ≡ entries_of s) × (entries_of s ≤ length scratch.old) }
    ensures { Answers (ended_by s chain.old scratch.old (step set xs (cores_of s chain.old)))
        result chain.new scratch.new }
{
    let w = steps::stepped_once(s, set, xs, chain, scratch);
    rounding::finish(s, w, chain, scratch)
}

// m steps, once the checks have passed.
fn work(
    m: usize,
    s: shape::Shape,
    set: stepform::Settings,
    xs: [stepform::Axis; shape::MOST_AXES],
    chain: &mut [f64],
    scratch: &mut [f64],
) -> cutform::Rounded
    requires s_value { (chain_ok s ≡ Ok tt) × ((k : ℕ) → k < s.d → axis_reaches set s xs k ≡ true) }
    requires chain_len { (length chain.old ≡ entries_of s) × (entries_of s ≤ length scratch.old) }
    ensures { Answers (ended_as s chain.old scratch.old (steps_of m set xs (cores_of s chain.old)))
        result chain.new scratch.new }
{
    let w = steps::stepped(m, s, set, xs, chain, scratch);
    rounding::finish(s, w, chain, scratch)
}

// One step, over records by value, of which `count` were lent.
#[tactic(auto, using(crate::proofs::Ends::over_passed))]
pub fn step_over(
    s: shape::Shape,
    set: stepform::Settings,
    xs: [stepform::Axis; shape::MOST_AXES],
    count: usize,
    chain: &mut [f64],
    scratch: &mut [f64],
) -> cutform::Rounded
    ensures { Answers (step_over set s count xs chain.old scratch.old) result chain.new scratch.new }
{
    let lone = checks::settings::lone_finite(set);
    let mild = checks::settings::lone_ok(set);
    match checks::settings::step_ok(lone, mild, set, s, count, xs, chain, scratch.len()) {
        Ok(()) => work_once(s, set, xs, chain, scratch),
        Err(q) => rounding::refused_rounding(q, s),
    }
}

// What 6 and 7 ask of the lone settings and the number of steps of a course.
#[tactic(auto, unfolding(stepform::specs::Lone::course_finite))]
fn course_finite(p: Course) -> bool
    ensures { result ≡ course_finite p.t_final p.c p.cutting }
{
    numbers::is_finite(p.t_final) && numbers::is_finite(p.c) && checks::cutting_finite(p.cutting)
}

#[tactic(auto, unfolding(stepform::specs::Lone::course_ok))]
fn course_mild(p: Course) -> bool
    ensures { result ≡ course_ok p.t_final p.steps p.cutting }
{
    checks::not_below_zero(p.t_final)
        && shape::within(MOST_STEPS, p.steps)
        && checks::cutting_ok(p.cutting)
}

// The settings of each step: tau = t_final/steps. Too many steps are refused before tau is asked for.
#[tactic(auto, unfolding(stepform::specs::Call::settings_for))]
fn course_settings(p: Course) -> stepform::Settings
    ensures { p.steps ≤ most_steps → result ≡ settings_for p.t_final p.steps p.c p.cutting }
{
    let tau = if MOST_STEPS < p.steps {
        0.0
    } else {
        p.t_final / p.steps as f64
    };
    stepform::Settings {
        tau,
        c: p.c,
        cutting: p.cutting,
    }
}

// All steps of a course, over records by value, of which `count` were lent.
#[tactic(auto, using(crate::proofs::Ends::over_passed))]
pub fn evolve_over(
    s: shape::Shape,
    p: Course,
    xs: [stepform::Axis; shape::MOST_AXES],
    count: usize,
    chain: &mut [f64],
    scratch: &mut [f64],
) -> cutform::Rounded
    ensures { Answers (evolve_over p.t_final p.steps p.c p.cutting s count xs chain.old scratch.old)
        result chain.new scratch.new }
{
    let lone = course_finite(p);
    let mild = course_mild(p);
    let set = course_settings(p);
    match checks::settings::step_ok(lone, mild, set, s, count, xs, chain, scratch.len()) {
        Ok(()) => work(p.steps, s, set, xs, chain, scratch),
        Err(q) => rounding::refused_rounding(q, s),
    }
}

// One step of a chain, with one record per axis.
pub fn step(
    s: shape::Shape,
    set: stepform::Settings,
    xs: &[stepform::Axis],
    chain: &mut [f64],
    scratch: &mut [f64],
) -> cutform::Rounded
    ensures { (result ≡ (step_call set s xs.now chain.old scratch.old).result)
        × (chain.new ≡ (step_call set s xs.now chain.old scratch.old).chain)
        × (scratch.new ≡ (step_call set s xs.now chain.old scratch.old).scratch) }
{
    step_over(s, set, axes::gather(xs), xs.len(), chain, scratch)
}

// All steps of a course; refused at a later step, the chain is that of before the first.
pub fn evolve(
    s: shape::Shape,
    p: Course,
    xs: &[stepform::Axis],
    chain: &mut [f64],
    scratch: &mut [f64],
) -> cutform::Rounded
    ensures { (result ≡ (evolve_call p.t_final p.steps p.c p.cutting s xs.now chain.old scratch.old).result)
        × (chain.new ≡ (evolve_call p.t_final p.steps p.c p.cutting s xs.now chain.old scratch.old).chain)
        × (scratch.new
        ≡ (evolve_call p.t_final p.steps p.c p.cutting s xs.now chain.old scratch.old).scratch) }
{
    evolve_over(s, p, axes::gather(xs), xs.len(), chain, scratch)
}
