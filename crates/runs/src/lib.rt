// A kept run: the fresh one, and the replacement of one zone's core, weights or axis record.
#![tactic(auto)]

ghost use Rattle.std.specs.Prelude.{◌≡◌, ◌<◌};
ghost use Rattle.shape.specs.Limits.{most_axes};
ghost use Rattle.runform.specs.Slices.{slices};
ghost use Rattle.runform.specs.Kept.{blank_run};
ghost use Rattle.runform.specs.Call.{fresh_call, replace_core_call, replace_axis_call, replace_weights_call};
ghost use Rattle.runs.specs.Ended.{axis_run};

// A run that keeps nothing yet.
fn blank_run(
    s: shape::Shape,
    xs: [stepform::Axis; shape::MOST_AXES],
    set: stepform::Settings,
) -> runform::Run
    ensures { result ≡ blank_run s xs set }
{
    let none = bond::no_bond();
    runform::Run {
        shape: s,
        axes: xs,
        set,
        bonds: [none; shape::MOST_AXES],
        figure: 0.0,
    }
}

// A fresh run: one step of the source, then its inner product with the weights.
pub fn fresh_run(
    s: shape::Shape,
    xs: [stepform::Axis; shape::MOST_AXES],
    set: stepform::Settings,
    source: &[f64],
    weights: &[f64],
    chain: &mut [f64],
    carries: &mut [f64],
    sums: &mut [f64],
    scratch: &mut [f64],
) -> runform::Ran
    ensures { record {
      result = result;
      slices = slices source.now weights.now chain.new carries.new sums.new;
      scratch = scratch.new;
    }
        ≡ fresh_call s xs set (slices source.now weights.now chain.old carries.old sums.old)
        scratch.old }
{
    let r = blank_run(s, xs, set);
    if let Err(q) = run_checks::calls::fresh_ok(
        s,
        xs,
        set,
        source,
        weights,
        chain.len(),
        carries.len(),
        sums.len(),
        scratch.len(),
    ) {
        return run_work::refused(q, r);
    }
    run_work::renewal::take_sources(0, s, source, scratch);
    run_work::renewal::renew(0, r, weights, chain, carries, sums, scratch)
}

// A new core for zone z: the step and the sums from z on are made anew.
pub fn replace_core(
    r: runform::Run,
    z: usize,
    source: &mut [f64],
    weights: &[f64],
    chain: &mut [f64],
    carries: &mut [f64],
    sums: &mut [f64],
    part: &[f64],
    scratch: &mut [f64],
) -> runform::Ran
    ensures { record {
      result = result;
      slices = slices source.new weights.now chain.new carries.new sums.new;
      scratch = scratch.new;
    }
        ≡ replace_core_call r z (slices source.old weights.now chain.old carries.old sums.old)
        part.now scratch.old }
{
    if let Err(q) = run_checks::calls::core_ok(
        r,
        z,
        source,
        weights,
        chain,
        carries,
        sums,
        part,
        scratch.len(),
    ) {
        return run_work::refused(q, r);
    }
    let s = r.shape;
    run_work::renewal::take_core(z, s, source, part, scratch);
    let ran = run_work::renewal::renew(z, r, weights, chain, carries, sums, scratch);
    if let Err(_) = ran.verdict {
        return ran;
    }
    run_work::renewal::put_core(z, s, part, source);
    ran
}

// The run with a new record for axis z.
fn with_axis(mut r: runform::Run, z: usize, x: stepform::Axis) -> runform::Run
    requires { z < most_axes }
    ensures { result ≡ axis_run r z x }
{
    let mut xs = r.axes;
    xs[z] = x;
    r.axes = xs;
    r
}

// A new axis record for zone z: the step and the sums from z on are made anew.
pub fn replace_axis(
    r: runform::Run,
    z: usize,
    x: stepform::Axis,
    source: &[f64],
    weights: &[f64],
    chain: &mut [f64],
    carries: &mut [f64],
    sums: &mut [f64],
    scratch: &mut [f64],
) -> runform::Ran
    ensures { record {
      result = result;
      slices = slices source.now weights.now chain.new carries.new sums.new;
      scratch = scratch.new;
    }
        ≡ replace_axis_call r z x (slices source.now weights.now chain.old carries.old sums.old)
        scratch.old }
{
    if let Err(q) = run_checks::new_axis::axis_ok(
        r,
        z,
        x,
        source,
        weights,
        chain,
        carries,
        sums,
        scratch.len(),
    ) {
        return run_work::refused(q, r);
    }
    let s = r.shape;
    run_work::renewal::take_sources(z, s, source, scratch);
    let anew = with_axis(r, z, x);
    let ran = run_work::renewal::renew(z, anew, weights, chain, carries, sums, scratch);
    if let Err(q) = ran.verdict {
        return run_work::refused(q, r);
    }
    ran
}

// New weights for zone z: the sums from z on and the figure are made anew, and nothing is rounded.
pub fn replace_weights(
    r: runform::Run,
    z: usize,
    source: &[f64],
    weights: &mut [f64],
    chain: &[f64],
    carries: &[f64],
    sums: &mut [f64],
    part: &[f64],
    scratch: &mut [f64],
) -> runform::Ran
    ensures { record {
      result = result;
      slices = slices source.now weights.new chain.now carries.now sums.new;
      scratch = scratch.new;
    }
        ≡ replace_weights_call r z (slices source.now weights.old chain.now carries.now sums.old)
        part.now scratch.old }
{
    if let Err(q) = run_checks::calls::weights_ok(
        r,
        z,
        source,
        weights,
        chain,
        carries,
        sums,
        part,
        scratch.len(),
    ) {
        return run_work::refused(q, r);
    }
    let ran = run_work::weights::resummed(r, z, weights, chain, sums, part);
    lists::fill(scratch, 0.0);
    ran
}
