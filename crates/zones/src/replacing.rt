// A fresh run, and the replacement of one zone's core, weights or axis record.
ghost use Rattle.std.specs.Prelude.{map};
ghost use Rattle.runform.specs.Slices.{slices};
ghost use Rattle.runform.specs.Call.{fresh_call, replace_core_call, replace_weights_call, replace_axis_call};
ghost use Rattle.records.specs.Given.{shape_in, axis_in, settings_in};
ghost use Rattle.records.specs.Held.{run_in};
ghost use Rattle.zones.specs.Ends.{RunsAs};

use records::{given, held};

#[unsafe(no_mangle)]
pub extern "C" fn uyavsker_fresh_run(
    s: given::CShape,
    xs: given::CAxes,
    set: given::CSettings,
    source: &[f64],
    weights: &[f64],
    chain: &mut [f64],
    carries: &mut [f64],
    sums: &mut [f64],
    scratch: &mut [f64],
) -> held::CRan
    ensures { RunsAs (fresh_call (shape_in s) (map axis_in xs.axis) (settings_in set)
        (slices source.now weights.now chain.old carries.old sums.old) scratch.old)
        result (slices source.now weights.now chain.new carries.new sums.new) scratch.new }
{
    held::ran_out(runs::fresh_run(
        s.into(),
        xs.into(),
        set.into(),
        source,
        weights,
        chain,
        carries,
        sums,
        scratch,
    ))
}

#[unsafe(no_mangle)]
pub extern "C" fn uyavsker_replace_core(
    r: held::CRun,
    z: usize,
    source: &mut [f64],
    weights: &[f64],
    chain: &mut [f64],
    carries: &mut [f64],
    sums: &mut [f64],
    part: &[f64],
    scratch: &mut [f64],
) -> held::CRan
    ensures { RunsAs (replace_core_call (run_in r) z
        (slices source.old weights.now chain.old carries.old sums.old)
        part.now scratch.old)
        result (slices source.new weights.now chain.new carries.new sums.new) scratch.new }
{
    held::ran_out(runs::replace_core(
        r.into(),
        z,
        source,
        weights,
        chain,
        carries,
        sums,
        part,
        scratch,
    ))
}

#[unsafe(no_mangle)]
pub extern "C" fn uyavsker_replace_weights(
    r: held::CRun,
    z: usize,
    source: &[f64],
    weights: &mut [f64],
    chain: &[f64],
    carries: &[f64],
    sums: &mut [f64],
    part: &[f64],
    scratch: &mut [f64],
) -> held::CRan
    ensures { RunsAs (replace_weights_call (run_in r) z
        (slices source.now weights.old chain.now carries.now sums.old)
        part.now scratch.old)
        result (slices source.now weights.new chain.now carries.now sums.new) scratch.new }
{
    held::ran_out(runs::replace_weights(
        r.into(),
        z,
        source,
        weights,
        chain,
        carries,
        sums,
        part,
        scratch,
    ))
}

#[unsafe(no_mangle)]
pub extern "C" fn uyavsker_replace_axis(
    r: held::CRun,
    z: usize,
    x: given::CAxis,
    source: &[f64],
    weights: &[f64],
    chain: &mut [f64],
    carries: &mut [f64],
    sums: &mut [f64],
    scratch: &mut [f64],
) -> held::CRan
    ensures { RunsAs (replace_axis_call (run_in r) z (axis_in x)
        (slices source.now weights.now chain.old carries.old sums.old)
        scratch.old)
        result (slices source.now weights.now chain.new carries.new sums.new) scratch.new }
{
    held::ran_out(runs::replace_axis(
        r.into(),
        z,
        x.into(),
        source,
        weights,
        chain,
        carries,
        sums,
        scratch,
    ))
}
