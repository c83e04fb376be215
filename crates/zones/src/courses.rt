// A step, and steps one after another. The axis records come by value, with how many of them are lent.
ghost use Rattle.stepform.specs.Call.{step_call, evolve_call};
ghost use Rattle.records.specs.Given.{shape_in, lent_of, cutting_in, settings_in};
ghost use Rattle.zones.specs.Ends.{EndsAs};

use records::{given, told};

#[unsafe(no_mangle)]
pub extern "C" fn uyavsker_step(
    s: given::CShape,
    set: given::CSettings,
    xs: given::CAxes,
    count: usize,
    chain: &mut [f64],
    scratch: &mut [f64],
) -> told::CRounded
    ensures { EndsAs (step_call (settings_in set) (shape_in s) (lent_of count xs.axis)
        chain.old scratch.old) result chain.new scratch.new }
{
    let list = xs.lent(count);
    told::rounded_out(evolution::step_over(s.into(), set.into(), list, count, chain, scratch))
}

#[unsafe(no_mangle)]
pub extern "C" fn uyavsker_evolve(
    s: given::CShape,
    p: given::CCourse,
    xs: given::CAxes,
    count: usize,
    chain: &mut [f64],
    scratch: &mut [f64],
) -> told::CRounded
    ensures { EndsAs (evolve_call p.t_final p.steps p.c (cutting_in p.cutting) (shape_in s) (lent_of count xs.axis)
        chain.old scratch.old) result chain.new scratch.new }
{
    let list = xs.lent(count);
    told::rounded_out(evolution::evolve_over(s.into(), p.into(), list, count, chain, scratch))
}
