// A plan of five zones: the fresh figure, then what a day replaces, each time with the figure and a fresh run beside it.
#![tactic(auto)]

mod inputs;
mod plans;
mod print;
mod reasons;
mod table;

use reasons::Told;
use std::io::Result;

// The plan so far, and whether it had the bits of a fresh run each time.
#[derive(Clone, Copy)]
struct State {
    plan: plans::Plan,
    same: bool,
}

// What an accepted call writes, from zone z to the last.
fn written(rt: &impl Print, what: &str, z: usize) -> Result<()> {
    println!(rt; "   written: {what} of zones {z} to {}", inputs::ZONES - 1)
}

// What became of the plan, and whether a fresh run has the same bits.
fn told(rt: &impl Print, before: bool, a: plans::Answer, what: &str, z: usize) -> Result<State> {
    match a.verdict {
        Ok(()) => written(rt, what, z)?,
        Err(q) => {
            println!(rt; "   refused with {}", Told(q))?;
            println!(rt; "   written: nothing")?;
        }
    }
    let plan = a.plan;
    print!(rt; "   ")?;
    print::figure(rt, plan.run.figure)?;
    let same = plans::as_fresh(plan);
    println!(rt; "   same bits as a fresh run: {}", print::yes(same))?;
    println!(rt; "")?;
    Ok(State {
        plan,
        same: before && same,
    })
}

fn morning(rt: &impl Print) -> Result<State> {
    println!(rt;
        "A heating plan of five zones in a row. A zone's load is one of a few points, and the weather ties"
    )?;
    println!(rt;
        "it to its neighbours: a rank counts the kinds of weather told apart, a kept rank those that rounding"
    )?;
    println!(rt;
        "leaves, and the largest dropped says how much the strongest of the others counts; sweeps are the work"
    )?;
    println!(rt;
        "of that, until it is settled. A weight is 1 where a load is within the pipe's limit, and less where"
    )?;
    println!(rt;
        "it is not. Loads that spread beyond an end of their axis come in again at the other end; Hospital's are"
    )?;
    println!(rt;
        "reflected. The figure is the chance that every zone is within its limit, a quarter of an hour on."
    )?;
    println!(rt; "")?;
    println!(rt; "The fresh run:")?;
    let a = plans::fresh(inputs::plan(inputs::MILLIONTH, cutform::ABSOLUTE));
    told(rt, true, a, "cores, carries and sums", 0)
}

fn wider_pipe(rt: &impl Print, now: State) -> Result<State> {
    println!(rt; "New weights for zone 3, Station: a wider pipe.")?;
    // its fifth load is within the limit
    let part = [1.0, 1.0, 1.0, 1.0, 1.0, 0.5];
    let a = plans::new_weights(now.plan, inputs::STATION, &part);
    told(rt, now.same, a, "sums alone,", inputs::STATION)
}

fn new_forecast(rt: &impl Print, now: State) -> Result<State> {
    println!(rt; "A new core for zone 1, Old Town: a new forecast.")?;
    let part = inputs::new_forecast();
    let a = plans::new_core(now.plan, inputs::OLD_TOWN, &part);
    told(rt, now.same, a, "cores, carries and sums", inputs::OLD_TOWN)
}

// A forecast so wild that its squares are too large: the zone's own Gram matrix is refused.
fn wild_forecast(rt: &impl Print, now: State) -> Result<State> {
    println!(rt; "A new core for zone 1, Old Town, with a slip of the pen: 0.024e200 for 0.024.")?;
    let mut part = inputs::new_forecast();
    part[1] = 0.024e200;
    let a = plans::new_core(now.plan, inputs::OLD_TOWN, &part);
    told(rt, now.same, a, "cores, carries and sums", inputs::OLD_TOWN)
}

// A weight so wild that a partial sum of its zone is too large.
fn wild_weights(rt: &impl Print, now: State) -> Result<State> {
    println!(rt; "New weights for zone 0, Harbour, far too large: 1.5e308 for three loads.")?;
    let part = [1.5e308, 1.5e308, 1.5e308, 0.5];
    let a = plans::new_weights(now.plan, inputs::HARBOUR, &part);
    told(rt, now.same, a, "sums alone,", inputs::HARBOUR)
}

fn new_record(rt: &impl Print, now: State, z: usize, x: stepform::Axis) -> Result<State> {
    let a = plans::new_axis(now.plan, z, x);
    told(rt, now.same, a, "cores, carries and sums", z)
}

// Insulation, first with a slip of the pen.
fn insulated(rt: &impl Print, now: State) -> Result<State> {
    println!(rt; "A new axis record for zone 2, Mill, with a slip of the pen: a = -0.01.")?;
    let slip = new_record(
        rt,
        now,
        inputs::MILL,
        inputs::axis(-0.01, stepform::PERIODIC),
    )?;
    println!(rt; "The same with a = 0.01: insulation, the loads spread less.")?;
    new_record(
        rt,
        slip,
        inputs::MILL,
        inputs::axis(0.01, stepform::PERIODIC),
    )
}

// An axis that reflects, first with a boundary that there isn't.
fn reflecting(rt: &impl Print, now: State) -> Result<State> {
    println!(rt; "A new axis record for zone 3, Station, with a boundary that isn't known: 2.")?;
    let slip = new_record(rt, now, inputs::STATION, inputs::axis(0.04, 2))?;
    println!(rt; "The same with 1: its loads are reflected too.")?;
    new_record(
        rt,
        slip,
        inputs::STATION,
        inputs::axis(0.04, stepform::REFLECTING),
    )
}

fn show(rt: &impl Print, now: State) -> Result<()> {
    table::zones(rt, now.plan.run)?;
    println!(rt; "")
}

// The morning's plan at another eps.
fn at_eps(rt: &impl Print, eps: f64) -> Result<()> {
    let a = plans::fresh(inputs::plan(eps, cutform::ABSOLUTE));
    table::at_eps(rt, eps, a.plan.run)
}

fn three_eps(rt: &impl Print) -> Result<()> {
    println!(rt;
        "The morning's plan at three values of eps: each bond's kept rank, and the largest value that it dropped."
    )?;
    println!(rt; "")?;
    println!(rt; "     eps      Harbour     Old Town         Mill      Station    chance")?;
    at_eps(rt, inputs::MILLIONTH)?;
    at_eps(rt, 0.2)?;
    at_eps(rt, 0.3)?;
    println!(rt; "")
}

// How many 10^-32 the chance is in rare weather, in one mode.
fn rare(rt: &impl Print, mode: usize) -> Result<()> {
    let a = plans::fresh(inputs::rare_plan(mode));
    print::small(rt, a.plan.run.figure * 1e32, 0)
}

fn both_modes(rt: &impl Print) -> Result<()> {
    print!(rt; "In weather of one chance in 10^32 the morning's chance, in 10^-32, is ")?;
    rare(rt, cutform::ABSOLUTE)?;
    print!(rt; " in absolute mode, ")?;
    rare(rt, cutform::SCALED)?;
    println!(rt; " in scaled mode.")?;
    println!(rt; "")
}

fn main(rt: HostRuntime) -> Result<()> {
    let a = morning(&rt)?;
    show(&rt, a)?;
    let b = wider_pipe(&rt, a)?;
    let c = wild_forecast(&rt, wild_weights(&rt, b)?)?;
    let d = new_forecast(&rt, c)?;
    let e = reflecting(&rt, insulated(&rt, d)?)?;
    println!(rt; "At the end of the day:")?;
    println!(rt; "")?;
    show(&rt, e)?;
    three_eps(&rt)?;
    both_modes(&rt)?;
    println!(rt;
        "Every run had the bits of a fresh run: {}",
        print::yes(e.same)
    )
}
