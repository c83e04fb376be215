// The shift of one core along its axis, and the scaling of core 0.
#![tactic(auto)]

pub mod bands;
pub mod blocks;

ghost use Rattle.std.specs.Prelude.{◌≡◌, true, ◌+◌, ◌*◌, ◌<◌, ◌≤◌, map, length, Float};
ghost use Rattle.numbers.specs.Arithmetic.{times};
ghost use Rattle.numbers.specs.Whole.{in_reach};
ghost use Rattle.answers.specs.Outcome.{answered};
ghost use Rattle.lists.specs.Lists.{tab};
ghost use Rattle.shape.specs.Limits.{most_points};
ghost use Rattle.shape.specs.Cores.{core_with};
ghost use Rattle.stepform.specs.Shifts.{distance, spacing, shift_of, reaches, shifted, move_core, scaled};
ghost use Rattle.shift.specs.Unrolled.{Lent, period, blocks_of};
ghost use Rattle.shift.specs.Starts.{StartRoom, entry_in};

use stepform::Shift;

// How far a step goes along the axis.
#[tactic(auto, unfolding(stepform::specs::Shifts::distance))]
pub fn distance(x: stepform::Axis, tau: f64) -> f64
    ensures { result ≡ distance x tau }
{
    let width = numbers::root(x.a * tau);
    2.0 * width + x.b * tau
}

// How far apart the points of the axis lie.
#[tactic(auto, unfolding(stepform::specs::Shifts::spacing, lists::specs::Lists::pick))]
pub fn spacing(x: stepform::Axis, n: usize) -> f64
    requires { n ≤ most_points }
    ensures { result ≡ spacing x n }
{
    if n <= 1 {
        return 1.0;
    }
    (x.xmax - x.xmin) / (n - 1) as f64
}

// What a step does to the core of an axis of n points.
#[tactic(auto, unfolding(stepform::specs::Shifts::shift_of, lists::specs::Lists::pick))]
pub fn shift_of(x: stepform::Axis, tau: f64, n: usize) -> Shift
    requires { n ≤ most_points }
    ensures { result ≡ shift_of x tau n }
{
    let h = distance(x, tau);
    let dx = spacing(x, n);
    if dx <= 0.0 || h == 0.0 {
        return Shift::Stay;
    }
    Shift::By(h / dx, x.boundary)
}

// Whether the shift is near enough to be made.
pub fn reaches(s: Shift) -> bool
    ensures { result ≡ reaches s }
{
    match s {
        Shift::Stay => true,
        Shift::By(ratio, _) => numbers::in_reach(ratio),
    }
}

// A block, shifted; t is the block, written on.
#[tactic(auto, using(lists::proofs::Turns::turns, lists::proofs::Over::tabs, crate::proofs::Starts::rooms))]
fn shift_block(
    t: &[f64],
    forward: &[f64; 4],
    ahead: &[usize; 4],
    backward: &[f64; 4],
    behind: &[usize; 4],
    out: &mut [f64],
)
    requires { (length out.old ≤ length t.now) × StartRoom ahead.now (length out.old) (length t.now)
        × StartRoom behind.now (length out.old) (length t.now) }
    ensures { out.new
        ≡ tab (length out.old)
        (entry_in t.now forward.now ahead.now backward.now behind.now) }
{
    for j in 0..out.len() {
        out[j] = bands::entry_at(t, j, forward, ahead, backward, behind);
    }
}

// rl blocks of n rows of rr numbers, each shifted; t has room for one of them, written on.
#[tactic(auto, using(crate::proofs::Around::rows), unfolding(crate::specs::Unrolled::blocks_of))]
fn shift_blocks(
    core: &[f64],
    rl: usize,
    n: usize,
    rr: usize,
    boundary: usize,
    forward: &[f64; 4],
    ahead: &[usize; 4],
    backward: &[f64; 4],
    behind: &[usize; 4],
    out: &mut [f64],
    t: &mut [f64],
)
    requires { (length core.now ≡ rl * (n * rr)) × (length out.old ≡ rl * (n * rr)) × (length t.old ≡ (period boundary n + n) * rr)
        × StartRoom ahead.now (n * rr) (length t.old) × StartRoom behind.now (n * rr) (length t.old) × (1 ≤ n) }
    ensures { out.new
        ≡ blocks_of boundary core.now rl n rr forward.now ahead.now backward.now behind.now }
{
    let h = n * rr;
    for k in 0..rl {
        let b = k * h;
        let e = b + h;
        blocks::unroll(&core[b..e], n, rr, boundary, t);
        shift_block(t, forward, ahead, backward, behind, &mut out[b..e]);
    }
}

// A core of rl blocks of n rows of rr numbers, shifted along its rows; block has room for one of its blocks three times.
pub fn shift_core(
    core: &[f64],
    rl: usize,
    n: usize,
    rr: usize,
    ratio: f64,
    boundary: usize,
    out: &mut [f64],
    block: &mut [f64],
)
    requires { Lent core.now rl n rr out.old block.old × (in_reach ratio ≡ true) }
    ensures { out.new ≡ shifted (core_with rl n rr core.now) ratio boundary }
{
    let forward = bands::weights_of(ratio);
    let backward = bands::weights_of(-ratio);
    let period = blocks::period(boundary, n);
    let ahead = bands::starts_of(ratio, period, rr);
    let behind = bands::starts_of(-ratio, period, rr);
    let room = (period + n) * rr;
    shift_blocks(
        core,
        rl,
        n,
        rr,
        boundary,
        &forward,
        &ahead,
        &backward,
        &behind,
        out,
        &mut block[..room],
    );
}

// Core k along its axis, into out; one that stays is copied.
#[tactic(auto, using(crate::proofs::Stored::entries_stored), unfolding(answers::specs::Outcome::answered))]
pub fn move_core(
    core: &[f64],
    k: usize,
    rl: usize,
    n: usize,
    rr: usize,
    shift: Shift,
    out: &mut [f64],
    block: &mut [f64],
) -> Result<(), answers::Refusal>
    requires { Lent core.now rl n rr out.old block.old × (reaches shift ≡ true) }
    ensures { move_core k shift (core_with rl n rr core.now) ≡ answered result out.new }
{
    match shift {
        Shift::Stay => {
            lists::copy(core, out);
            Ok(())
        }
        Shift::By(ratio, boundary) => {
            shift_core(core, rl, n, rr, ratio, boundary, out, block);
            answers::stored_in(lists::stored(out), answers::Part::Entry, k)
        }
    }
}

// Every number times a factor.
fn multiply(s: &mut [f64], factor: f64)
    ensures { s.new ≡ map (λ (v : Float). times v factor) s.old }
{
    for v in s.iter_mut() {
        *v *= factor;
    }
}

// Core 0 times 1 + tau*c.
#[tactic(auto, using(crate::proofs::Stored::entries_stored), unfolding(stepform::specs::Shifts::scaled))]
pub fn scale(core: &mut [f64], tau: f64, c: f64) -> Result<(), answers::Refusal>
    ensures { scaled tau c core.old ≡ answered result core.new }
{
    multiply(core, 1.0 + tau * c);
    answers::stored_in(lists::stored(core), answers::Part::Entry, 0)
}
