// A step of the zones from any one on, in place, and steps one after another over a whole chain.
#![tactic(auto)]

pub mod moves;
pub mod shifts;

ghost use Rattle.std.specs.Prelude.{◌≡◌, true, ℕ, ◌≤◌, ◌<◌, length, Ok};
ghost use Rattle.std.specs.Result.{IfOk};
ghost use Rattle.answers.specs.Outcome.{outcome_of};
ghost use Rattle.lists.specs.Lists.{tab};
ghost use Rattle.shape.specs.Shapes.{chain_ok, entries_of};
ghost use Rattle.shape.specs.Sizes.{Inside};
ghost use Rattle.shape.specs.Cores.{standing, cores_of};
ghost use Rattle.cuts.specs.declared.Walked.{Walked};
ghost use Rattle.cuts.specs.Slots.{AtZone, held_by};
ghost use Rattle.stepform.specs.Steps.{greater, further_bond, further, steps_of};
ghost use Rattle.stepform.specs.Call.{axis_reaches};
ghost use Rattle.checks.specs.Over.{Stands, Rooms};
ghost use Rattle.steps.specs.Held.{step_held, step_of, Came, Placed, Ready};

// A step of the zones from z on, from what w holds left of z: shifts, scaling, rounding.
pub fn step_from(
    z: usize,
    s: shape::Shape,
    w: cuts::Walked,
    set: stepform::Settings,
    xs: [stepform::Axis; shape::MOST_AXES],
    work: &mut [f64],
    carries: &mut [f64],
    room: &mut [f64],
    block: &mut [f64],
) -> Result<cuts::Walked, answers::Refusal>
    requires stands { (Stands s w.shape work.old) × (Rooms room.old block.old) }
    requires z_le_d { (z ≤ s.d) × ((k : ℕ) → z ≤ k → k < s.d → axis_reaches set s xs k ≡ true) }
    requires at_zone { AtZone s z z w.shape (held_by w work.old carries.old) }
    ensures { (step_held set s z xs w.shape (held_by w work.old carries.old)
        ≡ outcome_of result (λ (x : Walked). (x.shape, held_by x work.new carries.new))) × (z ≡ 0 → IfOk result (λ (x : Walked). Inside s x.shape)) }
{
    let t = w.shape;
    shifts::move_from(z, s, t, set, xs, work, room, block)?;
    cuts::round_from(z, s, w, set.cutting, work, carries, room)
}

// A step of a whole chain of shape t.
fn one_step(
    s: shape::Shape,
    t: shape::Shape,
    set: stepform::Settings,
    xs: [stepform::Axis; shape::MOST_AXES],
    work: &mut [f64],
    carries: &mut [f64],
    room: &mut [f64],
    block: &mut [f64],
) -> Result<cuts::Walked, answers::Refusal>
    requires ready { Ready set s xs carries.old room.old block.old }
    requires placed { Placed s t work.old }
    ensures { Came (step_of set xs (tab s.d (standing s t work.old))) s t result work.new }
{
    step_from(
        0,
        s,
        cuts::unrounded(t),
        set,
        xs,
        work,
        carries,
        room,
        block,
    )
}

// The greater of two numbers, the first where neither is.
#[tactic(auto, unfolding(stepform::specs::Steps::greater, lists::specs::Lists::pick))]
fn greater(x: f64, y: f64) -> f64
    ensures { result ≡ greater x y }
{
    if x < y { y } else { x }
}

// What is said of a bond after a further step: that step's own, and the greatest value that was dropped so far.
#[tactic(auto, unfolding(stepform::specs::Steps::further_bond))]
fn further_bond(said: cutform::Bond, b: cutform::Bond) -> cutform::Bond
    ensures { result ≡ further_bond said b }
{
    cutform::Bond {
        rank: b.rank,
        sweeps: b.sweeps,
        settled: b.settled,
        dropped: greater(said.dropped, b.dropped),
    }
}

// The same of all bonds.
fn further(
    said: [cutform::Bond; shape::MOST_AXES],
    bonds: [cutform::Bond; shape::MOST_AXES],
) -> [cutform::Bond; shape::MOST_AXES]
    ensures { result ≡ further said bonds }
{
    std::array::from_fn(|k| further_bond(said[k], bonds[k]))
}

// m steps, each from the chain that the last one left.
fn steps_in(
    m: usize,
    s: shape::Shape,
    set: stepform::Settings,
    xs: [stepform::Axis; shape::MOST_AXES],
    work: &mut [f64],
    carries: &mut [f64],
    room: &mut [f64],
    block: &mut [f64],
) -> Result<cuts::Walked, answers::Refusal>
    requires ready { Ready set s xs carries.old room.old block.old }
    requires placed { Placed s s work.old }
    ensures { Came (steps_of m set xs (tab s.d (standing s s work.old))) s s result work.new }
{
    let mut t = s;
    let mut said = [bond::no_bond(); shape::MOST_AXES];
    for _ in 0..m {
        let w = one_step(s, t, set, xs, work, carries, room, block)?;
        t = w.shape;
        // An array that a call gives is proved only through a variable of its own.
        let more = further(said, w.bonds);
        said = more;
    }
    Ok(cuts::Walked {
        shape: t,
        bonds: said,
    })
}

// The chain taken into scratch, then m steps of it there.
pub fn stepped(
    m: usize,
    s: shape::Shape,
    set: stepform::Settings,
    xs: [stepform::Axis; shape::MOST_AXES],
    chain: &[f64],
    scratch: &mut [f64],
) -> Result<cuts::Walked, answers::Refusal>
    requires s_value { (chain_ok s ≡ Ok tt) × ((k : ℕ) → k < s.d → axis_reaches set s xs k ≡ true) }
    requires chain_len { (length chain.now ≡ entries_of s) × (entries_of s ≤ length scratch.old) }
    ensures { Came (steps_of m set xs (cores_of s chain.now)) s s result scratch.new }
{
    let mut carries = [0.0; shape::MOST_CARRIES];
    let mut room = [0.0; shape::MOST_CORE];
    let mut block = [0.0; shape::MOST_BLOCK];
    let entries = chain.len();
    lists::copy(chain, &mut scratch[0..entries]);
    steps_in(m, s, set, xs, scratch, &mut carries, &mut room, &mut block)
}

// The same for one step alone.
pub fn stepped_once(
    s: shape::Shape,
    set: stepform::Settings,
    xs: [stepform::Axis; shape::MOST_AXES],
    chain: &[f64],
    scratch: &mut [f64],
) -> Result<cuts::Walked, answers::Refusal>
    requires s_value { (chain_ok s ≡ Ok tt) × ((k : ℕ) → k < s.d → axis_reaches set s xs k ≡ true) }
    requires chain_len { (length chain.now ≡ entries_of s) × (entries_of s ≤ length scratch.old) }
    ensures { Came (step_of set xs (cores_of s chain.now)) s s result scratch.new }
{
    let mut carries = [0.0; shape::MOST_CARRIES];
    let mut room = [0.0; shape::MOST_CORE];
    let mut block = [0.0; shape::MOST_BLOCK];
    let entries = chain.len();
    lists::copy(chain, &mut scratch[0..entries]);
    one_step(s, s, set, xs, scratch, &mut carries, &mut room, &mut block)
}
