// The shifts and the scaling, in place: core k stands in `work` where core k of the source shape s begins, with the sizes of t.
ghost use Rattle.std.specs.Prelude.{◌≡◌, true, ◌++◌, ◌+◌, ◌≤◌, ◌<◌, length, take, drop};
ghost use Rattle.answers.specs.Outcome.{answered};
ghost use Rattle.lists.specs.Walks.{every};
ghost use Rattle.shape.specs.Shapes.{points_of};
ghost use Rattle.shape.specs.Cores.{core_with, standing};
ghost use Rattle.stepform.specs.Shifts.{shift_of, reaches, move_core, scaled};
ghost use Rattle.shift.specs.Unrolled.{Lent};
ghost use Rattle.stepform.specs.Zones.{zone, rules};
ghost use Rattle.stepform.specs.Steps.{shift_zone, scale_zone};
ghost use Rattle.checks.specs.Over.{Onward, Elsewhere, stand_from, Stands, Rooms};

// The numbers from `at` on go to the front of room.
#[tactic(auto, using(crate::proofs::Fronts::held_front))]
fn hold(work: &[f64], at: usize, size: usize, room: &mut [f64])
    requires { (at + size ≤ length work.now) × (size ≤ length room.old) }
    ensures { room.new ≡ take size (drop at work.now) ++ drop size room.old }
{
    let end = at + size;
    lists::copy(&work[at..end], &mut room[0..size]);
}

// Core k, which room holds, along its axis and back to its place.
fn move_back(
    room: &[f64],
    k: usize,
    rl: usize,
    n: usize,
    rr: usize,
    far: stepform::Shift,
    at: usize,
    size: usize,
    work: &mut [f64],
    block: &mut [f64],
) -> Result<(), answers::Refusal>
    requires size_in_bounds { (size ≤ length room.now) × (at + size ≤ length work.old) }
    requires lent { Lent (take size room.now) rl n rr (take size (drop at work.old)) block.old × (reaches far ≡ true) }
    ensures room_value { move_core k far (core_with rl n rr (take size room.now)) ≡ answered result (take size (drop at work.new)) }
    ensures work_after { work.new ≡ take at work.old ++ (take size (drop at work.new) ++ drop size (drop at work.old)) }
{
    let end = at + size;
    shift::move_core(&room[0..size], k, rl, n, rr, far, &mut work[at..end], block)
}

// Core k along its axis; `room` holds it as it was.
pub fn shift_zone(
    k: usize,
    s: shape::Shape,
    t: shape::Shape,
    set: stepform::Settings,
    x: stepform::Axis,
    work: &mut [f64],
    room: &mut [f64],
    block: &mut [f64],
) -> Result<(), answers::Refusal>
    requires stands { (Stands s t work.old) × (Rooms room.old block.old) }
    requires k_lt_d { (k < s.d) × (reaches (shift_of x set.tau (points_of s k)) ≡ true) }
    ensures x_value { shift_zone rules set k (zone (standing s t work.old k) x) ≡ answered result (standing s t work.new k) }
    ensures elsewhere { Elsewhere s k work.old work.new }
{
    let n = t.n[k];
    let size = t.core_size(k);
    let at = s.offset(k);
    hold(work, at, size, room);
    let far = shift::shift_of(x, set.tau, n);
    move_back(
        room, k, t.left[k], n, t.right[k], far, at, size, work, block,
    )
}

// The numbers from `at` on, scaled in place.
fn scale_part(
    at: usize,
    size: usize,
    set: stepform::Settings,
    work: &mut [f64],
) -> Result<(), answers::Refusal>
    requires { at + size ≤ length work.old }
    ensures work_value { scaled set.tau set.c (take size (drop at work.old)) ≡ answered result (take size (drop at work.new)) }
    ensures work_after { work.new ≡ take at work.old ++ (take size (drop at work.new) ++ drop size (drop at work.old)) }
{
    let end = at + size;
    shift::scale(&mut work[at..end], set.tau, set.c)
}

// The scaling of core 0, where z is 0; further on there is none.
pub fn scale_from(
    z: usize,
    s: shape::Shape,
    t: shape::Shape,
    set: stepform::Settings,
    work: &mut [f64],
) -> Result<(), answers::Refusal>
    requires { Stands s t work.old }
    ensures work_value { every (scale_zone rules set) z (stand_from s t z work.old) ≡ answered result (stand_from s t z work.new) }
    ensures onward { Onward s z work.old work.new }
{
    if z != 0 {
        return Ok(());
    }
    let size = t.core_size(0);
    let at = s.offset(0);
    scale_part(at, size, set, work)
}
