// One core of a rounding in place: the carry on its left absorbed, its bond cut.
ghost use Rattle.std.specs.Prelude.{◌≡◌, true, false, ◌-◌, ◌*◌, ◌≤◌, ◌<◌, ◌++◌, length, take, drop, Ok};
ghost use Rattle.std.specs.Result.{IfOk};
ghost use Rattle.answers.specs.Outcome.{staged, answered, outcome_of, bind};
ghost use Rattle.numbers.specs.Arithmetic.{zero64};
ghost use Rattle.lists.specs.Slots.{fit};
ghost use Rattle.lists.specs.Floats.{stored};
ghost use Rattle.shape.specs.Limits.{most_rank};
ghost use Rattle.shape.specs.Cores.{core_with};
ghost use Rattle.cutform.specs.declared.Bond.{Bond};
ghost use Rattle.cutform.specs.Bonds.{cut_bond, absorb};
ghost use Rattle.cutform.specs.Rounding.{taken_in, cut_if, round_core};
ghost use Rattle.bond.specs.Stages.{cut_into};
ghost use Rattle.cuts.specs.ZoneSlots.{carry_from, laid_cut, laid_as, ZoneFits};

// The room of a slot behind what is used of it becomes +0.
fn clear_behind(slot: &mut [f64], used: usize)
    requires { used ≤ length slot.old }
    ensures { slot.new ≡ fit zero64 (length slot.old) (take used slot.old) }
{
    lists::fill(&mut slot[used..], 0.0);
}

// A carry of r rows taken into a core, into out.
fn absorbed(
    carry: &[f64],
    r: usize,
    core: &[f64],
    rl: usize,
    n: usize,
    rr: usize,
    out: &mut [f64],
) -> Result<(), usize>
    requires { (length core.now ≡ rl * n * rr) × (1 ≤ rl) × (r * rl ≤ length carry.now) × (length out.old ≡ r * n * rr) }
    ensures { stored (absorb r (take (r * rl) carry.now) (core_with rl n rr core.now)) ≡ staged result out.new }
{
    bond::absorb(carry, r, core, rl, n, rr, out);
    lists::stored(out)
}

// The same for the core at the front of its slot, in place.
fn take_in(
    slot: &mut [f64],
    rl: usize,
    n: usize,
    rr: usize,
    carry: &[f64],
    r: usize,
    room: &mut [f64],
) -> Result<(), usize>
    requires { (rl * n * rr ≤ length slot.old) × (r * n * rr ≤ rl * n * rr) × (r * n * rr ≤ length slot.old) × (r * n * rr ≤ length room.old)
        × (1 ≤ rl) × (1 ≤ rr) × (r * rl ≤ length carry.now) }
    ensures { stored (absorb r (take (r * rl) carry.now) (core_with rl n rr (take (rl * n * rr) slot.old)))
        ≡ staged result (take (r * n * rr) slot.new) }
{
    let size = rl * n * rr;
    let end = r * n * rr;
    let made = absorbed(carry, r, &slot[0..size], rl, n, rr, &mut room[0..end]);
    lists::copy(&room[0..end], &mut slot[0..end]);
    made
}

// The core at the front of its slot made ready for its cut: it takes in the carry on its left, core 0 nothing.
fn taken(
    slot: &mut [f64],
    k: usize,
    rl: usize,
    n: usize,
    rr: usize,
    carry: &[f64],
    r: usize,
    room: &mut [f64],
) -> Result<(), answers::Refusal>
    requires { (rl * n * rr ≤ length slot.old) × (r * n * rr ≤ rl * n * rr) × (r * n * rr ≤ length slot.old) × (r * n * rr ≤ length room.old)
        × (1 ≤ rl) × (1 ≤ rr) × (k ≡ 0 → r ≡ rl) × (1 ≤ k → r * rl ≤ length carry.now) }
    ensures { taken_in k (carry_from k r (take (r * rl) carry.now)) (core_with rl n rr (take (rl * n * rr) slot.old))
        ≡ answered result (core_with r n rr (take (r * n * rr) slot.new)) }
{
    if k < 1 {
        return Ok(());
    }
    let made = take_in(slot, rl, n, rr, carry, r, room);
    answers::stored_in(made, answers::Part::Factor, k)
}

// The core at the front of its slot cut to its left factor, the carry at the front of its own slot.
fn cut_front(
    slot: &mut [f64],
    k: usize,
    rl: usize,
    n: usize,
    rr: usize,
    cutting: cutform::Cutting,
    carry: &mut [f64],
    room: &mut [f64],
) -> Result<cutform::Bond, answers::Refusal>
    requires { (rl * n * rr ≤ length slot.old) × (rl * n * rr ≤ length room.old) × (1 ≤ rl) × (1 ≤ n) × (1 ≤ rr) × (rr ≤ most_rank)
        × (rr * rr ≤ length carry.old) }
    ensures { (cut_bond k cutting (core_with rl n rr (take (rl * n * rr) slot.old))
        ≡ outcome_of result (λ (b : Bond). cut_into rl n rr b slot.new carry.new)) × IfOk result (λ (b : Bond). b.rank ≤ rr) }
{
    let size = rl * n * rr;
    bond::cut_bond(&mut slot[0..size], k, rl, n, rr, cutting, carry, room)
}

// The same with +0 behind.
fn cut_in(
    slot: &mut [f64],
    k: usize,
    rl: usize,
    n: usize,
    rr: usize,
    cutting: cutform::Cutting,
    carry: &mut [f64],
    room: &mut [f64],
) -> Result<cutform::Bond, answers::Refusal>
    requires { (rl * n * rr ≤ length slot.old) × (rl * n * rr ≤ length room.old) × (1 ≤ rl) × (1 ≤ n) × (1 ≤ rr) × (rr ≤ most_rank)
        × (rr * rr ≤ length carry.old) }
    ensures { bind (cut_if true k cutting (core_with rl n rr (take (rl * n * rr) slot.old)))
        (λ x. Ok (laid_cut (length slot.old) (length carry.old) x))
        ≡ outcome_of result (λ (b : Bond). laid_as true rl b slot.new carry.new) }
{
    let cut = cut_front(slot, k, rl, n, rr, cutting, carry, room)?;
    clear_behind(slot, rl * n * cut.rank);
    clear_behind(carry, cut.rank * rr);
    Ok(cut)
}

// The last core is not cut: it keeps its right rank, makes no sweeps and drops nothing.
fn last_in(slot: &mut [f64], rl: usize, n: usize, rr: usize) -> cutform::Bond
    requires { (rl * n * rr ≤ length slot.old) × (1 ≤ rr) }
    ensures { (result ≡ record { rank = rr; sweeps = 0; settled = false; dropped = zero64 })
        × (slot.new ≡ fit zero64 (length slot.old) (take (rl * n * rr) slot.old)) }
{
    clear_behind(slot, rl * n * rr);
    cutform::Bond {
        rank: rr,
        sweeps: 0,
        settled: false,
        dropped: 0.0,
    }
}

// A core with a bond to its right is cut, the last one is not.
fn cut_if(
    more: bool,
    slot: &mut [f64],
    k: usize,
    rl: usize,
    n: usize,
    rr: usize,
    cutting: cutform::Cutting,
    carry: &mut [f64],
    room: &mut [f64],
) -> Result<cutform::Bond, answers::Refusal>
    requires { (rl * n * rr ≤ length slot.old) × (rl * n * rr ≤ length room.old) × (1 ≤ rl) × (1 ≤ n) × (1 ≤ rr) × (rr ≤ most_rank)
        × (more ≡ true → rr * rr ≤ length carry.old) × (more ≡ false → length carry.old ≡ 0) }
    ensures { bind (cut_if more k cutting (core_with rl n rr (take (rl * n * rr) slot.old)))
        (λ x. Ok (laid_cut (length slot.old) (length carry.old) x))
        ≡ outcome_of result (λ (b : Bond). laid_as more rl b slot.new carry.new) }
{
    if more {
        return cut_in(slot, k, rl, n, rr, cutting, carry, room);
    }
    Ok(last_in(slot, rl, n, rr))
}

// One zone: its core stands at the front of its slot, the carry on its left at `from` to `mid` among the carries, and its own
// carry goes to `mid` to `to`.
pub fn round_core(
    slot: &mut [f64],
    k: usize,
    more: bool,
    r: usize,
    rl: usize,
    n: usize,
    rr: usize,
    cutting: cutform::Cutting,
    carries: &mut [f64],
    from: usize,
    mid: usize,
    to: usize,
    room: &mut [f64],
) -> Result<cutform::Bond, answers::Refusal>
    requires { ZoneFits k more r rl n rr from mid to (length slot.old) (length carries.old) (length room.old) }
    ensures { (bind (round_core cutting more k (carry_from k r (take (r * rl) (take (mid - from) (drop from carries.old))))
        (core_with rl n rr (take (rl * n * rr) slot.old))) (λ x. Ok (laid_cut (length slot.old) (to - mid) x))
        ≡ outcome_of result (λ (b : Bond). laid_as more r b slot.new (take (to - mid) (drop mid carries.new))))
        × (carries.new ≡ take mid carries.old
        ++ (take (to - mid) (drop mid carries.new) ++ drop to carries.old)) }
{
    taken(slot, k, rl, n, rr, &carries[from..mid], r, room)?;
    cut_if(
        more,
        slot,
        k,
        r,
        n,
        rr,
        cutting,
        &mut carries[mid..to],
        room,
    )
}
