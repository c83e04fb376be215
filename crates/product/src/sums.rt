// The partial sums of the axes from one on, over cores that stand where their sources begin, each axis' sums in a slot of their own.
ghost use Rattle.std.specs.Prelude.{◌≡◌, ◌+◌, ◌-◌, ◌≤◌, ◌<◌, length, take};
ghost use Rattle.answers.specs.Outcome.{answered, staged};
ghost use Rattle.numbers.specs.Arithmetic.{zero64};
ghost use Rattle.lists.specs.Slots.{offset, put, fit};
ghost use Rattle.lists.specs.Floats.{stored};
ghost use Rattle.shape.specs.Limits.{most_rank};
ghost use Rattle.shape.specs.Shapes.{left_of, right_of};
ghost use Rattle.shape.specs.Sizes.{SizesWithin};
ghost use Rattle.shape.specs.Cores.{standing, points_at};
ghost use Rattle.sumform.specs.Contract.{contract};
ghost use Rattle.sumform.specs.Sums.{sum_size, sums_left, sums_from};
ghost use Rattle.product.specs.Lent.{SumsStand, sum_turn};

// Where the sums of axis k start.
#[tactic(auto, using(crate::proofs::Slotted::sum_slots, shape::proofs::Offsets::offsets))]
pub fn sum_offset(s: shape::Shape, k: usize) -> usize
    requires sizes_within { SizesWithin s }
    requires k_le_d { k ≤ s.d }
    ensures { result ≡ offset (sum_size s) k }
{
    let mut total = 0;
    for j in 0..k {
        total += s.right[j];
    }
    total
}

// The r sums that are held left of axis k, to the front of eta; left of axis 0 that is 1.
#[tactic(auto, using(crate::proofs::Slotted::left_slots))]
fn left_sums(k: usize, s: shape::Shape, r: usize, sums: &[f64], eta: &mut [f64])
    requires sizes_within { SizesWithin s }
    requires k_lt_d { (k < s.d) × (offset (sum_size s) s.d ≤ length sums.now) × (1 ≤ r) × (r ≤ length eta.old) × (k ≡ 0 → r ≡ 1)
        × (1 ≤ k → r ≤ right_of s (k - 1)) }
    ensures { take r eta.new ≡ sums_left s r sums.now k }
{
    if k < 1 {
        eta[0] = 1.0;
        return;
    }
    let at = sum_offset(s, k - 1);
    let end = at + r;
    lists::copy(&sums[at..end], &mut eta[0..r]);
}

// The sums of axis k from those in eta, to the front of eta.
#[tactic(auto, using(crate::proofs::Slotted::axis_slots))]
fn axis_sums(
    k: usize,
    s: shape::Shape,
    t: shape::Shape,
    work: &[f64],
    weights: &[f64],
    eta: &mut [f64],
) -> Result<(), usize>
    requires { (k < s.d) × (most_rank ≤ length eta.old) × SumsStand s t work.now weights.now }
    ensures { stored (contract (standing s t work.now k) (points_at s weights.now k) (take (left_of t k) eta.old))
        ≡ staged result (take (right_of t k) eta.new) }
{
    let at = s.offset(k);
    let end = at + t.core_size(k);
    let point = s.points_offset(k);
    let last = point + s.n[k];
    crate::contraction::sum_axis(
        &work[at..end],
        t.left[k],
        t.right[k],
        &weights[point..last],
        eta,
    )
}

// The first r numbers of eta into the slot of axis k, +0 behind them.
#[tactic(auto, using(crate::proofs::Slotted::own_slot))]
fn keep_sums(eta: &[f64], r: usize, k: usize, s: shape::Shape, sums: &mut [f64])
    requires sizes_within { SizesWithin s }
    requires k_lt_d { (k < s.d) × (offset (sum_size s) s.d ≤ length sums.old) × (r ≤ length eta.now) × (r ≤ right_of s k) }
    ensures { sums.new ≡ put (sum_size s) k (fit zero64 (sum_size s k) (take r eta.now)) sums.old }
{
    let at = sum_offset(s, k);
    let end = at + s.right[k];
    lists::fit(eta, r, &mut sums[at..end]);
}

// Axis k.
#[tactic(auto, using(crate::proofs::Turning::turn))]
fn sum_zone(
    k: usize,
    s: shape::Shape,
    t: shape::Shape,
    work: &[f64],
    weights: &[f64],
    sums: &mut [f64],
) -> Result<(), answers::Refusal>
    requires { (k < s.d) × (offset (sum_size s) s.d ≤ length sums.old) × SumsStand s t work.now weights.now }
    ensures { sum_turn s t work.now weights.now k sums.old ≡ answered result sums.new }
{
    let mut eta = [0.0; shape::MOST_RANK];
    left_sums(k, s, t.left[k], sums, &mut eta);
    let stage = axis_sums(k, s, t, work, weights, &mut eta);
    answers::stored_in(stage, answers::Part::Sum, k)?;
    keep_sums(&eta, t.right[k], k, s, sums);
    Ok(())
}

// The axes from z on, from the sums that are held left of z.
#[tactic(auto, using(crate::proofs::Turning::turned))]
pub fn sum_from(
    z: usize,
    s: shape::Shape,
    t: shape::Shape,
    work: &[f64],
    weights: &[f64],
    sums: &mut [f64],
) -> Result<(), answers::Refusal>
    requires { (z ≤ s.d) × (offset (sum_size s) s.d ≤ length sums.old) × SumsStand s t work.now weights.now }
    ensures { sums_from s t work.now weights.now z sums.old ≡ answered result sums.new }
{
    for k in z..s.d {
        sum_zone(k, s, t, work, weights, sums)?;
    }
    Ok(())
}
