// The numbers of a run in used room, and the shifts that are to be made: refusals 6 and 8.
ghost use Rattle.std.specs.Prelude.{◌≡◌, ◌+◌, ◌-◌, ◌≤◌, ◌<◌, length, take, drop, Ok};
ghost use Rattle.answers.specs.declared.Refusal.TheVariants.{Reach};
ghost use Rattle.answers.specs.Outcome.{demand_each};
ghost use Rattle.lists.specs.Lists.{first_not};
ghost use Rattle.lists.specs.Floats.{all_finite};
ghost use Rattle.shape.specs.Shapes.{shape_ok, entries_of};
ghost use Rattle.shape.specs.Sizes.{PointsWithin, SizesWithin};
ghost use Rattle.stepform.specs.Call.{axis_reaches};
ghost use Rattle.runform.specs.Slices.{outputs};
ghost use Rattle.runform.specs.Kept.{all_carries, all_sums};
ghost use Rattle.runform.specs.Checks.{rank_ok, core_held, carry_held, sums_held, dropped_held, held_finite};

// Whether the numbers at the front of what begins at `at` are all finite.
#[tactic(auto, using(crate::proofs::Fronts::front_found))]
fn front_finite(l: &[f64], at: usize, used: usize) -> bool
    requires { at + used ≤ length l.now }
    ensures { result ≡ all_finite (take used (drop at l.now)) }
{
    let end = at + used;
    lists::all_finite(&l[at..end])
}

#[tactic(auto, using(crate::proofs::Fronts::core_fronts))]
fn core_held(
    s: shape::Shape,
    bonds: [cutform::Bond; shape::MOST_AXES],
    chain: &[f64],
    k: usize,
) -> bool
    requires { (SizesWithin s) × (shape_ok s (rank_ok s bonds) ≡ Ok tt) × (k < s.d) × (entries_of s ≤ length chain.now) }
    ensures { result ≡ core_held s bonds chain.now k }
{
    let at = s.offset(k);
    let left = run_slices::ranks::left_rank(bonds, k);
    let right = run_slices::ranks::right_rank(s, bonds, k);
    front_finite(chain, at, left * s.n[k] * right)
}

#[tactic(auto, using(crate::proofs::Fronts::carry_fronts))]
fn carry_held(
    s: shape::Shape,
    bonds: [cutform::Bond; shape::MOST_AXES],
    carries: &[f64],
    k: usize,
) -> bool
    requires { (SizesWithin s) × (shape_ok s (rank_ok s bonds) ≡ Ok tt) × (k < s.d) × (all_carries s ≤ length carries.now) }
    ensures { result ≡ carry_held s bonds carries.now k }
{
    if k + 1 < s.d {
        let at = cuts::carry_offset(s, k);
        let used = bonds[k].rank * s.right[k];
        return front_finite(carries, at, used);
    }
    true
}

#[tactic(auto, using(crate::proofs::Fronts::sums_fronts))]
fn sums_held(
    s: shape::Shape,
    bonds: [cutform::Bond; shape::MOST_AXES],
    sums: &[f64],
    k: usize,
) -> bool
    requires { (SizesWithin s) × (shape_ok s (rank_ok s bonds) ≡ Ok tt) × (k < s.d) × (all_sums s ≤ length sums.now) }
    ensures { result ≡ sums_held s bonds sums.now k }
{
    let at = product::sums::sum_offset(s, k);
    let used = run_slices::ranks::right_rank(s, bonds, k);
    front_finite(sums, at, used)
}

// What bond k dropped; right of the last core there is none.
#[tactic(auto, using(crate::proofs::Fronts::dropped_found, crate::proofs::Fronts::dropped_none))]
fn dropped_held(s: shape::Shape, bonds: [cutform::Bond; shape::MOST_AXES], k: usize) -> bool
    requires { (SizesWithin s) × (k < s.d) }
    ensures { result ≡ dropped_held s bonds k }
{
    if k + 1 < s.d {
        return numbers::is_finite(bonds[k].dropped);
    }
    true
}

// Whether every number that is kept of zone k is finite.
#[tactic(auto, unfolding(runform::specs::Checks::held_finite))]
fn zone_held(
    s: shape::Shape,
    bonds: [cutform::Bond; shape::MOST_AXES],
    chain: &[f64],
    carries: &[f64],
    sums: &[f64],
    k: usize,
) -> bool
    requires sizes_within { (SizesWithin s) × (shape_ok s (rank_ok s bonds) ≡ Ok tt) × (k < s.d) }
    requires s_in_bounds { (entries_of s ≤ length chain.now) × (all_carries s ≤ length carries.now) × (all_sums s ≤ length sums.now) }
    ensures { result ≡ held_finite s bonds (outputs chain.now carries.now sums.now) k }
{
    let core = core_held(s, bonds, chain, k);
    let carry = carry_held(s, bonds, carries, k);
    let sum = sums_held(s, bonds, sums, k);
    let dropped = dropped_held(s, bonds, k);
    core & (carry & (sum & dropped))
}

// The first zone of which a number is kept that isn't finite, or d.
#[tactic(auto, using(lists::proofs::Demands::passing))]
pub fn first_bad_held(
    s: shape::Shape,
    bonds: [cutform::Bond; shape::MOST_AXES],
    chain: &[f64],
    carries: &[f64],
    sums: &[f64],
) -> usize
    requires sizes_within { (SizesWithin s) × (shape_ok s (rank_ok s bonds) ≡ Ok tt) }
    requires s_in_bounds { (entries_of s ≤ length chain.now) × (all_carries s ≤ length carries.now) × (all_sums s ≤ length sums.now) }
    ensures { result ≡ first_not (held_finite s bonds (outputs chain.now carries.now sums.now)) s.d }
{
    for k in 0..s.d {
        if !zone_held(s, bonds, chain, carries, sums, k) {
            return k;
        }
    }
    s.d
}

// Refusal 8, of the shifts from z on.
#[tactic(auto, using(crate::proofs::Fronts::reaching))]
pub fn reaches_ok(
    z: usize,
    set: stepform::Settings,
    s: shape::Shape,
    xs: [stepform::Axis; shape::MOST_AXES],
) -> Result<(), answers::Refusal>
    requires points_within { PointsWithin s }
    requires z_le_d { z ≤ s.d }
    ensures { result ≡ (demand_each Reach (axis_reaches set s xs) (s.d - z) z) }
{
    for k in z..s.d {
        if !checks::settings::axis_reaches(set, s, xs, k) {
            return Err(answers::Refusal::Reach(k));
        }
    }
    Ok(())
}
