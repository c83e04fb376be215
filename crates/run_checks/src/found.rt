// What a run is like as it is found: its slices' lengths, and the first zone with a number that isn't finite.
ghost use Rattle.std.specs.Prelude.{◌≡◌, Bool, true, ◌&&◌, ℕ, ◌≤◌, ◌<◌, eqb, length};
ghost use Rattle.answers.specs.declared.Refusal.TheVariants.{Number, Setting};
ghost use Rattle.answers.specs.Outcome.{◌then◌, demand, demand_each};
ghost use Rattle.lists.specs.Lists.{pick, first_not};
ghost use Rattle.shape.specs.Shapes.{entries_of, all_points};
ghost use Rattle.shape.specs.Sizes.{SizesWithin};
ghost use Rattle.runform.specs.Slices.{slices};
ghost use Rattle.runform.specs.Kept.{kept_of, lengths_in};
ghost use Rattle.runform.specs.Checks.{slices_lent, made_finite};
ghost use Rattle.runform.specs.Requests.{found_ok};

// Refusal 5 of a run's slices.
#[tactic(auto, using(crate::proofs::Guards::sized), unfolding(runform::specs::Checks::lent_from))]
pub fn lent(s: shape::Shape, l: runform::Lengths) -> Result<(), answers::Refusal>
    requires { SizesWithin s }
    ensures { result ≡ slices_lent s (lengths_in l) }
{
    let entries = s.entries();
    if l.source != entries {
        return Err(answers::Refusal::Length(0));
    }
    if l.weights != s.points() {
        return Err(answers::Refusal::Length(1));
    }
    if l.chain != entries {
        return Err(answers::Refusal::Length(2));
    }
    let d = s.d;
    if l.carries != cuts::carry_offset(s, d) {
        return Err(answers::Refusal::Length(3));
    }
    if l.sums != product::sums::sum_offset(s, d) {
        return Err(answers::Refusal::Length(4));
    }
    Ok(())
}

// Refusals 1 to 5 of a run and a zone of it.
#[tactic(auto, using(crate::proofs::Guards::sized), unfolding(runform::specs::Requests::found_ok))]
pub fn found_ok(
    r: runform::Run,
    z: usize,
    source: &[f64],
    weights: &[f64],
    chain: &[f64],
    carries: &[f64],
    sums: &[f64],
) -> Result<(), answers::Refusal>
    ensures { result ≡ (found_ok
        (kept_of r (slices source.now weights.now chain.now carries.now sums.now)) z) }
{
    let s = r.shape;
    crate::ranks::shape_ok(s, r.bonds)?;
    if z >= s.d {
        return Err(answers::Refusal::Zone);
    }
    let l = runform::Lengths {
        source: source.len(),
        weights: weights.len(),
        chain: chain.len(),
        carries: carries.len(),
        sums: sums.len(),
    };
    lent(s, l)
}

// The first zone made from a number that isn't finite, or d.
#[tactic(auto, using(crate::proofs::Guards::made_first))]
pub fn first_bad_made(
    s: shape::Shape,
    xs: [stepform::Axis; shape::MOST_AXES],
    source: &[f64],
    weights: &[f64],
) -> usize
    requires sizes_within { SizesWithin s }
    requires s_in_bounds { (entries_of s ≤ length source.now) × (all_points s ≤ length weights.now) }
    ensures { result ≡ first_not (made_finite s xs source.now weights.now) s.d }
{
    let core = s.first_not_finite_core(source);
    let axis = checks::settings::first_not_finite(s.d, xs);
    let weight = s.first_not_finite_axis(weights);
    core.min(axis.min(weight))
}

// The first zone that fails, or the zone of a new part that does.
#[tactic(auto, using(crate::proofs::Guards::part_fails))]
pub fn with_part(first: usize, ok: bool, z: usize) -> usize
    ensures { (p : ℕ → Bool) (d : ℕ) → z < d → first ≡ first_not p d → result ≡ first_not (λ (k : ℕ). p k && pick (eqb k z) ok true) d }
{
    if ok { first } else { first.min(z) }
}

// Refusals 6 and 7: `number` is the first zone that fails 6, `setting` the first that fails 7, or d.
pub fn numbers_ok(
    lone: bool,
    number: usize,
    mild: bool,
    setting: usize,
    d: usize,
) -> Result<(), answers::Refusal>
    ensures { (p q : ℕ → Bool) → number ≡ first_not p d → setting ≡ first_not q d → result
        ≡ (demand lone (Number 0) then demand_each Number p d 0 then demand mild (Setting 0) then demand_each Setting q d 0) }
{
    if !lone {
        return Err(answers::Refusal::Number(0));
    }
    if number < d {
        return Err(answers::Refusal::Number(number));
    }
    if !mild {
        return Err(answers::Refusal::Setting(0));
    }
    if setting < d {
        return Err(answers::Refusal::Setting(setting));
    }
    Ok(())
}
