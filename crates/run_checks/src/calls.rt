// All that a fresh run, a new core and new weights ask, in their order.
ghost use Rattle.std.specs.Prelude.{◌≡◌};
ghost use Rattle.runform.specs.Slices.{outputs, slices, behind_part};
ghost use Rattle.runform.specs.Kept.{kept_of};
ghost use Rattle.runform.specs.Checks.{scratch_lent, fresh_ok};
ghost use Rattle.runform.specs.Call.{room_lent};
ghost use Rattle.stepform.specs.Zones.{rules};
ghost use Rattle.runform.specs.Requests.{new_core, new_weights, replace_ok};

// All that a fresh run asks.
#[tactic(auto, using(crate::proofs::Afresh::sized))]
pub fn fresh_ok(
    s: shape::Shape,
    xs: [stepform::Axis; shape::MOST_AXES],
    set: stepform::Settings,
    source: &[f64],
    weights: &[f64],
    chain: usize,
    carries: usize,
    sums: usize,
    scratch: usize,
) -> Result<(), answers::Refusal>
    ensures { result ≡ (fresh_ok rules (room_lent s (outputs chain carries sums) scratch)
        (record { shape = s; axes = xs; set = set; source = source.now; weights = weights.now })) }
{
    s.check()?;
    let l = runform::Lengths {
        source: source.len(),
        weights: weights.len(),
        chain,
        carries,
        sums,
    };
    crate::found::lent(s, l)?;
    if scratch != checks::scratch_of(s) {
        return Err(answers::Refusal::Length(runform::SLICES));
    }
    crate::numeric::numbers_made(s, xs, set, source, weights)?;
    crate::rooms::reaches_ok(0, set, s, xs)
}

// All that new weights ask.
#[tactic(auto, using(crate::proofs::InRow::found_right))]
pub fn weights_ok(
    r: runform::Run,
    z: usize,
    source: &[f64],
    weights: &[f64],
    chain: &[f64],
    carries: &[f64],
    sums: &[f64],
    part: &[f64],
    scratch: usize,
) -> Result<(), answers::Refusal>
    ensures { result ≡ (replace_ok rules (scratch_lent r.shape behind_part scratch)
        (kept_of r (slices source.now weights.now chain.now carries.now sums.now))
        (new_weights z part.now)) }
{
    let s = r.shape;
    crate::found::found_ok(r, z, source, weights, chain, carries, sums)?;
    if part.len() != s.n[z] {
        return Err(answers::Refusal::Length(runform::SLICES));
    }
    if scratch != checks::scratch_of(s) {
        return Err(answers::Refusal::Length(runform::BEHIND_PART));
    }
    let finite = lists::all_finite(part);
    crate::numeric::numbers_found(r, z, finite, true, source, weights, chain, carries, sums)
}

// All that a new core asks.
#[tactic(auto, using(crate::proofs::InRow::found_right))]
pub fn core_ok(
    r: runform::Run,
    z: usize,
    source: &[f64],
    weights: &[f64],
    chain: &[f64],
    carries: &[f64],
    sums: &[f64],
    part: &[f64],
    scratch: usize,
) -> Result<(), answers::Refusal>
    ensures { result ≡ (replace_ok rules (scratch_lent r.shape behind_part scratch)
        (kept_of r (slices source.now weights.now chain.now carries.now sums.now))
        (new_core z part.now)) }
{
    let s = r.shape;
    crate::found::found_ok(r, z, source, weights, chain, carries, sums)?;
    if part.len() != s.core_size(z) {
        return Err(answers::Refusal::Length(runform::SLICES));
    }
    if scratch != checks::scratch_of(s) {
        return Err(answers::Refusal::Length(runform::BEHIND_PART));
    }
    let finite = lists::all_finite(part);
    crate::numeric::numbers_found(r, z, finite, true, source, weights, chain, carries, sums)?;
    crate::rooms::reaches_ok(z, r.set, s, r.axes)
}
