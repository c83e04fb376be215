// All that a new axis record asks of the run that it finds, in its order.
ghost use Rattle.std.specs.Prelude.{◌≡◌};
ghost use Rattle.stepform.specs.Zones.{rules};
ghost use Rattle.runform.specs.Slices.{slices, slice_count};
ghost use Rattle.runform.specs.Kept.{kept_of};
ghost use Rattle.runform.specs.Requests.{new_axis, replace_ok};
ghost use Rattle.runform.specs.Checks.{scratch_lent};

#[tactic(auto, using(crate::proofs::InRow::found_right))]
pub fn axis_ok(
    r: runform::Run,
    z: usize,
    a: stepform::Axis,
    source: &[f64],
    weights: &[f64],
    chain: &[f64],
    carries: &[f64],
    sums: &[f64],
    scratch: usize,
) -> Result<(), answers::Refusal>
    ensures { result ≡ (replace_ok rules (scratch_lent r.shape slice_count scratch)
        (kept_of r (slices source.now weights.now chain.now carries.now sums.now))
        (new_axis z a)) }
{
    let s = r.shape;
    crate::found::found_ok(r, z, source, weights, chain, carries, sums)?;
    if scratch != checks::scratch_of(s) {
        return Err(answers::Refusal::Length(runform::SLICES));
    }
    let finite = axes::axis_finite(a);
    let mild = axes::axis_ok(a);
    crate::numeric::numbers_found(r, z, finite, mild, source, weights, chain, carries, sums)?;
    let mut xs = r.axes;
    xs[z] = a;
    crate::rooms::reaches_ok(z, r.set, s, xs)
}
