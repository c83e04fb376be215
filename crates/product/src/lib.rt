// The inner product with the zones' weights.
#![tactic(auto)]

pub mod contraction;
pub mod start;
pub mod sums;

ghost use Rattle.std.specs.Prelude.{◌≡◌, ◌≤◌, length, Ok};
ghost use Rattle.shape.specs.Shapes.{chain_ok, entries_of, all_points};
ghost use Rattle.shape.specs.Sizes.{SizesWithin};
ghost use Rattle.sumform.specs.Call.{inner_lent, inner_finite, inner_ok, weighed, inner_call};
ghost use Rattle.sumform.specs.Product.{inner};

// The lengths that an inner product asks for: refusal 5.
#[tactic(auto, using(crate::proofs::Checks::in_a_row), unfolding(sumform::specs::Call::inner_lent))]
fn inner_lent(s: shape::Shape, chain: usize, weights: usize) -> Result<(), answers::Refusal>
    requires { SizesWithin s }
    ensures { result ≡ inner_lent s chain weights }
{
    if chain != s.entries() {
        return Err(answers::Refusal::Length(0));
    }
    if weights != s.points() {
        return Err(answers::Refusal::Length(1));
    }
    Ok(())
}

// The first core or axis with a number that isn't finite: refusal 6.
#[tactic(auto, using(crate::proofs::Checks::finite_found))]
fn inner_finite(s: shape::Shape, chain: &[f64], weights: &[f64]) -> Result<(), answers::Refusal>
    requires sizes_within { SizesWithin s }
    requires s_in_bounds { (entries_of s ≤ length chain.now) × (all_points s ≤ length weights.now) }
    ensures { result ≡ inner_finite s chain.now weights.now }
{
    let d = s.d;
    let core = s.first_not_finite_core(chain);
    let axis = s.first_not_finite_axis(weights);
    if core <= axis {
        if core < d {
            return Err(answers::Refusal::Number(core));
        }
        return Ok(());
    }
    Err(answers::Refusal::Number(axis))
}

#[tactic(auto, using(crate::proofs::Checks::in_a_row), unfolding(sumform::specs::Call::inner_ok))]
fn inner_ok(s: shape::Shape, chain: &[f64], weights: &[f64]) -> Result<(), answers::Refusal>
    ensures { result ≡ inner_ok s chain.now weights.now }
{
    s.check()?;
    inner_lent(s, chain.len(), weights.len())?;
    inner_finite(s, chain, weights)
}

// Axis after axis, from sums that start as 1.
#[tactic(auto, using(shape::proofs::Offsets::offsets, shape::proofs::Slotwise::slotwise))]
fn inner_sums(s: shape::Shape, chain: &[f64], weights: &[f64]) -> Result<f64, answers::Refusal>
    requires s_value { chain_ok s ≡ Ok tt }
    requires s_in_bounds { (entries_of s ≤ length chain.now) × (all_points s ≤ length weights.now) }
    ensures { result ≡ inner (weighed s chain.now weights.now) }
{
    let mut eta = [1.0; shape::MOST_RANK];
    let mut rank = 1;
    let mut at = 0;
    let mut points = 0;
    for k in 0..s.d {
        let rr = s.right[k];
        let end = at + s.core_size(k);
        let last = points + s.n[k];
        let stage = contraction::sum_axis(
            &chain[at..end],
            rank,
            rr,
            &weights[points..last],
            &mut eta,
        );
        answers::stored_in(stage, answers::Part::Sum, k)?;
        rank = rr;
        at = end;
        points = last;
    }
    Ok(eta[0])
}

// The figure: the inner product of a chain with its axes' weights.
#[tactic(auto, using(crate::proofs::Checks::inner_checked), unfolding(sumform::specs::Call::inner_call))]
pub fn inner_separable(
    s: shape::Shape,
    chain: &[f64],
    weights: &[f64],
) -> Result<f64, answers::Refusal>
    ensures { result ≡ inner_call s chain.now weights.now }
{
    inner_ok(s, chain, weights)?;
    inner_sums(s, chain, weights)
}
