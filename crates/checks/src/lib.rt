// What a call over a chain asks before it works.
#![tactic(auto)]

pub mod settings;

ghost use Rattle.std.specs.Prelude.{◌≡◌, ◌≤◌, length};
ghost use Rattle.shape.specs.Limits.{scratch_for};
ghost use Rattle.shape.specs.Shapes.{entries_of};
ghost use Rattle.shape.specs.Sizes.{SizesWithin};
ghost use Rattle.cutform.specs.Modes.{mode_ok};
ghost use Rattle.cutform.specs.Asked.{lengths_ok, not_below_zero, cutting_finite, cutting_ok, round_finite, round_ok};

// Scratch for a chain of this shape.
#[tactic(auto, using(crate::proofs::Verdicts::scratch_laws))]
pub fn scratch_of(s: shape::Shape) -> usize
    requires { SizesWithin s }
    ensures { result ≡ scratch_for (entries_of s) }
{
    shape::scratch_for(s.entries())
}

// Refusal 5: the chain is slice i, scratch slice j.
#[tactic(auto, using(crate::proofs::Verdicts::scratch_laws, crate::proofs::Verdicts::in_a_row), unfolding(cutform::specs::Asked::lengths_ok))]
pub fn lengths_ok(
    s: shape::Shape,
    i: usize,
    chain: usize,
    j: usize,
    scratch: usize,
) -> Result<(), answers::Refusal>
    requires { SizesWithin s }
    ensures { result ≡ lengths_ok s i chain j scratch }
{
    let entries = s.entries();
    if chain != entries {
        return Err(answers::Refusal::Length(i));
    }
    if scratch != shape::scratch_for(entries) {
        return Err(answers::Refusal::Length(j));
    }
    Ok(())
}

#[tactic(auto, unfolding(cutform::specs::Asked::not_below_zero))]
pub fn not_below_zero(x: f64) -> bool
    ensures { result ≡ not_below_zero x }
{
    !(x < 0.0)
}

// What 6 asks of how a cut is made.
#[tactic(auto, unfolding(cutform::specs::Asked::cutting_finite))]
pub fn cutting_finite(cutting: cutform::Cutting) -> bool
    ensures { result ≡ cutting_finite cutting }
{
    numbers::is_finite(cutting.eps)
}

// Whether a mode is known.
#[tactic(auto, unfolding(cutform::specs::Modes::mode_ok))]
fn mode_ok(mode: usize) -> bool
    ensures { result ≡ mode_ok mode }
{
    mode == cutform::ABSOLUTE || mode == cutform::SCALED
}

// What 7 asks of it.
#[tactic(auto, unfolding(cutform::specs::Asked::cutting_ok))]
pub fn cutting_ok(cutting: cutform::Cutting) -> bool
    ensures { result ≡ cutting_ok cutting }
{
    not_below_zero(cutting.eps) && mode_ok(cutting.mode)
}

// Refusal 6: how it is cut, then the first core with a number that isn't finite.
#[tactic(auto, using(crate::proofs::Verdicts::in_a_row), unfolding(cutform::specs::Asked::round_finite, cutform::specs::Asked::core_finite))]
fn round_finite(
    s: shape::Shape,
    cutting: cutform::Cutting,
    chain: &[f64],
) -> Result<(), answers::Refusal>
    requires sizes_within { SizesWithin s }
    requires s_in_bounds { entries_of s ≤ length chain.now }
    ensures { result ≡ round_finite s cutting chain.now }
{
    if !cutting_finite(cutting) {
        return Err(answers::Refusal::Number(0));
    }
    let core = s.first_not_finite_core(chain);
    if core < s.d {
        return Err(answers::Refusal::Number(core));
    }
    Ok(())
}

// All that a rounding asks.
#[tactic(auto, using(crate::proofs::Verdicts::in_a_row), unfolding(cutform::specs::Asked::round_ok))]
pub fn round_ok(
    s: shape::Shape,
    cutting: cutform::Cutting,
    chain: &[f64],
    scratch: usize,
) -> Result<(), answers::Refusal>
    ensures { result ≡ round_ok s cutting chain.now scratch }
{
    s.check()?;
    lengths_ok(s, 0, chain.len(), 1, scratch)?;
    round_finite(s, cutting, chain)?;
    if !cutting_ok(cutting) {
        return Err(answers::Refusal::Setting(0));
    }
    Ok(())
}
