// The separable start: a chain of rank one out of vectors.
ghost use Rattle.std.specs.Prelude.{◌≡◌, ◌≤◌, length};
ghost use Rattle.shape.specs.Shapes.{all_points};
ghost use Rattle.shape.specs.Sizes.{PointsWithin};
ghost use Rattle.sumform.specs.Start.{start_sized, start_lent, start_finite, start_ok, start_call};

// d and the sizes: refusals 1 and 2.
#[tactic(auto, using(crate::proofs::Checks::in_a_row), unfolding(sumform::specs::Start::start_sized))]
fn start_sized(s: shape::Shape) -> Result<(), answers::Refusal>
    ensures { result ≡ start_sized s }
{
    let d = s.d;
    if !shape::within(shape::MOST_AXES, d) {
        return Err(answers::Refusal::Axes);
    }
    let axis = s.first_bad_points();
    if axis < d {
        return Err(answers::Refusal::Size(axis));
    }
    Ok(())
}

// The lengths that a start asks for: refusal 5.
#[tactic(auto, using(crate::proofs::Checks::in_a_row), unfolding(sumform::specs::Start::start_lent))]
fn start_lent(s: shape::Shape, vectors: usize, chain: usize) -> Result<(), answers::Refusal>
    requires { PointsWithin s }
    ensures { result ≡ start_lent s vectors chain }
{
    let points = s.points();
    if vectors != points {
        return Err(answers::Refusal::Length(0));
    }
    if chain != points {
        return Err(answers::Refusal::Length(1));
    }
    Ok(())
}

// The first vector with a number that isn't finite: refusal 6.
#[tactic(auto, using(crate::proofs::Checks::in_a_row), unfolding(sumform::specs::Start::start_finite))]
fn start_finite(s: shape::Shape, vectors: &[f64]) -> Result<(), answers::Refusal>
    requires points_within { PointsWithin s }
    requires s_in_bounds { all_points s ≤ length vectors.now }
    ensures { result ≡ start_finite s vectors.now }
{
    let d = s.d;
    let axis = s.first_not_finite_axis(vectors);
    if axis < d {
        return Err(answers::Refusal::Number(axis));
    }
    Ok(())
}

#[tactic(auto, using(crate::proofs::Starts::starts_in_a_row), unfolding(sumform::specs::Start::start_ok))]
fn start_ok(s: shape::Shape, vectors: &[f64], chain: usize) -> Result<(), answers::Refusal>
    ensures { result ≡ start_ok s vectors.now chain }
{
    start_sized(s)?;
    start_lent(s, vectors.len(), chain)?;
    start_finite(s, vectors)
}

// The separable start: a chain of rank one whose core k holds vector k.
#[tactic(auto, using(crate::proofs::Starts::starts_checked), unfolding(sumform::specs::Start::rank_one))]
pub fn rank1_separable(
    s: shape::Shape,
    vectors: &[f64],
    chain: &mut [f64],
) -> Result<shape::Shape, answers::Refusal>
    ensures { (result ≡ (start_call s vectors.now chain.old).result)
        × (chain.new ≡ (start_call s vectors.now chain.old).chain) }
{
    start_ok(s, vectors, chain.len())?;
    lists::copy(vectors, chain);
    Ok(s.rank_one())
}
