// What a pair asks before the work.
ghost use Rattle.std.specs.Prelude.{◌≡◌, true, ◌&&◌, [], ◌*◌, ◌≤◌, leb, Ok};
ghost use Rattle.numbers.specs.Finite.{finite};
ghost use Rattle.lists.specs.Floats.{all_finite};
ghost use Rattle.shape.specs.Limits.{most_points, most_lines};
ghost use Rattle.pairform.specs.Call.{core_of, sizes_ok, pair_sized, pair_lent, pair_finite, pair_ok};

// The outer ranks needn't be 1.
#[tactic(auto, unfolding(pairform::specs::Call::sizes_ok))]
fn sizes_ok(c: pairform::Sizes) -> bool
    ensures { result ≡ sizes_ok (core_of c []) }
{
    shape::within(shape::MOST_RANK, c.rl)
        && shape::within(shape::MOST_POINTS, c.n)
        && shape::within(shape::MOST_RANK, c.rr)
}

// Whether sizes that are within their limits make few enough lines; the product is made of no others.
fn lines_ok(sized: bool, i: usize, j: usize) -> bool
    requires { sized ≡ true → (i ≤ most_points) × (j ≤ most_points) }
    ensures { result ≡ sized && leb (i * j) most_lines }
{
    sized && i * j <= shape::MOST_LINES
}

// Refusals 2 and 3.
#[tactic(auto, using(crate::proofs::Verdicts::small), unfolding(pairform::specs::Call::pair_sized, answers::specs::Outcome::demand))]
fn sized(l: pairform::Sizes, r: pairform::Sizes) -> Result<(), answers::Refusal>
    ensures { result ≡ pair_sized (core_of l []) (core_of r []) }
{
    if !lines_ok(sizes_ok(l), l.rl, l.n) {
        return Err(answers::Refusal::Size(0));
    }
    if !lines_ok(sizes_ok(r), r.n, r.rr) {
        return Err(answers::Refusal::Size(1));
    }
    if l.rr != r.rl {
        return Err(answers::Refusal::Ranks(0));
    }
    Ok(())
}

// Refusal 5.
fn lent(
    l: pairform::Sizes,
    r: pairform::Sizes,
    left: &[f64],
    right: &[f64],
    lefts: usize,
    rights: usize,
    scratch: usize,
) -> Result<(), answers::Refusal>
    requires { pair_sized (core_of l []) (core_of r []) ≡ Ok tt }
    ensures { result ≡ pair_lent (core_of l left.now) (core_of r right.now) lefts rights scratch }
{
    if left.len() != l.rl * l.n * l.rr {
        return Err(answers::Refusal::Length(0));
    }
    if right.len() != r.rl * r.n * r.rr {
        return Err(answers::Refusal::Length(1));
    }
    if lefts != l.rl * l.n * shape::MOST_RANK {
        return Err(answers::Refusal::Length(2));
    }
    if rights != shape::MOST_RANK * r.n * r.rr {
        return Err(answers::Refusal::Length(3));
    }
    if scratch != shape::PAIR_SCRATCH {
        return Err(answers::Refusal::Length(4));
    }
    Ok(())
}

fn eps_and_left(eps: f64, left: &[f64]) -> bool
    ensures { result ≡ finite eps && all_finite left.now }
{
    numbers::is_finite(eps) && lists::all_finite(left)
}

// Refusals 6 and 7.
#[tactic(auto, unfolding(pairform::specs::Call::pair_finite, answers::specs::Outcome::demand))]
fn finite(eps: f64, left: &[f64], right: &[f64]) -> Result<(), answers::Refusal>
    ensures { result ≡ pair_finite eps left.now right.now }
{
    if !eps_and_left(eps, left) {
        return Err(answers::Refusal::Number(0));
    }
    if !lists::all_finite(right) {
        return Err(answers::Refusal::Number(1));
    }
    if !checks::not_below_zero(eps) {
        return Err(answers::Refusal::Setting(0));
    }
    Ok(())
}

pub fn pair_ok(
    l: pairform::Sizes,
    r: pairform::Sizes,
    eps: f64,
    left: &[f64],
    right: &[f64],
    lefts: usize,
    rights: usize,
    scratch: usize,
) -> Result<(), answers::Refusal>
    ensures { result ≡ pair_ok (core_of l left.now) (core_of r right.now) eps lefts rights scratch }
{
    sized(l, r)?;
    lent(l, r, left, right, lefts, rights, scratch)?;
    finite(eps, left, right)
}
