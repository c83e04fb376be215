// The columns of a slab split into the numbers of two cores.
ghost use Rattle.std.specs.Prelude.{◌≡◌, true, map, ◌*◌, ◌≤◌, length, take};
ghost use Rattle.numbers.specs.Root.{root_of};
ghost use Rattle.answers.specs.Outcome.{outcome_of};
ghost use Rattle.lists.specs.Floats.{all_finite};
ghost use Rattle.shape.specs.Limits.{most_rank, most_lines};
ghost use Rattle.cutform.specs.Values.{order, sorted, kept_rank};
ghost use Rattle.pairform.specs.Passes.{svd, made};
ghost use Rattle.pair.specs.Loops.{Lines, valued_from, cut_from, split_from};

use answers::{Part, Refusal};
use pairform::Paired;

// Each number becomes its root.
fn roots(s: &mut [f64])
    ensures { s.new ≡ map root_of s.old }
{
    for x in s.iter_mut() {
        *x = numbers::root(*x);
    }
}

// The columns after their passes, their basis, and their values; b is room for the columns. The passes made, or the first number that isn't finite.
fn valued(
    a: &mut [f64],
    v: &mut [f64],
    sv: &mut [f64],
    b: &mut [f64],
    m: usize,
    n: usize,
) -> Result<usize, usize>
    requires { (length a.old ≡ n * m) × (all_finite a.old ≡ true) × (length v.old ≡ n * n) × (length sv.old ≡ n) × (length b.old ≡ n * m) }
    ensures { valued_from m n a.old
        ≡ outcome_of result (λ c. record { passes = made c (svd a.new v.new); values = sv.new }) }
{
    rotation::eye(v, n);
    columns::square(a, m, n, sv);
    let count = passes::orthogonalize(a, v, sv, b, m, n)?;
    roots(sv);
    lists::stored(sv)?;
    Ok(count)
}

// The values' order, the values in it, and how many are kept.
fn ranked(eps: f64, n: usize, sv: &[f64], js: &mut [usize], ss: &mut [f64]) -> usize
    requires { (1 ≤ n) × (length sv.now ≡ n) × (all_finite sv.now ≡ true) × (length js.old ≡ n) × (length ss.old ≡ n) }
    ensures { (js.new ≡ order n sv.now) × (ss.new ≡ sorted n sv.now) × (result ≡ kept_rank eps n ss.new) }
{
    bond::values::order(sv, n, js);
    bond::values::sorted(sv, n, js, ss);
    bond::values::kept_rank(eps, n, ss)
}

// The columns cut to the kept rank, refused where that is too large.
fn cut(
    eps: f64,
    m: usize,
    n: usize,
    count: usize,
    a: &[f64],
    v: &[f64],
    sv: &[f64],
    x: &mut [f64],
    y: &mut [f64],
) -> Result<Paired, Refusal>
    requires { Lines m n × (length a.now ≡ n * m) × (length v.now ≡ n * n) × (length sv.now ≡ n) × (all_finite sv.now ≡ true)
        × (most_lines * most_rank ≤ length x.old) × (most_rank * most_lines ≤ length y.old) }
    ensures { cut_from eps m n (made count (svd a.now v.now)) sv.now
        ≡ outcome_of result
        (λ w. record { rank = w.rank; left = take (m * w.rank) x.new; right = take (w.rank * n) y.new; passes = w.passes }) }
{
    let mut js = [0; shape::MOST_LINES];
    let mut ss = [0.0; shape::MOST_LINES];
    let r = ranked(eps, n, sv, &mut js[0..n], &mut ss[0..n]);
    if shape::MOST_RANK < r {
        return Err(Refusal::PairRank);
    }
    crate::halves::form(m, n, r, &ss[0..n], &js[0..n], a, v, x, y)?;
    Ok(Paired {
        rank: r,
        passes: count,
    })
}

// The n columns of m numbers of a slab split into the numbers of two cores, at the fronts of x and y.
pub fn split(
    eps: f64,
    m: usize,
    n: usize,
    a: &mut [f64],
    x: &mut [f64],
    y: &mut [f64],
) -> Result<Paired, Refusal>
    requires { Lines m n × (length a.old ≡ n * m) × (all_finite a.old ≡ true) × (most_lines * most_rank ≤ length x.old)
        × (most_rank * most_lines ≤ length y.old) }
    ensures { split_from eps m n a.old
        ≡ outcome_of result
        (λ w. record { rank = w.rank; left = take (m * w.rank) x.new; right = take (w.rank * n) y.new; passes = w.passes }) }
{
    let mut v = [0.0; shape::MOST_LINES * shape::MOST_LINES];
    let mut sv = [0.0; shape::MOST_LINES];
    let mut b = [0.0; shape::MOST_LINES * shape::MOST_LINES];
    let e = n * n;
    let o = n * m;
    let made = valued(a, &mut v[0..e], &mut sv[0..n], &mut b[0..o], m, n);
    let count = made.map_err(|i| answers::stored_at(Part::Spectrum, 0, i))?;
    cut(eps, m, n, count, a, &v[0..e], &sv[0..n], x, y)
}
