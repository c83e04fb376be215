// One-sided Jacobi passes over stored columns, with their count, and a look at every number after each rotation. `quick_passes` makes
// the same passes with fewer looks; these remain only for the case that something isn't finite, and tell which number was the first.
ghost use Rattle.std.specs.Prelude.{◌≡◌, ◌<◌};
ghost use Rattle.answers.specs.Outcome.{staged, outcome_of};
ghost use Rattle.columns.specs.Loops.{squares};
ghost use Rattle.pairform.specs.Passes.{svd, turned_svd, passed, rotate, pass, made, orthogonalized};
ghost use Rattle.passes.specs.Loops.{pass_row, Held};

// One whole rotation, after which both are stored; the sums of squares follow.
fn apply_jacobi_rotation(
    a: &mut [f64],
    v: &mut [f64],
    ss: &mut [f64],
    m: usize,
    n: usize,
    p: usize,
    q: usize,
    c: f64,
    s: f64,
) -> Result<(), usize>
    requires { Held m n a.old v.old ss.old × (p < q) × (q < n) }
    ensures { (turned_svd m n p q c s (svd a.old v.old) ≡ staged result (svd a.new v.new))
        × (ss.new ≡ squares m n a.new) }
{
    columns::turn(a, m, n, p, q, c, s);
    columns::turn(v, n, n, p, q, c, s);
    columns::square_again(a, m, n, p, q, ss);
    columns::stored_squared(a, m, n, p, q, ss)?;
    columns::stored_but(v, n, n, p, q)
}

// The pair (p, q), unless it is skipped; like all that follows: whether no pair has been turned yet.
fn rotate(
    a: &mut [f64],
    v: &mut [f64],
    ss: &mut [f64],
    m: usize,
    n: usize,
    p: usize,
    q: usize,
    quiet: bool,
) -> Result<bool, usize>
    requires { Held m n a.old v.old ss.old × (p < q) × (q < n) }
    ensures { (rotate m n p q (passed (svd a.old v.old) quiet)
        ≡ outcome_of result (passed (svd a.new v.new))) × (ss.new ≡ squares m n a.new) }
{
    let alpha = columns::dot(a, m, n, p, q);
    let low = ss[p];
    let high = ss[q];
    if columns::skipped(alpha, low, high) {
        return Ok(quiet);
    }
    let t = rotation::tangent(rotation::slope(low, high, alpha));
    let c = rotation::cosine(t);
    apply_jacobi_rotation(a, v, ss, m, n, p, q, c, c * t)?;
    Ok(false)
}

// The pairs (p, q) of one p.
fn pass_row(
    a: &mut [f64],
    v: &mut [f64],
    ss: &mut [f64],
    m: usize,
    n: usize,
    p: usize,
    still: bool,
) -> Result<bool, usize>
    requires { Held m n a.old v.old ss.old × (p < n) }
    ensures { (pass_row m n p (passed (svd a.old v.old) still)
        ≡ outcome_of result (passed (svd a.new v.new))) × (ss.new ≡ squares m n a.new) }
{
    let mut quiet = still;
    for q in p + 1..n {
        quiet = rotate(a, v, ss, m, n, p, q, quiet)?;
    }
    Ok(quiet)
}

// One pass.
fn pass(a: &mut [f64], v: &mut [f64], ss: &mut [f64], m: usize, n: usize) -> Result<bool, usize>
    requires { Held m n a.old v.old ss.old }
    ensures { (pass m n (svd a.old v.old) ≡ outcome_of result (passed (svd a.new v.new)))
        × (ss.new ≡ squares m n a.new) }
{
    let mut quiet = true;
    for p in 0..n {
        quiet = pass_row(a, v, ss, m, n, p, quiet)?;
    }
    Ok(quiet)
}

// At most 100 passes, a quiet one being the last: the passes made, or the index of the first number that isn't finite.
pub fn orthogonalize(
    a: &mut [f64],
    v: &mut [f64],
    ss: &mut [f64],
    m: usize,
    n: usize,
) -> Result<usize, usize>
    requires { Held m n a.old v.old ss.old }
    ensures { (orthogonalized m n (svd a.old v.old)
        ≡ outcome_of result (λ c. made c (svd a.new v.new))) × (ss.new ≡ squares m n a.new) }
{
    let mut quiet = false;
    for count in 0..crate::MOST_PASSES {
        if quiet {
            return Ok(count);
        }
        quiet = pass(a, v, ss, m, n)?;
    }
    Ok(crate::MOST_PASSES)
}
