// The numbers of the two cores that a slab's columns and their basis make.
ghost use Rattle.std.specs.Prelude.{◌≡◌, ℕ, ◌*◌, ◌<◌, ◌≤◌, length, get_or, take};
ghost use Rattle.numbers.specs.Arithmetic.{times};
ghost use Rattle.answers.specs.Outcome.{staged, answered};
ghost use Rattle.lists.specs.Floats.{at, cell, stored};
ghost use Rattle.lists.specs.Strips.{stored_from};
ghost use Rattle.bond.specs.FactorRows.{Columns};
ghost use Rattle.pairform.specs.Numbers.{inverse};
ghost use Rattle.pair.specs.Rows.{left_rows, right_rows, formed_from};

// Row `row` of the r columns that js names, of n columns of m numbers.
fn left_row(
    a: &[f64],
    m: usize,
    n: usize,
    js: &[usize],
    ss: &[f64],
    r: usize,
    row: usize,
    out: &mut [f64],
)
    requires { (length a.now ≡ n * m) × (r ≤ length js.now) × Columns n js.now r × (r ≤ length ss.now) × (row < m) × (m * r ≤ length out.old) }
    ensures { out.new
        ≡ stored_from (row * r) r (λ (k : ℕ). times
        (times (cell m a.now (get_or js.now k 0) row) (inverse (at ss.now k))) (at ss.now k)) out.old }
{
    for k in 0..r {
        let col = js[k];
        out[row * r + k] = crate::split::rescaled(a[col * m + row], ss[k]);
    }
}

// The left core's numbers, at the front of out.
fn left_core(
    a: &[f64],
    m: usize,
    n: usize,
    js: &[usize],
    ss: &[f64],
    r: usize,
    out: &mut [f64],
) -> Result<(), usize>
    requires { (length a.now ≡ n * m) × (r ≤ length js.now) × Columns n js.now r × (r ≤ length ss.now) × (m * r ≤ length out.old) }
    ensures { stored (left_rows m r ss.now js.now a.now) ≡ staged result (take (m * r) out.new) }
{
    for row in 0..m {
        left_row(a, m, n, js, ss, r, row, out);
    }
    let e = m * r;
    lists::stored(&out[0..e])
}

// Column `col` of n by n becomes row k.
fn right_row(v: &[f64], n: usize, col: usize, r: usize, k: usize, out: &mut [f64])
    requires { (length v.now ≡ n * n) × (col < n) × (k < r) × (r * n ≤ length out.old) }
    ensures { out.new ≡ stored_from (k * n) n (λ (i : ℕ). cell n v.now col i) out.old }
{
    for i in 0..n {
        out[k * n + i] = v[col * n + i];
    }
}

// The right core's numbers, at the front of out.
fn right_core(v: &[f64], n: usize, js: &[usize], r: usize, out: &mut [f64]) -> Result<(), usize>
    requires { (length v.now ≡ n * n) × (r ≤ length js.now) × Columns n js.now r × (r * n ≤ length out.old) }
    ensures { stored (right_rows n r js.now v.now) ≡ staged result (take (r * n) out.new) }
{
    for k in 0..r {
        right_row(v, n, js[k], r, k, out);
    }
    let e = r * n;
    lists::stored(&out[0..e])
}

// Both cores' numbers of the kept rank r, each at the front of its slice, if all are finite.
pub fn form(
    m: usize,
    n: usize,
    r: usize,
    ss: &[f64],
    js: &[usize],
    a: &[f64],
    v: &[f64],
    x: &mut [f64],
    y: &mut [f64],
) -> Result<(), answers::Refusal>
    requires { (length a.now ≡ n * m) × (length v.now ≡ n * n) × (r ≤ length js.now) × Columns n js.now r × (r ≤ length ss.now)
        × (m * r ≤ length x.old) × (r * n ≤ length y.old) }
    ensures { formed_from m n r ss.now js.now a.now v.now
        ≡ answered result (record { left = take (m * r) x.new; right = take (r * n) y.new }) }
{
    let lefts = left_core(a, m, n, js, ss, r, x);
    answers::stored_in(lefts, answers::Part::Factor, 0)?;
    let rights = right_core(v, n, js, r, y);
    answers::stored_in(rights, answers::Part::Factor, 1)
}
