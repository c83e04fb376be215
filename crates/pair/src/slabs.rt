// The slab of two neighbouring cores, rows of the left one times the right one, and its columns.
ghost use Rattle.std.specs.Prelude.{◌≡◌, ◌++◌, ℕ, ◌+◌, ◌*◌, ◌<◌, ◌≤◌, length, drop};
ghost use Rattle.answers.specs.Outcome.{staged};
ghost use Rattle.lists.specs.Lists.{grid};
ghost use Rattle.lists.specs.Floats.{cell};
ghost use Rattle.lists.specs.Strips.{stored_from};
ghost use Rattle.shape.specs.Limits.{most_lines};
ghost use Rattle.pairform.specs.Slabs.{plus_product};
ghost use Rattle.pair.specs.SlabLoops.{slab_at, slab_columns};

// s + x*y, or s where x is zero.
fn plus_product(s: f64, x: f64, y: f64) -> f64
    ensures { result ≡ plus_product s x y }
{
    if x == 0.0 {
        return s;
    }
    s + x * y
}

// The number at a row of m rows of k, and a column of k rows of w.
fn number(left: &[f64], right: &[f64], m: usize, k: usize, w: usize, row: usize, col: usize) -> f64
    requires { (length left.now ≡ m * k) × (length right.now ≡ k * w) × (row < m) × (col < w) }
    ensures { result ≡ slab_at left.now right.now k w row col }
{
    let mut s = 0.0;
    for im in 0..k {
        s = plus_product(s, left[row * k + im], right[im * w + col]);
    }
    s
}

fn row_of(left: &[f64], right: &[f64], m: usize, k: usize, w: usize, row: usize, out: &mut [f64])
    requires { (length left.now ≡ m * k) × (length right.now ≡ k * w) × (row < m) × (m * w ≤ length out.old) }
    ensures { out.new ≡ stored_from (row * w) w (slab_at left.now right.now k w row) out.old }
{
    for col in 0..w {
        out[row * w + col] = number(left, right, m, k, w, row, col);
    }
}

// The slab, at the front of out.
fn rows_of(left: &[f64], right: &[f64], m: usize, k: usize, w: usize, out: &mut [f64])
    requires { (length left.now ≡ m * k) × (length right.now ≡ k * w) × (m * w ≤ length out.old) }
    ensures { out.new ≡ grid m w (slab_at left.now right.now k w) ++ drop (m * w) out.old }
{
    for row in 0..m {
        row_of(left, right, m, k, w, row, out);
    }
}

// Column col of m rows of n.
fn column(s: &[f64], m: usize, n: usize, col: usize, a: &mut [f64])
    requires { (length s.now ≡ m * n) × (length a.old ≡ n * m) × (col < n) }
    ensures { a.new ≡ stored_from (col * m) m (λ (row : ℕ). cell n s.now row col) a.old }
{
    for row in 0..m {
        a[col * m + row] = s[row * n + col];
    }
}

// The columns of m rows of n, one after another.
fn transpose(s: &[f64], m: usize, n: usize, a: &mut [f64])
    requires { (length s.now ≡ m * n) × (length a.old ≡ n * m) }
    ensures { a.new ≡ grid n m (λ (col row : ℕ). cell n s.now row col) }
{
    for col in 0..n {
        column(s, m, n, col, a);
    }
}

// The columns of the slab of m rows of k and k rows of w, if all its numbers are finite.
pub fn columns(
    left: &[f64],
    right: &[f64],
    m: usize,
    k: usize,
    w: usize,
    a: &mut [f64],
) -> Result<(), usize>
    requires { (length left.now ≡ m * k) × (length right.now ≡ k * w) × (length a.old ≡ w * m) × (m ≤ most_lines) × (w ≤ most_lines) }
    ensures { slab_columns m k w left.now right.now ≡ staged result a.new }
{
    let mut room = [0.0; shape::MOST_LINES * shape::MOST_LINES];
    rows_of(left, right, m, k, w, &mut room);
    let e = m * w;
    let slab = &room[0..e];
    lists::stored(slab)?;
    transpose(slab, m, w, a);
    Ok(())
}
