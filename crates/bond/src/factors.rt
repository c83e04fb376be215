// The left factor and the carry of a cut.
ghost use Rattle.std.specs.Prelude.{◌≡◌, List, ◌++◌, ℕ, ◌+◌, ◌*◌, ◌<◌, ◌≤◌, length, get_or, set, take, drop, Float};
ghost use Rattle.numbers.specs.Arithmetic.{times, over, zero64};
ghost use Rattle.answers.specs.Outcome.{staged};
ghost use Rattle.lists.specs.Lists.{iter, grid};
ghost use Rattle.lists.specs.Floats.{at, cell, stored};
ghost use Rattle.shape.specs.Cores.{core_with};
ghost use Rattle.lists.specs.Strips.{stored_from};
ghost use Rattle.bond.specs.Products.{product_of};
ghost use Rattle.cutform.specs.Modes.{divided};
ghost use Rattle.bond.specs.FactorRows.{Columns, gathered, finished, finish_column, left_rows, carry_rows, factors_of};

// Row k of the basis' columns that js names.
fn gather_row(v: &[f64], n: usize, js: &[usize], r: usize, k: usize, columns: &mut [f64])
    requires { (length v.now ≡ n * n) × (r ≤ length js.now) × Columns n js.now r × (length columns.old ≡ n * r) × (k < n) }
    ensures { columns.new ≡ stored_from (k * r) r (λ (j : ℕ). cell n v.now k (get_or js.now j 0)) columns.old }
{
    for j in 0..r {
        let column = js[j];
        columns[k * r + j] = v[k * n + column];
    }
}

// The basis' columns that js names, side by side.
pub fn gather(v: &[f64], n: usize, js: &[usize], r: usize, columns: &mut [f64])
    requires { (length v.now ≡ n * n) × (r ≤ length js.now) × Columns n js.now r × (length columns.old ≡ n * r) }
    ensures { columns.new ≡ gathered n r js.now v.now }
{
    for k in 0..n {
        gather_row(v, n, js, r, k, columns);
    }
}

// Whether a column is divided by its value.
fn divided(mode: usize, value: f64) -> bool
    ensures { result ≡ divided mode value }
{
    if mode == cutform::SCALED {
        return 0.0 < value;
    }
    1e-30 < value
}

fn divide_column(u: &mut [f64], m: usize, r: usize, j: usize, value: f64)
    requires { (length u.old ≡ m * r) × (j < r) }
    ensures { u.new ≡ iter m (λ (i : ℕ) (t : List Float). set t (i * r + j) (over (at t (i * r + j)) value)) u.old }
{
    for i in 0..m {
        u[i * r + j] = u[i * r + j] / value;
    }
}

fn clear_column(u: &mut [f64], m: usize, r: usize, j: usize)
    requires { (length u.old ≡ m * r) × (j < r) }
    ensures { u.new ≡ iter m (λ (i : ℕ) (t : List Float). set t (i * r + j) zero64) u.old }
{
    for i in 0..m {
        u[i * r + j] = 0.0;
    }
}

// The test is made once per column.
fn finish_column(mode: usize, u: &mut [f64], m: usize, r: usize, j: usize, value: f64)
    requires { (length u.old ≡ m * r) × (j < r) }
    ensures { u.new ≡ finish_column mode m r j value u.old }
{
    if divided(mode, value) {
        divide_column(u, m, r, j, value);
        return;
    }
    clear_column(u, m, r, j);
}

// Each entry of m rows of r divided by its column's value, or 0.
fn finish(mode: usize, u: &mut [f64], m: usize, r: usize, ss: &[f64])
    requires { (length u.old ≡ m * r) × (r ≤ length ss.now) }
    ensures { u.new ≡ grid m r (λ (i j : ℕ). finished mode (at ss.now j) (cell r u.old i j)) }
{
    for j in 0..r {
        finish_column(mode, u, m, r, j, ss[j]);
    }
}

// m rows of n in core times the columns, at the front of core. The rows are read in room.
fn multiply(core: &mut [f64], m: usize, n: usize, columns: &[f64], r: usize, room: &mut [f64])
    requires { (length core.old ≡ m * n) × (length columns.now ≡ n * r) × (r ≤ n) × (length core.old ≤ length room.old) }
    ensures { core.new ≡ product_of core.old n 1 columns.now r n m ++ drop (m * r) core.old }
{
    let e = core.len();
    lists::copy(core, &mut room[0..e]);
    crate::strips::product(&room[0..e], n, 1, columns, r, n, m, core);
}

// The left factor, at the front of core.
fn left_factor(
    mode: usize,
    core: &mut [f64],
    m: usize,
    n: usize,
    columns: &[f64],
    r: usize,
    ss: &[f64],
    room: &mut [f64],
) -> Result<(), usize>
    requires { (length core.old ≡ m * n) × (length columns.now ≡ n * r) × (r ≤ n) × (r ≤ length ss.now) × (length core.old ≤ length room.old) }
    ensures { stored (left_rows mode m n r columns.now ss.now core.old) ≡ staged result (take (m * r) core.new) }
{
    multiply(core, m, n, columns, r, room);
    let e = m * r;
    finish(mode, &mut core[0..e], m, r, ss);
    lists::stored(&core[0..e])
}

// Row i of the carry.
fn carry_row(columns: &[f64], n: usize, r: usize, i: usize, value: f64, carry: &mut [f64])
    requires { (length columns.now ≡ n * r) × (i < r) × (length carry.old ≡ r * n) }
    ensures { carry.new ≡ stored_from (i * n) n (λ (j : ℕ). times value (at columns.now (j * r + i))) carry.old }
{
    for j in 0..n {
        carry[i * n + j] = value * columns[j * r + i];
    }
}

// Each column times its value.
fn carry_rows(columns: &[f64], n: usize, r: usize, ss: &[f64], carry: &mut [f64])
    requires { (length columns.now ≡ n * r) × (r ≤ length ss.now) × (length carry.old ≡ r * n) }
    ensures { carry.new ≡ carry_rows n r columns.now ss.now }
{
    for i in 0..r {
        carry_row(columns, n, r, i, ss[i], carry);
    }
}

// Both, the left factor at the front of core.
pub fn left_and_carry(
    mode: usize,
    core: &mut [f64],
    rl: usize,
    n: usize,
    rr: usize,
    v: &[f64],
    js: &[usize],
    ss: &[f64],
    r: usize,
    columns: &mut [f64],
    carry: &mut [f64],
    room: &mut [f64],
) -> Result<(), usize>
    requires { (length core.old ≡ rl * n * rr) × (1 ≤ rr) × (length v.now ≡ rr * rr) × (r ≤ length js.now) × Columns rr js.now r
        × (r ≤ length ss.now) × (r ≤ rr) × (length columns.old ≡ rr * r) × (length carry.old ≡ r * rr) × (length core.old ≤ length room.old) }
    ensures { factors_of mode (core_with rl n rr core.old) r ss.now js.now v.now
        ≡ staged result (record { left = take (rl * n * r) core.new; carry = carry.new }) }
{
    gather(v, rr, js, r, columns);
    left_factor(mode, core, rl * n, rr, columns, r, ss, room)?;
    carry_rows(columns, rr, r, ss, carry);
    lists::stored(carry)
}

// The left factor and the carry, each at the front of its slice. The basis, the order and the values stand at the front of theirs;
// g has room for the basis' columns.
pub fn factor(
    mode: usize,
    core: &mut [f64],
    rl: usize,
    n: usize,
    rr: usize,
    v: &[f64],
    js: &[usize],
    ss: &[f64],
    r: usize,
    g: &mut [f64],
    carry: &mut [f64],
    room: &mut [f64],
) -> Result<(), usize>
    requires { (length core.old ≡ rl * n * rr) × (1 ≤ rr) × (rr * rr ≤ length v.now) × (rr ≤ length js.now) × Columns rr (take rr js.now) r
        × (rr ≤ length ss.now) × (r ≤ rr) × (rr * rr ≤ length g.old) × (rr * rr ≤ length carry.old) × (length core.old ≤ length room.old) }
    ensures { factors_of mode (core_with rl n rr core.old) r (take rr ss.now) (take rr js.now)
        (take (rr * rr) v.now)
        ≡ staged result (record { left = take (rl * n * r) core.new; carry = take (r * rr) carry.new }) }
{
    let e = rr * rr;
    let m = rr * r;
    left_and_carry(
        mode,
        core,
        rl,
        n,
        rr,
        &v[0..e],
        &js[0..rr],
        &ss[0..rr],
        r,
        &mut g[0..m],
        &mut carry[0..m],
        room,
    )
}
