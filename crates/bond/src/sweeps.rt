// Jacobi sweeps over a Gram matrix and its basis, both n rows of n, with their count.
ghost use Rattle.std.specs.Prelude.{◌≡◌, true, ◌+◌, ◌*◌, ◌<◌, length, set};
ghost use Rattle.answers.specs.Outcome.{staged, outcome_of};
ghost use Rattle.lists.specs.Floats.{cell};
ghost use Rattle.cutform.specs.Rotation.{slope_of};
ghost use Rattle.cutform.specs.Modes.{off_sum, diagonal_sum, small_beside, settled, skipped};
ghost use Rattle.cutform.specs.Sweeps.{eig, turn_columns, turn_rows, cleared, turned, rotate, sweep, swept, diagonalized};
ghost use Rattle.bond.specs.declared.sweeps.Sweeps.{Sweeps};
ghost use Rattle.bond.specs.SweepRows.{sweep_row, off_row, still_row, still};

// The number at row i and column j.
fn number_at(g: &[f64], n: usize, i: usize, j: usize) -> f64
    requires { (length g.now ≡ n * n) × (i < n) × (j < n) }
    ensures { result ≡ cell n g.now i j }
{
    g[i * n + j]
}

fn put(g: &mut [f64], n: usize, i: usize, j: usize, x: f64)
    requires { (length g.old ≡ n * n) × (i < n) × (j < n) }
    ensures { g.new ≡ set g.old (i * n + j) x }
{
    g[i * n + j] = x;
}

fn turn_columns(a: &mut [f64], n: usize, p: usize, q: usize, c: f64, s: f64)
    requires { (length a.old ≡ n * n) × (p < q) × (q < n) }
    ensures { a.new ≡ turn_columns n p q c s a.old }
{
    rotation::turn_pairs(a, n, n, p, q, c, s);
}

fn turn_rows(a: &mut [f64], n: usize, p: usize, q: usize, c: f64, s: f64)
    requires { (length a.old ≡ n * n) × (p < q) × (q < n) }
    ensures { a.new ≡ turn_rows n p q c s a.old }
{
    rotation::turn_pairs(a, n, 1, p * n, q * n, c, s);
}

// Both off entries.
fn clear(g: &mut [f64], n: usize, p: usize, q: usize)
    requires { (length g.old ≡ n * n) × (p < q) × (q < n) }
    ensures { g.new ≡ cleared n p q g.old }
{
    put(g, n, p, q, 0.0);
    put(g, n, q, p, 0.0);
}

// Columns, then rows of the result, then both off entries.
fn turn_gram(g: &mut [f64], n: usize, p: usize, q: usize, c: f64, s: f64)
    requires { (length g.old ≡ n * n) × (p < q) × (q < n) }
    ensures { g.new ≡ cleared n p q (turn_rows n p q c s (turn_columns n p q c s g.old)) }
{
    turn_columns(g, n, p, q, c, s);
    turn_rows(g, n, p, q, c, s);
    clear(g, n, p, q);
}

// One whole rotation, after which both are stored.
fn apply_jacobi_rotation(
    g: &mut [f64],
    v: &mut [f64],
    n: usize,
    p: usize,
    q: usize,
    c: f64,
    s: f64,
) -> Result<(), usize>
    requires { (length g.old ≡ n * n) × (length v.old ≡ n * n) × (p < q) × (q < n) }
    ensures { turned n p q c s (eig g.old v.old) ≡ staged result (eig g.new v.new) }
{
    turn_gram(g, n, p, q, c, s);
    turn_columns(v, n, p, q, c, s);
    lists::stored(g)?;
    lists::stored(v)
}

// Whether x lies below 1e-30 times y, or z is zero.
fn small_beside(x: f64, y: f64, z: f64) -> bool
    ensures { result ≡ small_beside x y z }
{
    let below = x < 1e-30 * y;
    let none = z == 0.0;
    below | none
}

// Whether the pair's number is too small to be turned.
fn skipped(mode: usize, g: &[f64], n: usize, p: usize, q: usize) -> bool
    requires { (length g.now ≡ n * n) × (p < q) × (q < n) }
    ensures { result ≡ skipped mode n g.now p q }
{
    let x = number_at(g, n, p, q);
    if mode == cutform::SCALED {
        let low = number_at(g, n, p, p);
        let high = number_at(g, n, q, q);
        return small_beside(x * x, low * high, x);
    }
    x * x < 1e-30
}

// What the tangent of a pair's angle is taken of.
fn pair_slope(g: &[f64], n: usize, p: usize, q: usize) -> f64
    requires { (length g.now ≡ n * n) × (p < q) × (q < n) }
    ensures { result ≡ slope_of (cell n g.now p p) (cell n g.now q q) (cell n g.now p q) }
{
    let low = number_at(g, n, p, p);
    let high = number_at(g, n, q, q);
    let off = number_at(g, n, p, q);
    rotation::slope(low, high, off)
}

fn rotate(
    mode: usize,
    g: &mut [f64],
    v: &mut [f64],
    n: usize,
    p: usize,
    q: usize,
) -> Result<(), usize>
    requires { (length g.old ≡ n * n) × (length v.old ≡ n * n) × (p < q) × (q < n) }
    ensures { rotate mode n p q (eig g.old v.old) ≡ staged result (eig g.new v.new) }
{
    if skipped(mode, g, n, p, q) {
        return Ok(());
    }
    let t = rotation::tangent(pair_slope(g, n, p, q));
    let c = rotation::cosine(t);
    apply_jacobi_rotation(g, v, n, p, q, c, t * c)
}

// The pairs (p, q) of one p.
fn sweep_row(mode: usize, g: &mut [f64], v: &mut [f64], n: usize, p: usize) -> Result<(), usize>
    requires { (length g.old ≡ n * n) × (length v.old ≡ n * n) × (p < n) }
    ensures { sweep_row mode n p (eig g.old v.old) ≡ staged result (eig g.new v.new) }
{
    for q in p + 1..n {
        rotate(mode, g, v, n, p, q)?;
    }
    Ok(())
}

pub fn jacobi_sweep(mode: usize, g: &mut [f64], v: &mut [f64], n: usize) -> Result<(), usize>
    requires { (length g.old ≡ n * n) × (length v.old ≡ n * n) }
    ensures { sweep mode n (eig g.old v.old) ≡ staged result (eig g.new v.new) }
{
    for p in 0..n {
        sweep_row(mode, g, v, n, p)?;
    }
    Ok(())
}

// s and the part of the sum that the pairs of one p have.
fn off_row(g: &[f64], n: usize, p: usize, s: f64) -> f64
    requires { (length g.now ≡ n * n) × (p < n) }
    ensures { result ≡ off_row n g.now p s }
{
    let mut sum = s;
    for q in p + 1..n {
        let x = number_at(g, n, p, q);
        sum = sum + 2.0 * x * x;
    }
    sum
}

fn off_sum(g: &[f64], n: usize) -> f64
    requires { length g.now ≡ n * n }
    ensures { result ≡ off_sum n g.now }
{
    let mut sum = 0.0;
    for p in 0..n {
        sum = off_row(g, n, p, sum);
    }
    sum
}

fn diagonal_sum(g: &[f64], n: usize) -> f64
    requires { length g.now ≡ n * n }
    ensures { result ≡ diagonal_sum n g.now }
{
    let mut sum = 0.0;
    for i in 0..n {
        let x = number_at(g, n, i, i);
        sum = sum + x * x;
    }
    sum
}

// Whether the sum over pairs is small enough for the sweeps to stop.
pub fn settled(mode: usize, g: &[f64], n: usize) -> bool
    requires { length g.now ≡ n * n }
    ensures { result ≡ settled mode n g.now }
{
    let off = off_sum(g, n);
    if mode == cutform::SCALED {
        return small_beside(off, diagonal_sum(g, n), off);
    }
    off < 1e-30
}

// Whether all is true, and every pair of one p is skipped.
fn still_row(mode: usize, g: &[f64], n: usize, p: usize, all: bool) -> bool
    requires { (length g.now ≡ n * n) × (p < n) }
    ensures { result ≡ still_row mode n g.now p all }
{
    let mut every = all;
    for q in p + 1..n {
        let one = skipped(mode, g, n, p, q);
        every = every & one;
    }
    every
}

// Whether a sweep would turn nothing.
fn still(mode: usize, g: &[f64], n: usize) -> bool
    requires { length g.now ≡ n * n }
    ensures { result ≡ still mode n g.now }
{
    let mut every = true;
    for p in 0..n {
        every = still_row(mode, g, n, p, every);
    }
    every
}

const MOST_SWEEPS: usize = 50;

// How many sweeps were made, and whether the matrix is settled at the end.
#[derive(Clone, Copy)]
pub struct Sweeps {
    pub count: usize,
    pub settles: bool,
}

// Sweeps until the matrix is settled, at most 50. One that would turn nothing leaves all as it is, and so do those after it: they
// are counted and not made.
pub fn diagonalize(mode: usize, g: &mut [f64], v: &mut [f64], n: usize) -> Result<Sweeps, usize>
    requires { (length g.old ≡ n * n) × (length v.old ≡ n * n) }
    ensures { diagonalized mode n (eig g.old v.old)
        ≡ outcome_of result (λ (s : Sweeps). swept s.count s.settles (eig g.new v.new)) }
{
    let mut settles = settled(mode, g, n);
    for count in 0..MOST_SWEEPS {
        if settles {
            return Ok(Sweeps { count, settles });
        }
        if still(mode, g, n) {
            return Ok(Sweeps {
                count: MOST_SWEEPS,
                settles,
            });
        }
        jacobi_sweep(mode, g, v, n)?;
        settles = settled(mode, g, n);
    }
    Ok(Sweeps {
        count: MOST_SWEEPS,
        settles,
    })
}
