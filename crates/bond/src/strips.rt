// Products of matrices that stand row after row, a strip of columns at a time, whose sums stay in registers.
ghost use Rattle.std.specs.Prelude.{◌≡◌, ◌++◌, ℕ, ◌+◌, ◌*◌, ◌<◌, ◌≤◌, length, drop};
ghost use Rattle.numbers.specs.Arithmetic.{times};
ghost use Rattle.lists.specs.Floats.{at};
ghost use Rattle.lists.specs.Strips.{strip_width, added_in, stored_from};
ghost use Rattle.bond.specs.Products.{dot_at, product_of};

// x times the numbers of a from p on, added to the first h sums.
fn add_scaled(sums: &mut [f64; lists::STRIP], h: usize, x: f64, a: &[f64], p: usize)
    requires { (h ≤ strip_width) × (p + h ≤ length a.now) }
    ensures { sums.new ≡ added_in h (λ (t : ℕ). times x (at a.now (p + t))) sums.old }
{
    for t in 0..h {
        sums[t] = sums[t] + x * a[p + t];
    }
}

// Columns j to j + h of one row of a product go to out, from e on.
fn strip(
    b: &[f64],
    p: usize,
    q: usize,
    a: &[f64],
    w: usize,
    c: usize,
    j: usize,
    h: usize,
    out: &mut [f64],
    e: usize,
)
    requires { (h ≤ strip_width) × (p + c * q < length b.now + q) × (c * w ≤ length a.now) × (j + h ≤ w) × (e + h ≤ length out.old) }
    ensures { out.new ≡ stored_from e h (λ (t : ℕ). dot_at b.now p q a.now w c (j + t)) out.old }
{
    let mut sums = [0.0; lists::STRIP];
    for k in 0..c {
        let x = b[k * q + p];
        add_scaled(&mut sums, h, x, a, k * w + j);
    }
    lists::store_sums(&sums, h, out, e);
}

// One row of a product goes to out, from e on.
fn row(b: &[f64], p: usize, q: usize, a: &[f64], w: usize, c: usize, out: &mut [f64], e: usize)
    requires { (p + c * q < length b.now + q) × (c * w ≤ length a.now) × (e + w ≤ length out.old) }
    ensures { out.new ≡ stored_from e w (dot_at b.now p q a.now w c) out.old }
{
    let wide = w - w % lists::STRIP;
    let even = w - w % 4;
    for j in (0..wide).step_by(lists::STRIP) {
        strip(b, p, q, a, w, c, j, lists::STRIP, out, e + j);
    }
    for j in (wide..even).step_by(4) {
        strip(b, p, q, a, w, c, j, 4, out, e + j);
    }
    for j in even..w {
        strip(b, p, q, a, w, c, j, 1, out, e + j);
    }
}

// The product of r rows and a matrix goes to the front of out. Row i starts at i * d in b, its numbers q apart; a has c rows
// of w.
pub fn product(
    b: &[f64],
    d: usize,
    q: usize,
    a: &[f64],
    w: usize,
    c: usize,
    r: usize,
    out: &mut [f64],
)
    requires { (r * d + c * q < length b.now + q + d) × (r * d ≤ length b.now) × (c * w ≤ length a.now) × (r * w ≤ length out.old) }
    ensures { out.new ≡ product_of b.now d q a.now w c r ++ drop (r * w) out.old }
{
    for i in 0..r {
        row(b, i * d, q, a, w, c, out, i * w);
    }
}
