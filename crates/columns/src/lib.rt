// Columns stored one after another: multiplied, turned, and looked over.
#![tactic(auto)]

ghost use Rattle.std.specs.Prelude.{◌≡◌, true, false, ℕ, ◌+◌, ◌-◌, ◌*◌, ◌<◌, ◌≤◌, length, take, drop};
ghost use Rattle.answers.specs.Outcome.{stage_of};
ghost use Rattle.lists.specs.Floats.{at, all_finite, stored};
ghost use Rattle.rotation.specs.Pairs.{turn_pairs};
ghost use Rattle.pairform.specs.Columns.{turn_stored, dot, skipped};
ghost use Rattle.columns.specs.Loops.{squares, FiniteElsewhere};

// The sum over the rows, ascending, of column p times column q.
#[tactic(auto, using(crate::proofs::Strips::down), unfolding(pairform::specs::Columns::dot, lists::specs::Floats::sum_to, lists::specs::Floats::sum_on))]
pub fn dot(a: &[f64], m: usize, n: usize, p: usize, q: usize) -> f64
    requires { (length a.now ≡ n * m) × (p < n) × (q < n) }
    ensures { result ≡ dot m a.now p q }
{
    let mut sum = 0.0;
    for row in 0..m {
        sum = sum + a[p * m + row] * a[q * m + row];
    }
    sum
}

// The sum of squares of each column.
#[tactic(auto, using(crate::proofs::Strips::down), unfolding(crate::specs::Loops::squares))]
pub fn square(a: &[f64], m: usize, n: usize, ss: &mut [f64])
    requires { (length a.now ≡ n * m) × (length ss.old ≡ n) }
    ensures { ss.new ≡ squares m n a.now }
{
    for col in 0..n {
        ss[col] = dot(a, m, n, col, col);
    }
}

// The sums of squares of columns p and q, in one loop: the two are independent, so they are compiled as one pair.
#[tactic(auto, using(crate::proofs::Strips::down), unfolding(pairform::specs::Columns::dot, lists::specs::Floats::sum_to, lists::specs::Floats::sum_on))]
fn squares_of(a: &[f64], m: usize, n: usize, p: usize, q: usize) -> (f64, f64)
    requires { (length a.now ≡ n * m) × (p < n) × (q < n) }
    ensures { (result.0 ≡ dot m a.now p p) × (result.1 ≡ dot m a.now q q) }
{
    let mut first = 0.0;
    let mut second = 0.0;
    for row in 0..m {
        let x = a[p * m + row];
        let y = a[q * m + row];
        first = first + x * x;
        second = second + y * y;
    }
    (first, second)
}

// Those of columns p and q; the others stand.
pub fn square_again(a: &[f64], m: usize, n: usize, p: usize, q: usize, ss: &mut [f64])
    requires { (length a.now ≡ n * m) × (length ss.old ≡ n) × (p < n) × (q < n)
        × ((k : ℕ) → k < n → ¬ (k ≡ p) → ¬ (k ≡ q) → at ss.old k ≡ dot m a.now k k) }
    ensures { ss.new ≡ squares m n a.now }
{
    let (first, second) = squares_of(a, m, n, p, q);
    ss[p] = first;
    ss[q] = second;
}

// Whether products tell without a root that a pair is turned, as they do of most: 5e-28 is so far above the tolerance's square that no rounding
// counts.
fn plainly_turned(alpha: f64, low: f64, high: f64) -> bool
    ensures { result ≡ true → skipped alpha low high ≡ false }
{
    let product = low * high;
    0.0 < product && !(alpha * alpha <= product * 5e-28)
}

// Whether a pair is so near a right angle, or so small, that it isn't turned.
#[tactic(auto, using(crate::proofs::TwoColumns::skipped_small))]
pub fn skipped(alpha: f64, low: f64, high: f64) -> bool
    ensures { result ≡ skipped alpha low high }
{
    if plainly_turned(alpha, low, high) {
        return false;
    }
    let sq = numbers::root(low * high);
    if sq <= 0.0 {
        return true;
    }
    numbers::magnitude(alpha / sq) <= 1e-14
}

// Two rows of the columns from i and from j on. All four numbers are read before one is stored, so that they are compiled as two pairs with no
// test of whether the columns overlap.
fn turn_two(a: &mut [f64], i: usize, j: usize, c: f64, s: f64)
    requires { (i + 2 ≤ j) × (j + 2 ≤ length a.old) }
    ensures { a.new ≡ turn_pairs 2 1 i j c s a.old }
{
    let x = a[i];
    let y = a[i + 1];
    let z = a[j];
    let w = a[j + 1];
    a[i] = c * x - s * z;
    a[i + 1] = c * y - s * w;
    a[j] = s * x + c * z;
    a[j + 1] = s * y + c * w;
}

#[tactic(auto, using(crate::proofs::Strips::eight_turned))]
fn turn_eight(a: &mut [f64], i: usize, j: usize, c: f64, s: f64)
    requires { (i + 8 ≤ j) × (j + 8 ≤ length a.old) }
    ensures { a.new ≡ turn_pairs 8 1 i j c s a.old }
{
    turn_two(a, i, j, c, s);
    turn_two(a, i + 2, j + 2, c, s);
    turn_two(a, i + 4, j + 4, c, s);
    turn_two(a, i + 6, j + 6, c, s);
}

// A strip of sixteen rows. A loop over strips of eight would be compiled two strips at a time, with a shuffle for every number.
#[tactic(auto, using(crate::proofs::Strips::strip_turned))]
fn turn_strip(a: &mut [f64], i: usize, j: usize, c: f64, s: f64)
    requires { (i + 16 ≤ j) × (j + 16 ≤ length a.old) }
    ensures { a.new ≡ turn_pairs 16 1 i j c s a.old }
{
    turn_eight(a, i, j, c, s);
    turn_eight(a, i + 8, j + 8, c, s);
}

fn turn_strips(a: &mut [f64], strips: usize, i: usize, j: usize, c: f64, s: f64)
    requires { (i + strips * 16 ≤ j) × (j + strips * 16 ≤ length a.old) }
    ensures { a.new ≡ turn_pairs (strips * 16) 1 i j c s a.old }
{
    for k in 0..strips {
        turn_strip(a, i + k * 16, j + k * 16, c, s);
    }
}

fn turn_twos(a: &mut [f64], twos: usize, i: usize, j: usize, c: f64, s: f64)
    requires { (i + twos * 2 ≤ j) × (j + twos * 2 ≤ length a.old) }
    ensures { a.new ≡ turn_pairs (twos * 2) 1 i j c s a.old }
{
    for k in 0..twos {
        turn_two(a, i + k * 2, j + k * 2, c, s);
    }
}

// Columns p and q turned: strips, what they leave two rows at a time, and the last row of an odd number.
pub fn turn(a: &mut [f64], m: usize, n: usize, p: usize, q: usize, c: f64, s: f64)
    requires { (length a.old ≡ n * m) × (p < q) × (q < n) }
    ensures { a.new ≡ turn_stored m n p q c s a.old }
{
    let i = p * m;
    let j = q * m;
    let strips = m / 16;
    let rows = strips * 16;
    let even = m / 2 * 2;
    turn_strips(a, strips, i, j, c, s);
    turn_twos(a, m % 16 / 2, i + rows, j + rows, c, s);
    rotation::turn_pairs(a, m % 2, 1, i + even, j + even, c, s);
}

#[tactic(auto, using(crate::proofs::Strips::down))]
fn column_finite(a: &[f64], m: usize, n: usize, p: usize) -> bool
    requires { (length a.now ≡ n * m) × (p < n) }
    ensures { result ≡ all_finite (take (p * m + m - p * m) (drop (p * m) a.now)) }
{
    lists::all_finite(&a[p * m..p * m + m])
}

// Whether the numbers can stay stored, where all but columns p and q are known to be finite: two finite sums of squares say so.
pub fn stored_squared(
    a: &[f64],
    m: usize,
    n: usize,
    p: usize,
    q: usize,
    ss: &[f64],
) -> Result<(), usize>
    requires { (length a.now ≡ n * m) × (p < n) × (q < n) × FiniteElsewhere m n p q a.now × (ss.now ≡ squares m n a.now) × (length ss.now ≡ n) }
    ensures { result ≡ stage_of (stored a.now) }
{
    let first = numbers::is_finite(ss[p]);
    let second = numbers::is_finite(ss[q]);
    if first & second {
        return Ok(());
    }
    lists::stored(a)
}

// The same by a look at both columns.
#[tactic(auto, using(crate::proofs::TwoColumns::two_finite))]
pub fn stored_but(a: &[f64], m: usize, n: usize, p: usize, q: usize) -> Result<(), usize>
    requires { (length a.now ≡ n * m) × (p < n) × (q < n) × FiniteElsewhere m n p q a.now }
    ensures { result ≡ stage_of (stored a.now) }
{
    let first = column_finite(a, m, n, p);
    let second = column_finite(a, m, n, q);
    if first & second {
        return Ok(());
    }
    lists::stored(a)
}
