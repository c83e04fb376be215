// A Jacobi rotation: its angle, pairs of numbers turned by it, and the basis as it starts.
#![tactic(auto)]

ghost use Rattle.std.specs.Prelude.{◌≡◌, ◌+◌, ◌*◌, ◌<◌, length};
ghost use Rattle.cutform.specs.Rotation.{tangent_of, slope_of, cosine_of, eye};
ghost use Rattle.rotation.specs.Pairs.{turn_pair, turn_pairs};

// What the tangent is taken of.
#[tactic(auto, unfolding(cutform::specs::Rotation::slope_of))]
pub fn slope(low: f64, high: f64, off: f64) -> f64
    ensures { result ≡ slope_of low high off }
{
    (high - low) / (2.0 * off)
}

#[tactic(auto, unfolding(cutform::specs::Rotation::tangent_of, lists::specs::Lists::pick))]
pub fn tangent(x: f64) -> f64
    ensures { result ≡ tangent_of x }
{
    let w = numbers::root(1.0 + x * x);
    if 0.0 <= x {
        1.0 / (x + w)
    } else {
        1.0 / (x - w)
    }
}

#[tactic(auto, unfolding(cutform::specs::Rotation::cosine_of))]
pub fn cosine(t: f64) -> f64
    ensures { result ≡ cosine_of t }
{
    1.0 / numbers::root(1.0 + t * t)
}

// The numbers at a and b.
#[tactic(auto, unfolding(crate::specs::Pairs::turn_pair))]
fn turn_pair(l: &mut [f64], a: usize, b: usize, c: f64, s: f64)
    requires { (a < length l.old) × (b < length l.old) }
    ensures { l.new ≡ turn_pair a b c s l.old }
{
    let x = l[a];
    let y = l[b];
    l[a] = c * x - s * y;
    l[b] = s * x + c * y;
}

// m pairs: the first numbers from a on, the second ones from b on, `step` apart. So are turned two columns of rows of `step`,
// and, one apart, two rows.
#[tactic(auto, using(lists::proofs::Turns::turns), unfolding(crate::specs::Pairs::turn_pairs))]
pub fn turn_pairs(l: &mut [f64], m: usize, step: usize, a: usize, b: usize, c: f64, s: f64)
    requires { (a + m * step < length l.old + step) × (b + m * step < length l.old + step) }
    ensures { l.new ≡ turn_pairs m step a b c s l.old }
{
    for r in 0..m {
        turn_pair(l, r * step + a, r * step + b, c, s);
    }
}

// 1 on the diagonal, +0 elsewhere.
pub fn eye(v: &mut [f64], n: usize)
    requires { length v.old ≡ n * n }
    ensures { v.new ≡ eye n }
{
    v.fill(0.0);
    for i in 0..n {
        v[i * n + i] = 1.0;
    }
}
