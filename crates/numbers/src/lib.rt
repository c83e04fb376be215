// What the work needs of single numbers: whether an f64 is finite, its square root, magnitude and floor by the
// digits of its bit pattern, the floor as an integer with what is left above it, and integers modulo n.
#![tactic(auto)]

ghost use Rattle.std.specs.Prelude.{◌≡◌, true, ◌+◌, ◌*◌, ◌^◌, ◌≤◌, ◌<◌, pos, ◌+ℤ◌, ◌-ℤ◌, nat_abs};
ghost use Rattle.std.specs.Float.{binary64};
ghost use Rattle.std.specs.Float.Ieee.{of_bits};
ghost use Rattle.numbers.specs.Finite.{finite};
ghost use Rattle.numbers.specs.Root.{root_of, root_of_units};
ghost use Rattle.numbers.specs.Steps.{units_of, Parted, Leaves, Refinable, Halved, CutTo};
ghost use Rattle.numbers.specs.Floor.{floor_of};
ghost use Rattle.numbers.specs.Magnitude.{magnitude_of};
ghost use Rattle.numbers.specs.Whole.{in_reach, whole_in_reach, fraction_of};
ghost use Rattle.numbers.specs.Residues.{wrap};

// Whether x is neither a NaN nor an infinity.
#[tactic(auto, using(crate::proofs::Library::library_finite))]
pub fn is_finite(x: f64) -> bool
    ensures { result ≡ finite x }
{
    x.is_finite()
}

// A whole root and what its square leaves.
#[derive(Clone, Copy)]
struct Rooted {
    q: u64,
    rem: u64,
}

// q + d, if that is no more than the root of n, and else q. A choice of two numbers, so that no branch is
// compiled, which could not be foretold.
fn grown(n: u64, q: u64, d: u64) -> u64
    requires { (q * q ≤ n) × (n < (q + d + d) * (q + d + d)) × (q + d < 128) }
    ensures { (result * result ≤ n) × (n < (result + d) * (result + d)) × (result ≤ q + d) }
{
    let r = q + d;
    if r * r <= n { r } else { q }
}

// The whole root of a number of 13 or 14 digits, digit by digit.
fn small_root(n: u64) -> Rooted
    requires { (2 ^ 12 ≤ n) × (n < 2 ^ 14) }
    ensures { Leaves n result.q result.rem }
{
    let a = grown(n, 64, 32);
    let b = grown(n, a, 16);
    let c = grown(n, b, 8);
    let d = grown(n, c, 4);
    let e = grown(n, d, 2);
    let q = grown(n, e, 1);
    Rooted { q, rem: n - q * q }
}

// From a number's root to that of the number with two more digits of k bits, `high` and `low`: one
// division gives the root's next digit, at most one too large (Zimmermann's Karatsuba square root).
fn refine(r: Rooted, high: u64, low: u64, k: u64) -> Rooted
    requires { Refinable r.q r.rem high low k }
    ensures { Leaves ((r.q * r.q + r.rem) * (2 ^ k * 2 ^ k) + high * 2 ^ k + low) result.q result.rem }
{
    let t = r.rem << k | high;
    let d = r.q * 2;
    let b = t / d;
    let v = t % d << k | low;
    let g = (r.q << k) + b;
    let square = b * b;
    if v < square {
        Rooted {
            q: g - 1,
            rem: v + (g * 2 - 1) - square,
        }
    } else {
        Rooted {
            q: g,
            rem: v - square,
        }
    }
}

// The whole root of an m of 53 or 54 digits, from that of its 14 leading digits: each step doubles them.
fn slow_root(m: u64) -> Rooted
    requires { (2 ^ 52 ≤ m) × (m < 2 ^ 54) }
    ensures { Leaves m result.q result.rem }
{
    let a = small_root(m >> 40);
    let b = refine(a, m >> 33 & 0x7f, m >> 26 & 0x7f, 7);
    refine(b, m >> 13 & 0x1fff, m & 0x1fff, 13)
}

// A guess at the 53 digits of the root of what a pattern stands for. The inverse of the root is had from
// the pattern, mended by three steps of Newton's method. Of the root that it gives 26 digits are kept, by
// a product with 2^27 + 1, whose square is exact, and what they leave gives the others, with a second step
// for what the first leaves. What the guess is worth its square tells.
fn guess(bits: u64) -> u64
    requires { bits < 0x7ff0_0000_0000_0000 }
    ensures { (2 ^ 52 ≤ result) × (result < 2 ^ 53) }
{
    let x = f64::from_bits(bits);
    let h = x * 0.5;
    let a = f64::from_bits(0x5fe6_eb50_c7b5_37a9 - bits / 2);
    let b = a * 1.5 - h * a * (a * a);
    let c = b * 1.5 - h * b * (b * b);
    let d = c * 1.5 - h * c * (c * c);
    let w = x * d;
    let t = w * 134217729.0;
    let s = t - (t - w);
    let e = d * 0.5;
    let k = (x - s * s) * e;
    let g = s + (k + k * (k * e));
    if g != g {
        return 0x10_0000_0000_0000;
    }
    f64::to_bits(g) % 0x10_0000_0000_0000 + 0x10_0000_0000_0000
}

// Whether g * g is so near m * 2^52 that g is the root of that, rounded. Of g, which has two digits of 26
// bits, the square is made digit by digit.
fn near(m: u64, g: u64) -> bool
    requires { (m < 2 ^ 54) × (2 ^ 52 ≤ g) × (g < 2 ^ 53) }
    ensures { result ≡ true → (g * g < m * 2 ^ 52 + g) × (m * 2 ^ 52 ≤ g * g + g) }
{
    let high = g / 0x400_0000;
    let low = g % 0x400_0000;
    let square = high * high;
    if m < square {
        return false;
    }
    let left = m - square;
    if left >= 0x10_0000_0000 {
        return false;
    }
    let room = left * 0x400_0000 + 0x800_0000;
    let cross = high * low * 2;
    if room < cross {
        return false;
    }
    let rest = room - cross;
    if rest >= 0x4000_0000 {
        return false;
    }
    let have = rest * 0x400_0000 + g;
    let want = low * low + 0x20_0000_0000_0000;
    if have <= want {
        return false;
    }
    have <= want + g * 2
}

// The largest q with q * q <= m * 2^54, for an m of 53 or 54 digits.
fn wide_root(m: u64) -> u64
    requires { (2 ^ 52 ≤ m) × (m < 2 ^ 54) }
    ensures { (result * result ≤ m * 2 ^ 54) × (m * 2 ^ 54 < (result + 1) * (result + 1)) × (result < 2 ^ 54) }
{
    let r = refine(slow_root(m), 0, 0, 27);
    r.q
}

// Half of that, rounded: the guess where it is right.
fn half_root(m: u64, g: u64) -> u64
    requires { (2 ^ 52 ≤ m) × (m < 2 ^ 54) × (2 ^ 52 ≤ g) × (g < 2 ^ 53) }
    ensures { Halved m result }
{
    if near(m, g) {
        return g;
    }
    (wide_root(m) + 1) >> 1
}

// A number m * 2^(e - 1126) with an m of 53 digits.
#[derive(Clone, Copy)]
struct Split {
    m: u64,
    e: u64,
}

// The number that a pattern above 0 and below the infinity's stands for.
fn parts(bits: u64) -> Split
    requires { (0 < bits) × (bits < 0x7ff0_0000_0000_0000) }
    ensures { Parted bits result.m result.e }
{
    let field = bits >> 52;
    let digits = bits & 0xf_ffff_ffff_ffff;
    if field > 0 {
        Split {
            m: digits | 0x10_0000_0000_0000,
            e: field + 51,
        }
    } else {
        let z = u64::leading_zeros(digits) - 11;
        Split {
            m: digits << z,
            e: 52 - z as u64,
        }
    }
}

// The pattern of the root of what a pattern stands for: the root's last digit says which way to round.
fn root_bits(bits: u64) -> u64
    requires { (0 < bits) × (bits < 0x7ff0_0000_0000_0000) }
    ensures { (result < 0x7ff0_0000_0000_0000) × (of_bits binary64 result ≡ root_of_units (units_of bits)) }
{
    let p = parts(bits);
    let r = half_root(p.m << (p.e & 1), guess(bits));
    ((p.e >> 1) + 486) << 52 | r & 0xf_ffff_ffff_ffff
}

// The square root of x, rounded to the nearest f64.
pub fn root(x: f64) -> f64
    ensures { result ≡ root_of x }
{
    if x != x {
        return x;
    }
    let bits = f64::to_bits(x);
    if bits == 0 {
        return x;
    }
    if bits < 0x7ff0_0000_0000_0000 {
        return f64::from_bits(root_bits(bits));
    }
    if bits == 0x7ff0_0000_0000_0000 {
        return x;
    }
    if bits == 0x8000_0000_0000_0000 {
        return x;
    }
    0.0 / 0.0
}

// x without its sign.
pub fn magnitude(x: f64) -> f64
    ensures { result ≡ magnitude_of x }
{
    if x != x {
        return x;
    }
    f64::from_bits(f64::to_bits(x) & 0x7fff_ffff_ffff_ffff)
}

// The pattern of what a pattern with no sign, below that of 2^52, stands for, cut to a whole number:
// toward zero, or away from it.
fn whole_bits(bits: u64, away: bool) -> u64
    requires { bits < 0x4330_0000_0000_0000 }
    ensures { CutTo away bits result }
{
    if bits < 0x3ff0_0000_0000_0000 {
        if bits == 0 {
            return 0;
        }
        if away {
            return 0x3ff0_0000_0000_0000;
        }
        return 0;
    }
    let k = 1075 - (bits >> 52);
    let cut = bits >> k << k;
    if away {
        if cut < bits {
            return cut + (1 << k);
        }
    }
    cut
}

// The largest whole number that is not above x, and x itself where it is no number or infinite: from
// 2^52 on every f64 is whole.
pub fn floor(x: f64) -> f64
    ensures { result ≡ floor_of x }
{
    if x != x {
        return x;
    }
    let bits = f64::to_bits(x);
    let size = bits & 0x7fff_ffff_ffff_ffff;
    if size >= 0x4330_0000_0000_0000 {
        return x;
    }
    f64::from_bits(bits >> 63 << 63 | whole_bits(size, bits >> 63 == 1))
}

// Whether x is at most 2^31 in size, which no NaN is.
pub fn in_reach(x: f64) -> bool
    ensures { result ≡ in_reach x }
{
    x >= -2147483648.0 && x <= 2147483648.0
}

// The floor of an x within reach as an integer, and 0 for any other x. The floor -0 becomes +0, which the cast asks.
pub fn whole(x: f64) -> isize
    ensures { result ≡ whole_in_reach x }
{
    if in_reach(x) {
        (floor(x) + 0.0) as isize
    } else {
        0
    }
}

// What x has above its floor. The floor -0 becomes +0, as it does on the way through an integer.
#[tactic(auto, using(crate::proofs::Fractions::fraction_found, crate::proofs::Fractions::fraction_none))]
pub fn fraction(x: f64) -> f64
    ensures { result ≡ fraction_of x }
{
    if is_finite(x) {
        x - (floor(x) + 0.0)
    } else {
        x
    }
}

// i + s modulo n.
pub fn ahead(i: usize, s: usize, n: usize) -> usize
    requires { (0 < n) × (i ≤ 2 ^ 32) × (s ≤ 2 ^ 32) }
    ensures { result ≡ wrap n (pos i +ℤ pos s) }
{
    (i + s) % n
}

// i - s modulo n.
pub fn behind(i: usize, s: usize, n: usize) -> usize
    requires { (0 < n) × (n ≤ 2 ^ 32) × (i ≤ 2 ^ 32) }
    ensures { result ≡ wrap n (pos i -ℤ pos s) }
{
    (i + (n - s % n)) % n
}

// i plus a whole number, modulo n.
pub fn stepped(i: usize, by: isize, n: usize) -> usize
    requires { (0 < n) × (n ≤ 2 ^ 32) × (i ≤ 2 ^ 32) × (nat_abs by ≤ 2 ^ 32) }
    ensures { result ≡ wrap n (pos i +ℤ by) }
{
    let size = by.unsigned_abs();
    if by < 0 {
        behind(i, size, n)
    } else {
        ahead(i, size, n)
    }
}
