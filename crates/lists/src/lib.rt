// Lists of numbers in lent slices: fill, copy, the search for a first place that fails a test or for a number that isn't finite, strips.
#![tactic(auto)]

ghost use Rattle.std.specs.Prelude.{◌≡◌, true, Bool, ℕ, ◌+◌, ◌*◌, ◌≤◌, ◌<◌, length, take, replicate};
ghost use Rattle.numbers.specs.Finite.{finite};
ghost use Rattle.numbers.specs.Arithmetic.{zero64};
ghost use Rattle.answers.specs.Outcome.{stage_of, demand_each};
ghost use Rattle.answers.specs.declared.Refusal.{Refusal};
ghost use Rattle.lists.specs.Lists.{first_not};
ghost use Rattle.lists.specs.Floats.{at, sum_to, all_finite, first_not_finite, stored};
ghost use Rattle.lists.specs.Slots.{fit};
ghost use Rattle.lists.specs.Strips.{strip_width, stored_from};

use answers::Refusal;

// Every number of s becomes v.
pub fn fill(s: &mut [f64], v: f64)
    ensures { s.new ≡ replicate (length s.old) v }
{
    s.fill(v);
}

// The numbers of s go to d, which is as long.
pub fn copy(s: &[f64], d: &mut [f64])
    requires { length s.now ≡ length d.old }
    ensures { d.new ≡ s.now }
{
    // `copy_from_slice` would ask the C library for `memmove`, which an archive for C needs nowhere else.
    for i in 0..s.len() {
        d[i] = s[i];
    }
}

// The first n numbers of s stand at the front of d, +0 behind them.
#[tactic(auto, using(crate::proofs::Slots::filled_front))]
pub fn fit(s: &[f64], n: usize, d: &mut [f64])
    requires { (n ≤ length s.now) × (n ≤ length d.old) }
    ensures { d.new ≡ fit zero64 (length d.old) (take n s.now) }
{
    fill(d, 0.0);
    copy(&s[..n], &mut d[..n]);
}

// The sums of every eighth of the first 8 k numbers, from each of the first eight on: the eight wait for nothing, and are compiled as four pairs.
fn eight_sums(s: &[f64], k: usize) -> [f64; 8]
    requires { k * 8 ≤ length s.now }
    ensures { (length result ≡ 8) × ((c : ℕ) → c < 8 → at result c ≡ sum_to k (λ (i : ℕ). at s.now (i * 8 + c))) }
{
    let mut sums = [0.0; 8];
    for j in 0..k {
        for c in 0..8 {
            sums[c] = sums[c] + s[j * 8 + c];
        }
    }
    sums
}

// Whether all are finite, by a look at each: a flag kept to the end costs a third of what an early return does.
fn each_finite(s: &[f64]) -> bool
    ensures { result ≡ all_finite s.now }
{
    let mut all = true;
    for x in s {
        let one = numbers::is_finite(*x);
        all = all & one;
    }
    all
}

// Below this many numbers, a look at each costs less than eight sums.
const FEW: usize = 32;

// How many of the first numbers are finite by their sums alone: a finite sum has finite terms.
fn settled(s: &[f64]) -> usize
    ensures { (result ≤ length s.now) × ((j : ℕ) → j < result → finite (at s.now j) ≡ true) }
{
    if s.len() < FEW {
        return 0;
    }
    let k = s.len() / 8;
    let sums = eight_sums(s, k);
    if each_finite(&sums) {
        return k * 8;
    }
    0
}

// Whether all are finite: only those that their sums don't settle are looked at one by one.
pub fn all_finite(s: &[f64]) -> bool
    ensures { result ≡ all_finite s.now }
{
    each_finite(&s[settled(s)..])
}

// The first k below n at which `passes` answers false, or n: that of any test q that the answers tell.
pub fn first_not<F: Fn(usize) -> bool>(n: usize, passes: F) -> usize
    requires { (k : ℕ) → k < n → F.pre passes k }
    ensures { (q : ℕ → Bool) → ((k : ℕ) (r : Bool) → k < n → F.post passes k r → r ≡ q k) → result ≡ first_not q n }
{
    for k in 0..n {
        if !passes(k) {
            return k;
        }
    }
    n
}

// The refusal of the first k below n at which `passes` answers false, if there is one.
pub fn demand_each<F: Fn(usize) -> bool, R: Fn(usize) -> Refusal>(
    n: usize,
    passes: F,
    refusal: R,
) -> Result<(), Refusal>
    requires tests { (k : ℕ) → k < n → F.pre passes k }
    requires refusals { (k : ℕ) → k < n → R.pre refusal k }
    ensures { (q : ℕ → Bool) (r : ℕ → Refusal) → ((k : ℕ) (b : Bool) → k < n → F.post passes k b → b ≡ q k)
        → ((k : ℕ) (x : Refusal) → k < n → R.post refusal k x → x ≡ r k) → result ≡ demand_each r q n 0 }
{
    let k = first_not(n, passes);
    if k < n {
        return Err(refusal(k));
    }
    Ok(())
}

// The index of the first number that isn't finite, or the length.
pub fn first_not_finite(s: &[f64]) -> usize
    ensures { result ≡ first_not_finite s.now }
{
    first_not(s.len(), |i| numbers::is_finite(s[i]))
}

// Whether the numbers can stay stored; the index is looked for only once there is one.
#[tactic(auto, using(crate::proofs::Seen::stages))]
pub fn stored(s: &[f64]) -> Result<(), usize>
    ensures { result ≡ stage_of (stored s.now) }
{
    if all_finite(s) {
        return Ok(());
    }
    Err(first_not_finite(s))
}

// The widest strip of sums that a loop keeps in registers.
pub const STRIP: usize = 8;

// The first h sums go to out, from e on.
#[tactic(auto, using(crate::proofs::Turns::turns), unfolding(crate::specs::Strips::stored_from))]
pub fn store_sums(sums: &[f64; STRIP], h: usize, out: &mut [f64], e: usize)
    requires { (h ≤ strip_width) × (e + h ≤ length out.old) }
    ensures { out.new ≡ stored_from e h (at sums.now) out.old }
{
    for t in 0..h {
        out[e + t] = sums[t];
    }
}
