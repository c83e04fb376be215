// A block of n rows of rr numbers, written on as its axis' boundary asks.
ghost use Rattle.std.specs.Prelude.{◌≡◌, ◌+◌, ◌*◌, ◌≤◌, ◌++◌, length};
ghost use Rattle.shape.specs.Limits.{most_points};
ghost use Rattle.shift.specs.Unrolled.{period, backwards_of, unrolled_of};

// After how many points an index comes again.
#[tactic(auto, using(crate::proofs::Unrolled::periods))]
pub fn period(boundary: usize, n: usize) -> usize
    requires { n ≤ most_points }
    ensures { result ≡ period boundary n }
{
    if boundary == stepform::REFLECTING {
        return 2 * n;
    }
    n
}

// s twice.
#[tactic(auto, using(crate::proofs::Unrolled::in_parts))]
fn twice(s: &[f64], d: &mut [f64])
    requires { length d.old ≡ length s.now + length s.now }
    ensures { d.new ≡ s.now ++ s.now }
{
    let h = s.len();
    lists::copy(s, &mut d[..h]);
    lists::copy(s, &mut d[h..]);
}

// The rows of s from the last to the first.
#[tactic(auto, using(crate::proofs::Around::rows), unfolding(crate::specs::Unrolled::backwards_of))]
fn backwards(s: &[f64], n: usize, rr: usize, d: &mut [f64])
    requires { (length s.now ≡ n * rr) × (length d.old ≡ n * rr) }
    ensures { d.new ≡ backwards_of s.now n rr }
{
    let h = s.len();
    for q in 0..n {
        let to = q * rr;
        let end = to + rr;
        let from = h - end;
        let stop = h - to;
        lists::copy(&s[from..stop], &mut d[to..end]);
    }
}

// s backwards, and s.
#[tactic(auto, using(crate::proofs::Unrolled::in_parts))]
fn back_and_again(s: &[f64], n: usize, rr: usize, d: &mut [f64])
    requires { (length s.now ≡ n * rr) × (length d.old ≡ length s.now + length s.now) }
    ensures { d.new ≡ backwards_of s.now n rr ++ s.now }
{
    let h = s.len();
    backwards(s, n, rr, &mut d[..h]);
    lists::copy(s, &mut d[h..]);
}

// s, s backwards, and s.
#[tactic(auto, using(crate::proofs::Unrolled::in_parts))]
fn there_and_back(s: &[f64], n: usize, rr: usize, d: &mut [f64])
    requires { (length s.now ≡ n * rr) × (length d.old ≡ length s.now + (length s.now + length s.now)) }
    ensures { d.new ≡ s.now ++ (backwards_of s.now n rr ++ s.now) }
{
    let h = s.len();
    lists::copy(s, &mut d[..h]);
    back_and_again(s, n, rr, &mut d[h..]);
}

// The rows of s, and behind them those that an index beyond the last comes to.
#[tactic(auto, using(crate::proofs::Unrolled::unrolling))]
pub fn unroll(s: &[f64], n: usize, rr: usize, boundary: usize, d: &mut [f64])
    requires { (1 ≤ n) × (length s.now ≡ n * rr) × (length d.old ≡ (period boundary n + n) * rr) }
    ensures { d.new ≡ unrolled_of boundary s.now n rr }
{
    if boundary == stepform::REFLECTING {
        there_and_back(s, n, rr, d);
        return;
    }
    twice(s, d);
}
