// Passes over stored columns of which no number is looked at before a pass ends: what is finite then was finite all along. Where
// something isn't, all is done again by `careful`, with a look after each rotation: so the refusal tells the first such number.
// Two rows of a pass go in step, the second a column behind the first: their four columns differ, so neither waits for the other.
#![tactic(auto)]

pub mod careful;

ghost use Rattle.std.specs.Prelude.{◌≡◌, Bool, true, false, ◌&&◌, ◌+◌, ◌-◌, ◌*◌, ◌≤◌, ◌<◌, length, Ok, is_none, IfSome};
ghost use Rattle.answers.specs.Outcome.{outcome_of};
ghost use Rattle.lists.specs.Floats.{at, all_finite};
ghost use Rattle.cutform.specs.Rotation.{eye};
ghost use Rattle.pairform.specs.Columns.{dot, skipped};
ghost use Rattle.columns.specs.Loops.{squares};
ghost use Rattle.pairform.specs.Passes.{svd, Pass, passed, made, orthogonalized};
ghost use Rattle.passes.specs.Loops.{Held};
ghost use Rattle.passes.specs.Free.{rotate_free, row_free, pass_free, Squared, Beside, plan_of, plan_at, by_plan, in_step, Paced};

// The cosine and the sine of the angle by which a pair is turned.
#[derive(Clone, Copy)]
pub struct Angle {
    pub c: f64,
    pub s: f64,
}

// The plan of a pair: its angle, unless it is skipped.
fn angled(skip: bool, alpha: f64, low: f64, high: f64) -> Option<Angle>
    requires { skip ≡ skipped alpha low high }
    ensures { result ≡ plan_of alpha low high }
{
    if skip {
        return None;
    }
    let t = rotation::tangent(rotation::slope(low, high, alpha));
    let c = rotation::cosine(t);
    Some(Angle { c, s: c * t })
}

fn planned(alpha: f64, low: f64, high: f64) -> Option<Angle>
    ensures { result ≡ plan_of alpha low high }
{
    angled(columns::skipped(alpha, low, high), alpha, low, high)
}

// The plan of columns p and w as they stand.
fn plan_at(a: &[f64], ss: &[f64], m: usize, n: usize, p: usize, w: usize) -> Option<Angle>
    requires { Squared m n a.now ss.now × (p < n) × (w < n) }
    ensures { result ≡ plan_at m a.now p w }
{
    planned(columns::dot(a, m, n, p, w), ss[p], ss[w])
}

// The plans of two pairs that go in step, and whether no pair has been turned yet.
#[derive(Clone, Copy)]
pub struct Pace {
    pub first: Option<Angle>,
    pub second: Option<Angle>,
    pub quiet: bool,
}

// Two angles, each of their roots beside the other's, so that neither waits.
fn two_angles(
    alpha: f64,
    low: f64,
    high: f64,
    beta: f64,
    lower: f64,
    higher: f64,
    quiet: bool,
) -> Pace
    requires { (skipped alpha low high ≡ false) × (skipped beta lower higher ≡ false) }
    ensures { (result.first ≡ plan_of alpha low high) × (result.second ≡ plan_of beta lower higher) × (result.quiet ≡ quiet) }
{
    let x = rotation::slope(low, high, alpha);
    let y = rotation::slope(lower, higher, beta);
    let t = rotation::tangent(x);
    let u = rotation::tangent(y);
    let c = rotation::cosine(t);
    let d = rotation::cosine(u);
    Pace {
        first: Some(Angle { c, s: c * t }),
        second: Some(Angle { c: d, s: d * u }),
        quiet,
    }
}

fn two_planned(
    alpha: f64,
    low: f64,
    high: f64,
    beta: f64,
    lower: f64,
    higher: f64,
    quiet: bool,
) -> Pace
    ensures { (result.first ≡ plan_of alpha low high) × (result.second ≡ plan_of beta lower higher) × (result.quiet ≡ quiet) }
{
    let one = columns::skipped(alpha, low, high);
    let other = columns::skipped(beta, lower, higher);
    if one | other {
        return Pace {
            first: angled(one, alpha, low, high),
            second: angled(other, beta, lower, higher),
            quiet,
        };
    }
    two_angles(alpha, low, high, beta, lower, higher, quiet)
}

// Three sums.
#[derive(Clone, Copy)]
struct Sums {
    first: f64,
    second: f64,
    third: f64,
}

// The sums of squares of columns p and q, and that of column p times column w, in one loop: none waits for another.
fn three_sums(a: &[f64], m: usize, n: usize, p: usize, q: usize, w: usize) -> Sums
    requires { (length a.now ≡ n * m) × (p < n) × (q < n) × (w < n) }
    ensures { (result.first ≡ dot m a.now p p) × (result.second ≡ dot m a.now q q) × (result.third ≡ dot m a.now p w) }
{
    let mut first = 0.0;
    let mut second = 0.0;
    let mut third = 0.0;
    for row in 0..m {
        let x = a[p * m + row];
        let y = a[q * m + row];
        first = first + x * x;
        second = second + y * y;
        third = third + x * a[w * m + row];
    }
    Sums {
        first,
        second,
        third,
    }
}

// Columns p and q turned by their plan, their sums of squares anew; and the sum of column p times column w, for the next plan.
fn spin(
    a: &mut [f64],
    ss: &mut [f64],
    m: usize,
    n: usize,
    p: usize,
    q: usize,
    w: usize,
    k: Option<Angle>,
) -> f64
    requires { Squared m n a.old ss.old × (p < q) × (q < n) × (w < n) }
    ensures { (a.new ≡ by_plan m n p q k a.old) × Squared m n a.new ss.new × (result ≡ dot m a.new p w) }
{
    let Some(x) = k else {
        return columns::dot(a, m, n, p, w);
    };
    columns::turn(a, m, n, p, q, x.c, x.s);
    let s = three_sums(a, m, n, p, q, w);
    ss[p] = s.first;
    ss[q] = s.second;
    s.third
}

// The basis turned by the plan of columns p and q. No plan waits for it, so it comes behind the next plan.
fn turn_basis(v: &mut [f64], n: usize, p: usize, q: usize, k: Option<Angle>)
    requires { (length v.old ≡ n * n) × (p < q) × (q < n) }
    ensures { v.new ≡ by_plan n n p q k v.old }
{
    if let Some(x) = k {
        columns::turn(v, n, n, p, q, x.c, x.s);
    }
}

// The column behind q, or q where it is the last.
fn following(q: usize, n: usize) -> usize
    requires { q < n }
    ensures { (result < n) × (q ≤ result) × (q + 1 < n → result ≡ q + 1) }
{
    if q + 1 < n {
        return q + 1;
    }
    q
}

// The pair (p, q) by its plan k, and the plan for the next pair.
fn step(
    a: &mut [f64],
    v: &mut [f64],
    ss: &mut [f64],
    m: usize,
    n: usize,
    p: usize,
    q: usize,
    k: Option<Angle>,
) -> Option<Angle>
    requires { Beside m n a.old v.old ss.old × (p < q) × (q < n) × (k ≡ plan_at m a.old p q) }
    ensures b_after { (b : Bool) →
        passed (svd a.new v.new) (is_none k && b) ≡ rotate_free m n p q (passed (svd a.old v.old) b) }
    ensures beside { Beside m n a.new v.new ss.new × (q + 1 < n → result ≡ plan_at m a.new p (q + 1)) }
{
    let w = following(q, n);
    let alpha = spin(a, ss, m, n, p, q, w, k);
    let next = planned(alpha, ss[p], ss[w]);
    turn_basis(v, n, p, q, k);
    next
}

// The next plans of two rows: alpha is the sum of column p times column w, beta that of column p + 1 times column q.
fn next_pace(ss: &[f64], p: usize, q: usize, w: usize, alpha: f64, beta: f64, quiet: bool) -> Pace
    requires { (p + 1 < length ss.now) × (q < length ss.now) × (w < length ss.now) }
    ensures planned { result.first ≡ plan_of alpha (at ss.now p) (at ss.now w) }
    ensures planned_2 { (result.second ≡ plan_of beta (at ss.now (p + 1)) (at ss.now q)) × (result.quiet ≡ quiet) }
{
    two_planned(alpha, ss[p], ss[w], beta, ss[p + 1], ss[q], quiet)
}

// Columns p and q, then columns p + 1 and q - 1 turned by their plans, and the plans for the next two pairs.
fn spin_two(a: &mut [f64], ss: &mut [f64], m: usize, n: usize, p: usize, q: usize, k: Pace) -> Pace
    requires { Paced m n p q a.old ss.old k × (p + 3 ≤ q) × (q < n) }
    ensures a_after { a.new ≡ by_plan m n (p + 1) (q - 1) k.second (by_plan m n p q k.first a.old) }
    ensures paced { Paced m n p (q + 1) a.new ss.new result × (result.quiet ≡ (is_none k.second && (is_none k.first && k.quiet))) }
{
    let w = following(q, n);
    let alpha = spin(a, ss, m, n, p, q, w, k.first);
    let beta = spin(a, ss, m, n, p + 1, q - 1, q, k.second);
    let quiet = k.second.is_none() & (k.first.is_none() & k.quiet);
    next_pace(ss, p, q, w, alpha, beta, quiet)
}

fn turn_two(v: &mut [f64], n: usize, p: usize, q: usize, k: Pace)
    requires { (length v.old ≡ n * n) × (p + 3 ≤ q) × (q < n) }
    ensures { v.new ≡ by_plan n n (p + 1) (q - 1) k.second (by_plan n n p q k.first v.old) }
{
    turn_basis(v, n, p, q, k.first);
    turn_basis(v, n, p + 1, q - 1, k.second);
}

// The pairs (p, q) and (p + 1, q - 1) by their plans, and the plans for the next two.
fn both(
    a: &mut [f64],
    v: &mut [f64],
    ss: &mut [f64],
    m: usize,
    n: usize,
    p: usize,
    q: usize,
    k: Pace,
) -> Pace
    requires { Paced m n p q a.old ss.old k × (length v.old ≡ n * n) × (p + 3 ≤ q) × (q < n) }
    ensures quiet_after { passed (svd a.new v.new) result.quiet
        ≡ rotate_free m n (p + 1) (q - 1) (rotate_free m n p q (passed (svd a.old v.old) k.quiet)) }
    ensures paced { Paced m n p (q + 1) a.new ss.new result × (length v.new ≡ n * n) }
{
    let next = spin_two(a, ss, m, n, p, q, k);
    turn_two(v, n, p, q, k);
    next
}

// The first two pairs of row p, after which row p + 1 can follow.
fn lead(
    a: &mut [f64],
    v: &mut [f64],
    ss: &mut [f64],
    m: usize,
    n: usize,
    p: usize,
    still: bool,
) -> Pace
    requires { Beside m n a.old v.old ss.old × (p + 2 < n) }
    ensures quiet_after { passed (svd a.new v.new) result.quiet ≡ in_step m n p (p + 3) (passed (svd a.old v.old) still) }
    ensures paced { Paced m n p (p + 3) a.new ss.new result × (length v.new ≡ n * n) }
{
    let one = plan_at(a, ss, m, n, p, p + 1);
    let two = step(a, v, ss, m, n, p, p + 1, one);
    let first = step(a, v, ss, m, n, p, p + 2, two);
    let second = plan_at(a, ss, m, n, p + 1, p + 2);
    Pace {
        first,
        second,
        quiet: two.is_none() & (one.is_none() & still),
    }
}

// The pairs of rows p and p + 1 from the plans of (p, p + 3) and (p + 1, p + 2) on, but the last of row p + 1.
fn abreast(
    a: &mut [f64],
    v: &mut [f64],
    ss: &mut [f64],
    m: usize,
    n: usize,
    p: usize,
    begun: Pace,
) -> Pace
    requires { Paced m n p (p + 3) a.old ss.old begun × (length v.old ≡ n * n) × (p + 2 < n) }
    ensures quiet_after { (x : Pass) → passed (svd a.old v.old) begun.quiet ≡ in_step m n p (p + 3) x →
        passed (svd a.new v.new) result.quiet ≡ in_step m n p n x }
    ensures paced { Paced m n p n a.new ss.new result × (length v.new ≡ n * n) }
{
    let mut k = begun;
    for q in p + 3..n {
        k = both(a, v, ss, m, n, p, q, k);
    }
    k
}

// The pairs of rows p and p + 1: whether no pair has been turned yet.
fn two_rows(
    a: &mut [f64],
    v: &mut [f64],
    ss: &mut [f64],
    m: usize,
    n: usize,
    p: usize,
    still: bool,
) -> bool
    requires { Beside m n a.old v.old ss.old × (p + 2 < n) }
    ensures result_after { passed (svd a.new v.new) result
        ≡ row_free m n (p + 1) (row_free m n p (passed (svd a.old v.old) still)) }
    ensures beside { Beside m n a.new v.new ss.new }
{
    let begun = lead(a, v, ss, m, n, p, still);
    let k = abreast(a, v, ss, m, n, p, begun);
    step(a, v, ss, m, n, p + 1, n - 1, k.second);
    k.second.is_none() & k.quiet
}

// The pairs (p, q) of one p.
fn row(
    a: &mut [f64],
    v: &mut [f64],
    ss: &mut [f64],
    m: usize,
    n: usize,
    p: usize,
    still: bool,
) -> bool
    requires { Beside m n a.old v.old ss.old × (p < n) }
    ensures { (passed (svd a.new v.new) result ≡ row_free m n p (passed (svd a.old v.old) still))
        × Beside m n a.new v.new ss.new }
{
    let w = following(p, n);
    let mut k = plan_at(a, ss, m, n, p, w);
    let mut quiet = still;
    for q in p + 1..n {
        quiet = k.is_none() & quiet;
        k = step(a, v, ss, m, n, p, q, k);
    }
    quiet
}

// One pass: whether it turned no pair. Rows go two by two, as long as there are three columns more, and the last ones one by one.
fn pass(a: &mut [f64], v: &mut [f64], ss: &mut [f64], m: usize, n: usize) -> bool
    requires { Beside m n a.old v.old ss.old }
    ensures { (passed (svd a.new v.new) result ≡ pass_free m n (passed (svd a.old v.old) true))
        × Beside m n a.new v.new ss.new }
{
    let mut p = 0;
    let mut quiet = true;
    // The last rows begin where the pairs of rows end, so p is counted by hand.
    while p + 2 < n {
        quiet = two_rows(a, v, ss, m, n, p, quiet);
        p += 2;
    }
    for last in p..n {
        quiet = row(a, v, ss, m, n, last, quiet);
    }
    quiet
}

const MOST_PASSES: usize = 100;

fn both_finite(v: &[f64], ss: &[f64]) -> bool
    ensures { result ≡ true → (all_finite v.now ≡ true) × (all_finite ss.now ≡ true) }
{
    lists::all_finite(ss) && lists::all_finite(v)
}

// At most 100 passes, a quiet one being the last: the passes made, as long as all numbers are finite after each.
fn quick_passes(a: &mut [f64], v: &mut [f64], ss: &mut [f64], m: usize, n: usize) -> Option<usize>
    requires { Held m n a.old v.old ss.old }
    ensures { IfSome result (λ c. (orthogonalized m n (svd a.old v.old) ≡ Ok (made c (svd a.new v.new)))
        × (ss.new ≡ squares m n a.new)) }
{
    let mut quiet = false;
    for count in 0..MOST_PASSES {
        if quiet {
            return Some(count);
        }
        quiet = pass(a, v, ss, m, n);
        if !both_finite(v, ss) {
            return None;
        }
    }
    Some(MOST_PASSES)
}

// The passes made; where a number isn't finite, all from the start again, with a look at each rotation; b keeps the columns for that.
pub fn orthogonalize(
    a: &mut [f64],
    v: &mut [f64],
    ss: &mut [f64],
    b: &mut [f64],
    m: usize,
    n: usize,
) -> Result<usize, usize>
    requires { Held m n a.old v.old ss.old × (v.old ≡ eye n) × (length b.old ≡ n * m) }
    ensures { (orthogonalized m n (svd a.old v.old)
        ≡ outcome_of result (λ c. made c (svd a.new v.new))) × (ss.new ≡ squares m n a.new) }
{
    lists::copy(a, b);
    if let Some(count) = quick_passes(a, v, ss, m, n) {
        return Ok(count);
    }
    lists::copy(b, a);
    rotation::eye(v, n);
    columns::square(a, m, n, ss);
    careful::orthogonalize(a, v, ss, m, n)
}
