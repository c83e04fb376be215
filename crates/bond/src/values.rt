// Singular values, their order, how many are kept, and the largest that is not.
ghost use Rattle.std.specs.Prelude.{◌≡◌, true, ℕ, ◌*◌, ◌<◌, ◌≤◌, length, take};
ghost use Rattle.std.specs.Float.Ieee.{lt, eq};
ghost use Rattle.answers.specs.Outcome.{outcome_of};
ghost use Rattle.lists.specs.Lists.{count};
ghost use Rattle.lists.specs.Floats.{at, all_finite};
ghost use Rattle.shape.specs.Limits.{most_rank};
ghost use Rattle.bond.specs.declared.values.Kept.{Kept};
ghost use Rattle.bond.specs.Chosen.{chosen_of};
ghost use Rattle.cutform.specs.Values.{singular_of, singulars, place_in, order, sorted, threshold_of, kept_rank, dropped_from};

// The root of a diagonal entry, +0 where it isn't above zero.
fn singular(x: f64) -> f64
    ensures { result ≡ singular_of x }
{
    if 0.0 < x {
        return numbers::root(x);
    }
    0.0
}

pub fn singular_values(g: &[f64], n: usize, sv: &mut [f64])
    requires { (length g.now ≡ n * n) × (length sv.old ≡ n) }
    ensures { sv.new ≡ singulars n g.now }
{
    for i in 0..n {
        sv[i] = singular(g[i * n + i]);
    }
}

// How many of the first n lie above x.
fn count_above(l: &[f64], n: usize, x: f64) -> usize
    requires { n ≤ length l.now }
    ensures { (result ≡ count (λ (j : ℕ). lt x (at l.now j)) n) × (result ≤ n) }
{
    l[..n].iter().filter(|y| x < **y).count()
}

// How many of the first n are equal to x.
fn count_equal(l: &[f64], n: usize, x: f64) -> usize
    requires { n ≤ length l.now }
    ensures { (result ≡ count (λ (j : ℕ). eq (at l.now j) x) n) × (result ≤ n) }
{
    l[..n].iter().filter(|y| **y == x).count()
}

// Where value i stands once they are sorted: after the larger ones, and the equal ones before it.
fn place_of(sv: &[f64], n: usize, i: usize) -> usize
    requires { (length sv.now ≡ n) × (i < n) }
    ensures { result ≡ place_in n sv.now i }
{
    let x = sv[i];
    count_above(sv, n, x) + count_equal(sv, i, x)
}

// Each value's index goes to its place. No two have one place.
pub fn order(sv: &[f64], n: usize, js: &mut [usize])
    requires { (length sv.now ≡ n) × (length js.old ≡ n) × (all_finite sv.now ≡ true) }
    ensures { js.new ≡ order n sv.now }
{
    for i in 0..n {
        let place = place_of(sv, n, i);
        js[place] = i;
    }
}

pub fn sorted(sv: &[f64], n: usize, js: &[usize], ss: &mut [f64])
    requires { (length sv.now ≡ n) × (length js.now ≡ n) × (length ss.old ≡ n) × (all_finite sv.now ≡ true) × (js.now ≡ order n sv.now) }
    ensures { ss.new ≡ sorted n sv.now }
{
    for r in 0..n {
        let i = js[r];
        ss[r] = sv[i];
    }
}

// eps * largest, or 0 if the largest is 0.
fn threshold(eps: f64, largest: f64) -> f64
    ensures { result ≡ threshold_of eps largest }
{
    if 0.0 < largest {
        return eps * largest;
    }
    0.0
}

// How many of the n sorted values are kept: those strictly above the threshold, at least one.
pub fn kept_rank(eps: f64, n: usize, ss: &[f64]) -> usize
    requires { (1 ≤ n) × (n ≤ length ss.now) }
    ensures { result ≡ kept_rank eps n ss.now }
{
    let least = threshold(eps, ss[0]);
    let k = count_above(ss, n, least);
    if k < 1 {
        return 1;
    }
    k
}

// The largest of the sorted values that is not kept where r of them are, +0 if all are.
fn dropped(ss: &[f64], r: usize) -> f64
    ensures { result ≡ dropped_from r ss.now }
{
    if r < ss.len() {
        return ss[r];
    }
    0.0
}

// How many values are kept, and the largest that is not.
#[derive(Clone, Copy)]
pub struct Kept {
    pub rank: usize,
    pub dropped: f64,
}

// The values, then their order, then the values in it.
fn keep_all(
    g: &[f64],
    n: usize,
    eps: f64,
    sv: &mut [f64],
    ss: &mut [f64],
    js: &mut [usize],
) -> Result<Kept, usize>
    requires { (length g.now ≡ n * n) × (1 ≤ n) × (length sv.old ≡ n) × (length ss.old ≡ n) × (length js.old ≡ n) }
    ensures { chosen_of eps n g.now
        ≡ outcome_of result (λ (k : Kept). record { rank = k.rank; dropped = k.dropped; order = js.new; values = ss.new }) }
{
    singular_values(g, n, sv);
    lists::stored(sv)?;
    order(sv, n, js);
    sorted(sv, n, js, ss);
    let rank = kept_rank(eps, n, ss);
    Ok(Kept {
        rank,
        dropped: dropped(ss, rank),
    })
}

// The room in parts of just the size.
fn keep_within(
    g: &[f64],
    n: usize,
    eps: f64,
    sv: &mut [f64],
    ss: &mut [f64],
    js: &mut [usize],
) -> Result<Kept, usize>
    requires { (n * n ≤ length g.now) × (1 ≤ n) × (n ≤ length sv.old) × (n ≤ length ss.old) × (n ≤ length js.old) }
    ensures { chosen_of eps n (take (n * n) g.now)
        ≡ outcome_of result (λ (k : Kept). record { rank = k.rank; dropped = k.dropped; order = take n js.new; values = take n ss.new }) }
{
    let e = n * n;
    keep_all(
        &g[0..e],
        n,
        eps,
        &mut sv[0..n],
        &mut ss[0..n],
        &mut js[0..n],
    )
}

// Of the matrix at the front of g: its values, sorted, to the front of ss, their order to the front of js.
pub fn keep(g: &[f64], n: usize, eps: f64, ss: &mut [f64], js: &mut [usize]) -> Result<Kept, usize>
    requires { (n * n ≤ length g.now) × (1 ≤ n) × (n ≤ most_rank) × (n ≤ length ss.old) × (n ≤ length js.old) }
    ensures { chosen_of eps n (take (n * n) g.now)
        ≡ outcome_of result (λ (k : Kept). record { rank = k.rank; dropped = k.dropped; order = take n js.new; values = take n ss.new }) }
{
    let mut sv = [0.0; shape::MOST_RANK];
    keep_within(g, n, eps, &mut sv, ss, js)
}
