// A pair of neighbouring cores contracted and split again.
#![tactic(auto)]

pub mod halves;
pub mod parts;
pub mod refusals;
pub mod slabs;
pub mod split;

ghost use Rattle.std.specs.Prelude.{◌≡◌, ◌*◌, ◌≤◌, length, take, Ok};
ghost use Rattle.answers.specs.Outcome.{outcome_of};
ghost use Rattle.shape.specs.Limits.{most_rank, most_lines};
ghost use Rattle.shape.specs.Cores.{core_with};
ghost use Rattle.pairform.specs.Splits.{pair_of};
ghost use Rattle.pairform.specs.Call.{core_of, pair_ok, pair_by, pair_call};
ghost use Rattle.pair.specs.Loops.{Lines};

use answers::{Part, Refusal};
use pairform::{Paired, Sizes};

// The new cores' numbers, at the fronts of x and y.
fn pair_of(
    l: Sizes,
    r: Sizes,
    eps: f64,
    left: &[f64],
    right: &[f64],
    a: &mut [f64],
    x: &mut [f64],
    y: &mut [f64],
) -> Result<Paired, Refusal>
    requires { Lines (l.rl * l.n) (r.n * r.rr) × (length left.now ≡ l.rl * l.n * l.rr) × (length right.now ≡ l.rr * (r.n * r.rr))
        × (length a.old ≡ r.n * r.rr * (l.rl * l.n)) × (most_lines * most_rank ≤ length x.old) × (most_rank * most_lines ≤ length y.old) }
    ensures { pair_of eps (core_of l left.entry.now) (core_of r right.now)
        ≡ outcome_of result (λ w. record {
          left = core_with l.rl l.n w.rank (take (l.rl * l.n * w.rank) x.new);
          right = core_with w.rank r.n r.rr (take (w.rank * (r.n * r.rr)) y.new);
          passes = w.passes;
        }) }
{
    let m = l.rl * l.n;
    let n = r.n * r.rr;
    let made = slabs::columns(left, right, m, l.rr, n, a);
    answers::stored_in(made, Part::Entry, 0)?;
    parts::split(eps, m, n, a, x, y)
}

// The columns stand at the front of scratch. The outputs are written once nothing can refuse any more.
fn pair_within(
    l: Sizes,
    r: Sizes,
    eps: f64,
    left: &[f64],
    right: &[f64],
    lefts: &mut [f64],
    rights: &mut [f64],
    scratch: &mut [f64],
) -> Result<Paired, Refusal>
    requires { pair_ok (core_of l left.now) (core_of r right.now) eps (length lefts.old) (length rights.old) (length scratch.old) ≡ Ok tt }
    ensures { (result ≡ (pair_by lefts.old rights.old scratch.old
        (pair_of eps (core_of l left.now) (core_of r right.now))).result)
        × (lefts.new ≡ (pair_by lefts.old rights.old scratch.old
        (pair_of eps (core_of l left.now) (core_of r right.now))).left)
        × (rights.new ≡ (pair_by lefts.old rights.old scratch.old
        (pair_of eps (core_of l left.now) (core_of r right.now))).right) }
{
    let mut x = [0.0; shape::MOST_LINES * shape::MOST_RANK];
    let mut y = [0.0; shape::MOST_RANK * shape::MOST_LINES];
    let m = l.rl * l.n;
    let n = r.n * r.rr;
    let e = n * m;
    let made = pair_of(l, r, eps, left, right, &mut scratch[0..e], &mut x, &mut y)?;
    lists::fit(&x, m * made.rank, lefts);
    lists::fit(&y, made.rank * n, rights);
    Ok(made)
}

// Two neighbouring cores contracted and split again: the left one goes to lefts and the right one to rights, each at the
// front, +0 behind it.
pub fn contract_and_split(
    l: Sizes,
    r: Sizes,
    eps: f64,
    left: &[f64],
    right: &[f64],
    lefts: &mut [f64],
    rights: &mut [f64],
    scratch: &mut [f64],
) -> Result<Paired, Refusal>
    ensures { record { result = result; left = lefts.new; right = rights.new; scratch = scratch.new }
        ≡ pair_call (core_of l left.now) (core_of r right.now) eps lefts.old rights.old scratch.old }
{
    refusals::pair_ok(
        l,
        r,
        eps,
        left,
        right,
        lefts.len(),
        rights.len(),
        scratch.len(),
    )?;
    let made = pair_within(l, r, eps, left, right, lefts, rights, scratch);
    lists::fill(scratch, 0.0);
    made
}
