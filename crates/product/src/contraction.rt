// One axis of the inner product: a core contracted with the sums on its left and its axis' weights, a strip of right indices
// at a time, whose sums stay in registers.
ghost use Rattle.std.specs.Prelude.{◌≡◌, ◌++◌, ℕ, ◌+◌, ◌*◌, ◌≤◌, length, take, drop};
ghost use Rattle.numbers.specs.Arithmetic.{times};
ghost use Rattle.answers.specs.Outcome.{staged};
ghost use Rattle.lists.specs.Floats.{at, stored};
ghost use Rattle.lists.specs.Strips.{strip_width, added_in, stored_from};
ghost use Rattle.shape.specs.Limits.{most_rank};
ghost use Rattle.shape.specs.Cores.{core_with};
ghost use Rattle.sumform.specs.Contract.{contract};
ghost use Rattle.product.specs.ContractLoops.{points_in, new_sum};

// (x times a number of the core) times y, added to each of the first h sums.
#[tactic(auto, using(lists::proofs::Turns::turns), unfolding(lists::specs::Strips::added_in))]
fn add_weighed(sums: &mut [f64; lists::STRIP], h: usize, x: f64, core: &[f64], p: usize, y: f64)
    requires { (h ≤ strip_width) × (p + h ≤ length core.now) }
    ensures { sums.new ≡ added_in h (λ (t : ℕ). times (times x (at core.now (p + t))) y) sums.old }
{
    for t in 0..h {
        sums[t] += x * core[p + t] * y;
    }
}

// The points of one left index, whose numbers start at p in the core.
#[tactic(auto, using(lists::proofs::Turns::turns, crate::proofs::Strips::points), unfolding(crate::specs::ContractLoops::points_in))]
fn add_points(
    sums: &mut [f64; lists::STRIP],
    h: usize,
    x: f64,
    core: &[f64],
    p: usize,
    rr: usize,
    f: &[f64],
)
    requires { (h ≤ strip_width) × (p + length f.now * rr + h ≤ length core.now + rr) }
    ensures { sums.new ≡ points_in h x core.now p rr f.now (length f.now) sums.old }
{
    for i in 0..f.len() {
        add_weighed(sums, h, x, core, p + i * rr, f[i]);
    }
}

// The new sums at the right indices j to j + h.
#[tactic(auto, using(lists::proofs::Turns::turns, crate::proofs::Strips::blocks))]
fn strip(core: &[f64], rr: usize, f: &[f64], eta: &[f64], j: usize, h: usize, out: &mut [f64])
    requires { (h ≤ strip_width) × (j + h ≤ rr) × (length eta.now * (length f.now * rr) ≤ length core.now) × (j + h ≤ length out.old)
        × (1 ≤ length eta.now) × (1 ≤ length f.now) }
    ensures { out.new
        ≡ stored_from j h (λ (t : ℕ). new_sum core.now rr f.now eta.now (j + t)) out.old }
{
    let mut sums = [0.0; lists::STRIP];
    let width = f.len() * rr;
    for a in 0..eta.len() {
        add_points(&mut sums, h, eta[a], core, a * width + j, rr, f);
    }
    lists::store_sums(&sums, h, out, j);
}

// All new sums, at the front of out: whole strips of right indices, then of four, then single ones.
#[tactic(auto, using(lists::proofs::Turns::turns, lists::proofs::Strips::front_more))]
pub fn contract_step(core: &[f64], rr: usize, f: &[f64], eta: &[f64], out: &mut [f64])
    requires { (length eta.now * (length f.now * rr) ≤ length core.now) × (rr ≤ length out.old) × (1 ≤ length eta.now) × (1 ≤ length f.now) }
    ensures { out.new
        ≡ contract (core_with (length eta.now) (length f.now) rr core.now)
        f.now eta.now ++ drop rr out.old }
{
    // Each loop goes on where the one before ends, so j is counted by hand.
    let mut j = 0;
    while j + lists::STRIP <= rr {
        strip(core, rr, f, eta, j, lists::STRIP, out);
        j += lists::STRIP;
    }
    while j + 4 <= rr {
        strip(core, rr, f, eta, j, 4, out);
        j += 4;
    }
    for k in j..rr {
        strip(core, rr, f, eta, k, 1, out);
    }
}

// One axis: the sums in the first rl places of eta become the new sums in its first rr, if these are all finite.
#[tactic(auto, using(lists::proofs::Turns::turns, lists::proofs::Parts::parts, lists::proofs::Parts::part_count, crate::proofs::Strips::axis_end_lem))]
pub fn sum_axis(core: &[f64], rl: usize, rr: usize, f: &[f64], eta: &mut [f64]) -> Result<(), usize>
    requires { (rl * (length f.now * rr) ≤ length core.now) × (rl ≤ length eta.old) × (rr ≤ length eta.old) × (rr ≤ most_rank) × (1 ≤ rl)
        × (1 ≤ length f.now) }
    ensures { stored (contract (core_with rl (length f.now) rr core.now) f.now (take rl eta.old))
        ≡ staged result (take rr eta.new) }
{
    let mut next = [0.0; shape::MOST_RANK];
    contract_step(core, rr, f, &eta[..rl], &mut next);
    let r = lists::stored(&next[..rr]);
    lists::copy(&next[..rr], &mut eta[..rr]);
    r
}
