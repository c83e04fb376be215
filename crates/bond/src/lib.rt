// One bond of a chain: its left core cut to a left factor and a carry, and a carry absorbed.
#![tactic(auto)]

pub mod factors;
pub mod strips;
pub mod sweeps;
pub mod values;

ghost use Rattle.std.specs.Prelude.{◌≡◌, ◌++◌, ◌*◌, ◌≤◌, length, take, drop};
ghost use Rattle.answers.specs.Outcome.{outcome_of};
ghost use Rattle.shape.specs.Limits.{most_rank};
ghost use Rattle.shape.specs.Cores.{core_with};
ghost use Rattle.cutform.specs.declared.Bond.{Bond};
ghost use Rattle.cutform.specs.Sweeps.{eig, swept};
ghost use Rattle.cutform.specs.Bonds.{gram, no_bond, cut_bond, absorb};
ghost use Rattle.bond.specs.declared.sweeps.Sweeps.{Sweeps};
ghost use Rattle.bond.specs.Stages.{swept_of, rest_of, cut_into};

// The Gram matrix of a core's rows.
pub fn gram(core: &[f64], rl: usize, n: usize, rr: usize, g: &mut [f64])
    requires { (length core.now ≡ rl * n * rr) × (1 ≤ rl) × (1 ≤ n) × (1 ≤ rr) × (length g.old ≡ rr * rr) }
    ensures { g.new ≡ gram (core_with rl n rr core.now) }
{
    strips::product(core, 1, rr, core, rr, rl * n, rr, g);
}

// The Gram matrix made diagonal, with its basis.
fn swept_gram(
    mode: usize,
    core: &[f64],
    rl: usize,
    n: usize,
    rr: usize,
    g: &mut [f64],
    v: &mut [f64],
) -> Result<sweeps::Sweeps, usize>
    requires { (length core.now ≡ rl * n * rr) × (1 ≤ rl) × (1 ≤ n) × (1 ≤ rr) × (length g.old ≡ rr * rr) × (length v.old ≡ rr * rr) }
    ensures { swept_of mode (core_with rl n rr core.now)
        ≡ outcome_of result (λ (s : Sweeps). swept s.count s.settles (eig g.new v.new)) }
{
    gram(core, rl, n, rr, g);
    lists::stored(g)?;
    rotation::eye(v, rr);
    sweeps::diagonalize(mode, g, v, rr)
}

// The same at the front of g and v.
fn swept_within(
    mode: usize,
    core: &[f64],
    rl: usize,
    n: usize,
    rr: usize,
    g: &mut [f64],
    v: &mut [f64],
) -> Result<sweeps::Sweeps, usize>
    requires { (length core.now ≡ rl * n * rr) × (1 ≤ rl) × (1 ≤ n) × (1 ≤ rr) × (rr * rr ≤ length g.old) × (rr * rr ≤ length v.old) }
    ensures { swept_of mode (core_with rl n rr core.now)
        ≡ outcome_of result (λ (s : Sweeps). swept s.count s.settles (eig (take (rr * rr) g.new) (take (rr * rr) v.new))) }
{
    let e = rr * rr;
    swept_gram(mode, core, rl, n, rr, &mut g[0..e], &mut v[0..e])
}

// What is said where no bond was cut.
pub fn no_bond() -> cutform::Bond
    ensures { result ≡ no_bond }
{
    cutform::Bond {
        rank: 0,
        sweeps: 0,
        settled: false,
        dropped: 0.0,
    }
}

// What follows the sweeps: the values, and the left factor and the carry of those that are kept. g is room for the basis' columns.
fn finish(
    core: &mut [f64],
    k: usize,
    rl: usize,
    n: usize,
    rr: usize,
    cutting: cutform::Cutting,
    sweeps: sweeps::Sweeps,
    v: &[f64],
    g: &mut [f64],
    carry: &mut [f64],
    room: &mut [f64],
) -> Result<cutform::Bond, answers::Refusal>
    requires { (length core.old ≡ rl * n * rr) × (1 ≤ rr) × (rr ≤ most_rank) × (rr * rr ≤ length v.now) × (rr * rr ≤ length g.old)
        × (rr * rr ≤ length carry.old) × (length core.old ≤ length room.old) }
    ensures { rest_of k cutting (core_with rl n rr core.old)
        (swept sweeps.count sweeps.settles (eig (take (rr * rr) g.old) (take (rr * rr) v.now)))
        ≡ outcome_of result (λ (b : Bond). cut_into rl n rr b core.new carry.new) }
{
    let mut ss = [0.0; shape::MOST_RANK];
    let mut js = [0; shape::MOST_RANK];
    let kept = values::keep(g, rr, cutting.eps, &mut ss, &mut js).map_err(|i| answers::stored_at(
        answers::Part::Spectrum,
        k,
        i,
    ))?;
    let made = factors::factor(
        cutting.mode,
        core,
        rl,
        n,
        rr,
        v,
        &js,
        &ss,
        kept.rank,
        g,
        carry,
        room,
    );
    answers::stored_in(made, answers::Part::Factor, k)?;
    Ok(cutform::Bond {
        rank: kept.rank,
        sweeps: sweeps.count,
        settled: sweeps.settles,
        dropped: kept.dropped,
    })
}

// The cut, with room for two matrices.
fn cut(
    core: &mut [f64],
    k: usize,
    rl: usize,
    n: usize,
    rr: usize,
    cutting: cutform::Cutting,
    carry: &mut [f64],
    room: &mut [f64],
    g: &mut [f64],
    v: &mut [f64],
) -> Result<cutform::Bond, answers::Refusal>
    requires { (length core.old ≡ rl * n * rr) × (1 ≤ rl) × (1 ≤ n) × (1 ≤ rr) × (rr ≤ most_rank) × (rr * rr ≤ length g.old)
        × (rr * rr ≤ length v.old) × (rr * rr ≤ length carry.old) × (length core.old ≤ length room.old) }
    ensures { cut_bond k cutting (core_with rl n rr core.old)
        ≡ outcome_of result (λ (b : Bond). cut_into rl n rr b core.new carry.new) }
{
    let s = swept_within(cutting.mode, core, rl, n, rr, g, v).map_err(|i| answers::stored_at(
        answers::Part::Spectrum,
        k,
        i,
    ))?;
    finish(core, k, rl, n, rr, cutting, s, v, g, carry, room)
}

// Cuts bond k: core, which is its left core, to the left factor, at the front of the slice, and the carry, at the front of its
// own. Room is for a copy of the core.
pub fn cut_bond(
    core: &mut [f64],
    k: usize,
    rl: usize,
    n: usize,
    rr: usize,
    cutting: cutform::Cutting,
    carry: &mut [f64],
    room: &mut [f64],
) -> Result<cutform::Bond, answers::Refusal>
    requires { (length core.old ≡ rl * n * rr) × (1 ≤ rl) × (1 ≤ n) × (1 ≤ rr) × (rr ≤ most_rank) × (rr * rr ≤ length carry.old)
        × (length core.old ≤ length room.old) }
    ensures { cut_bond k cutting (core_with rl n rr core.old)
        ≡ outcome_of result (λ (b : Bond). cut_into rl n rr b core.new carry.new) }
{
    let mut g = [0.0; shape::MOST_RANK * shape::MOST_RANK];
    let mut v = [0.0; shape::MOST_RANK * shape::MOST_RANK];
    cut(core, k, rl, n, rr, cutting, carry, room, &mut g, &mut v)
}

// A carry of r rows taken into a core from the left, at the front of out.
pub fn absorb(
    carry: &[f64],
    r: usize,
    core: &[f64],
    rl: usize,
    n: usize,
    rr: usize,
    out: &mut [f64],
)
    requires { (length core.now ≡ rl * n * rr) × (1 ≤ rl) × (r * rl ≤ length carry.now) × (r * n * rr ≤ length out.old) }
    ensures { out.new
        ≡ absorb r (take (r * rl) carry.now) (core_with rl n rr core.now) ++ drop (r * n * rr) out.old }
{
    strips::product(carry, rl, 1, core, n * rr, rl, r, out);
}
