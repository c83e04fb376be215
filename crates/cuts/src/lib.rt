// The rounding of the zones from one on, in place: every core stands in the room where its source begins, the carry of each bond
// in a slot of its own.
#![tactic(auto)]

pub mod zone;

ghost use Rattle.std.specs.Prelude.{◌≡◌, cond, ◌+◌, ◌-◌, ◌*◌, ◌≤◌, ◌<◌, length};
ghost use Rattle.std.specs.Result.{IfOk};
ghost use Rattle.answers.specs.Outcome.{outcome_of};
ghost use Rattle.lists.specs.Slots.{offset};
ghost use Rattle.shape.specs.Limits.{most_axes, most_core};
ghost use Rattle.shape.specs.Sizes.{SizesWithin, Inside};
ghost use Rattle.cutform.specs.Keeping.{carry_size, round_from};
ghost use Rattle.cuts.specs.declared.Walked.{Walked};
ghost use Rattle.cuts.specs.Slots.{unrounded, held, held_by, places_of, rank_left, AtZone, Ready, ZoneCut};

// How many numbers the slot of bond k's carry has; right of the last core there is none.
pub fn carry_size(s: shape::Shape, k: usize) -> usize
    requires sizes_within { SizesWithin s }
    requires k_lt_d { k < s.d }
    ensures { result ≡ carry_size s k }
{
    if k + 1 < s.d {
        return s.right[k] * s.right[k];
    }
    0
}

// Where the slot of bond k's carry starts.
pub fn carry_offset(s: shape::Shape, k: usize) -> usize
    requires sizes_within { SizesWithin s }
    requires k_le_d { k ≤ s.d }
    ensures { result ≡ offset (carry_size s) k }
{
    let mut total = 0;
    for j in 0..k {
        total += carry_size(s, j);
    }
    total
}

// What a rounding from some zone on came to: the chain's shape, and what is said of each bond.
#[derive(Clone, Copy)]
pub struct Walked {
    pub shape: shape::Shape,
    pub bonds: [cutform::Bond; shape::MOST_AXES],
}

// A chain before any of its bonds is cut.
pub fn unrounded(s: shape::Shape) -> Walked
    ensures { result ≡ unrounded s }
{
    let none = bond::no_bond();
    Walked {
        shape: s,
        bonds: [none; shape::MOST_AXES],
    }
}

// The rank on the left of zone k.
fn left_rank(k: usize, w: Walked) -> usize
    requires { k ≤ most_axes }
    ensures { result ≡ rank_left k w.shape w.bonds }
{
    if k < 1 {
        let t = w.shape;
        return t.left[0];
    }
    w.bonds[k - 1].rank
}

// Where zone k stands: its core from `at` to `end`, the carry on its left from `from` to `mid`, its own from `mid` to `to`.
#[derive(Clone, Copy)]
struct Places {
    at: usize,
    end: usize,
    from: usize,
    mid: usize,
    to: usize,
}

// Where the carry on the left of zone k starts; left of core 0 there is none.
fn carry_before(s: shape::Shape, k: usize) -> usize
    requires sizes_within { SizesWithin s }
    requires k_lt_d { k < s.d }
    ensures { result ≡ offset (carry_size s) (k - 1) }
{
    if k < 1 {
        return 0;
    }
    carry_offset(s, k - 1)
}

fn places_of(s: shape::Shape, k: usize) -> Places
    requires sizes_within { SizesWithin s }
    requires k_lt_d { k < s.d }
    ensures { result ≡ places_of s k }
{
    let at = s.offset(k);
    let end = at + s.core_size(k);
    let from = carry_before(s, k);
    let mid = carry_offset(s, k);
    let to = mid + carry_size(s, k);
    Places {
        at,
        end,
        from,
        mid,
        to,
    }
}

// Zone k in place, with rank r on its left: its core in the work, its carry among the carries.
fn zone_cut(
    k: usize,
    s: shape::Shape,
    t: shape::Shape,
    r: usize,
    cutting: cutform::Cutting,
    work: &mut [f64],
    carries: &mut [f64],
    room: &mut [f64],
) -> Result<cutform::Bond, answers::Refusal>
    requires sizes_within { SizesWithin s }
    requires k_lt_d { (k < s.d) × (most_core ≤ length room.old) × Ready s k t r work.old carries.old }
    ensures { (ready : Ready s k t r work.old carries.old)
        → ZoneCut cutting s k t (held ready.bonds work.old carries.old) result work.new carries.new }
{
    let p = places_of(s, k);
    zone::round_core(
        &mut work[p.at..p.end],
        k,
        k + 1 < s.d,
        r,
        t.left[k],
        t.n[k],
        t.right[k],
        cutting,
        carries,
        p.from,
        p.mid,
        p.to,
        room,
    )
}

// What stands at a zone's place once it is rounded: its bond; right of the last core there is none, and what stood there stays.
fn placed(more: bool, new: cutform::Bond, old: cutform::Bond) -> cutform::Bond
    ensures { result ≡ cond more new old }
{
    if more {
        return new;
    }
    old
}

// The zones from z on, left to right, from what is held left of z: the bonds and the carries.
pub fn round_from(
    z: usize,
    s: shape::Shape,
    w: Walked,
    cutting: cutform::Cutting,
    work: &mut [f64],
    carries: &mut [f64],
    room: &mut [f64],
) -> Result<Walked, answers::Refusal>
    requires sizes_within { SizesWithin s }
    requires z_le_d { (z ≤ s.d) × (most_core ≤ length room.old) × AtZone s z z w.shape (held_by w work.old carries.old) }
    ensures { (round_from cutting s z w.shape (held_by w work.old carries.old)
        ≡ outcome_of result (λ (x : Walked). (x.shape, held_by x work.new carries.new))) × (z ≡ 0 → IfOk result (λ (x : Walked). Inside s x.shape)) }
{
    let mut shape = w.shape;
    let mut bonds = w.bonds;
    let mut r = left_rank(z, w);
    for k in z..s.d {
        let cut = zone_cut(k, s, shape, r, cutting, work, carries, room)?;
        shape = shape.with_core(k, r, cut.rank);
        bonds[k] = placed(k + 1 < s.d, cut, bonds[k]);
        r = cut.rank;
    }
    Ok(Walked { shape, bonds })
}
