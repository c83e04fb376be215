// The shape of a chain: how many cores it has, and the ranks and sizes of each.
#![tactic(auto)]

ghost use Rattle.std.specs.Prelude.{◌≡◌, ℕ, ◌+◌, ◌*◌, ◌≤◌, ◌<◌, min, [], length, replicate};
ghost use Rattle.lists.specs.Lists.{first_not};
ghost use Rattle.lists.specs.Slots.{offset};
ghost use Rattle.lists.specs.Floats.{all_finite};
ghost use Rattle.shape.specs.Limits.{most_axes, most_points, most_entries, within, scratch_for};
ghost use Rattle.shape.specs.Shapes.{points_of, size_ok, bond_ok, chain_ok, core_size, point_size, entries_of, all_points};
ghost use Rattle.shape.specs.Sizes.{PointsWithin, SizesWithin};
ghost use Rattle.shape.specs.Cores.{place, core_with, core_at, points_at, with_core};

use answers::Refusal;

// The limits of the scope, named once.
pub const MOST_AXES: usize = 16;

pub const MOST_POINTS: usize = 64;

pub const MOST_RANK: usize = 8;

// The rows and the columns of a pair.
pub const MOST_LINES: usize = 64;

// Scratch has so many times the chain's numbers, and so many beside.
pub const SCRATCH_TIMES: usize = 4;

pub const SCRATCH_BESIDE: usize = 2048;

// Scratch for a pair.
pub const PAIR_SCRATCH: usize = 20480;

// What follows: the most numbers of a core, of a core's points at one left index, three times, of all carries, weights and partial sums.
pub const MOST_CORE: usize = MOST_RANK * MOST_POINTS * MOST_RANK;

pub const MOST_BLOCK: usize = 3 * (MOST_POINTS * MOST_RANK);

pub const MOST_CARRIES: usize = MOST_AXES * (MOST_RANK * MOST_RANK);

pub const MOST_WEIGHTS: usize = MOST_AXES * MOST_POINTS;

pub const MOST_SUMS: usize = MOST_AXES * MOST_RANK;

// d cores; core k has the sizes left[k], n[k], right[k]. Both ranks of a bond stand in it, since a chain in memory may
// have neighbours that differ.
#[derive(Clone, Copy, Debug, PartialEq, Eq)]
pub struct Shape {
    pub d: usize,
    pub left: [usize; MOST_AXES],
    pub n: [usize; MOST_AXES],
    pub right: [usize; MOST_AXES],
}

// 1 to the most.
pub fn within(most: usize, x: usize) -> bool
    ensures { result ≡ within most x }
{
    1 <= x && x <= most
}

// Scratch for a chain of n numbers.
pub fn scratch_for(n: usize) -> usize
    requires { n ≤ most_entries }
    ensures { result ≡ scratch_for n }
{
    SCRATCH_TIMES * n + SCRATCH_BESIDE
}

// row * n + i, or `most` where that is less. A product that could not be held is never made.
fn capped(row: usize, n: usize, i: usize, most: usize) -> usize
    requires { i < n }
    ensures { result ≡ min (row * n + i) most }
{
    if most <= i {
        return most;
    }
    if (most - i) / n < row {
        return most;
    }
    row * n + i
}

// Where entry (il, im, ir) stands in a core of any sizes, or `most` where that is less.
#[tactic(auto, using(crate::proofs::Places::place_capped))]
pub fn place_within(n: usize, rr: usize, il: usize, im: usize, ir: usize, most: usize) -> usize
    requires { (im < n) × (ir < rr) }
    ensures { result ≡ min (place n rr il im ir) most }
{
    let row = capped(il, n, im, most);
    capped(row, rr, ir, most)
}

impl Shape {
    // Whether the sizes of core k lie within their limits.
    #[tactic(auto, unfolding(crate::specs::Shapes::size_ok))]
    pub fn size_ok(self, k: usize) -> bool
        requires { k < most_axes }
        ensures { result ≡ size_ok self k }
    {
        within(MOST_RANK, self.left[k])
            && within(MOST_POINTS, self.n[k])
            && within(MOST_RANK, self.right[k])
    }

    // The first core with a size outside its limits, or d.
    pub fn first_bad_size(self) -> usize
        requires { self.d ≤ most_axes }
        ensures { result ≡ first_not (size_ok self) self.d }
    {
        lists::first_not(self.d, |k| self.size_ok(k))
    }

    // The first axis with points outside their limits, or d.
    pub fn first_bad_points(self) -> usize
        requires { self.d ≤ most_axes }
        ensures { result ≡ first_not (λ (k : ℕ). within most_points (points_of self k)) self.d }
    {
        lists::first_not(self.d, |k| within(MOST_POINTS, self.n[k]))
    }

    // The shape with every rank 1.
    pub fn rank_one(self) -> Shape
        ensures { result ≡ record { d = self.d; left = replicate most_axes 1; n = self.n; right = replicate most_axes 1 } }
    {
        Shape {
            left: [1; MOST_AXES],
            right: [1; MOST_AXES],
            ..self
        }
    }

    // Whether the bond right of core k holds: its right rank is the next core's left rank, and the last core's is 1.
    #[tactic(auto, unfolding(crate::specs::Shapes::bond_ok))]
    pub fn bond_ok(self, k: usize) -> bool
        requires { (k < self.d) × (self.d ≤ most_axes) }
        ensures { result ≡ bond_ok self k }
    {
        if k + 1 < self.d {
            return self.right[k] == self.left[k + 1];
        }
        self.right[k] == 1
    }

    // Refusals 1 to 3.
    #[tactic(auto, using(crate::proofs::Verdicts::demands), unfolding(crate::specs::Shapes::shape_ok))]
    pub fn check(self) -> Result<(), Refusal>
        ensures { result ≡ chain_ok self }
    {
        answers::demand(within(MOST_AXES, self.d), Refusal::Axes)?;
        lists::demand_each(self.d, |k| self.size_ok(k), Refusal::Size)?;
        answers::demand(self.left[0] == 1, Refusal::Ranks(0))?;
        lists::demand_each(self.d, |k| self.bond_ok(k), Refusal::Ranks)
    }

    // How many numbers core k has.
    #[tactic(auto, unfolding(crate::specs::Shapes::core_size))]
    pub fn core_size(self, k: usize) -> usize
        requires sizes_within { SizesWithin self }
        requires k_lt_d { k < self.d }
        ensures { result ≡ core_size self k }
    {
        self.left[k] * self.n[k] * self.right[k]
    }

    // Where core k starts in the chain.
    #[tactic(auto, using(crate::proofs::Offsets::offsets))]
    pub fn offset(self, k: usize) -> usize
        requires sizes_within { SizesWithin self }
        requires k_le_d { k ≤ self.d }
        ensures { result ≡ offset (core_size self) k }
    {
        let mut total = 0;
        for j in 0..k {
            total += self.core_size(j);
        }
        total
    }

    // N.
    pub fn entries(self) -> usize
        requires { SizesWithin self }
        ensures { result ≡ entries_of self }
    {
        self.offset(self.d)
    }

    // Where axis k starts in the weights, or the vectors.
    #[tactic(auto, using(crate::proofs::Offsets::offsets), unfolding(crate::specs::Shapes::point_size))]
    pub fn points_offset(self, k: usize) -> usize
        requires points_within { PointsWithin self }
        requires k_le_d { k ≤ self.d }
        ensures { result ≡ offset (point_size self) k }
    {
        let mut total = 0;
        for j in 0..k {
            total += self.n[j];
        }
        total
    }

    // The sum of the n.
    pub fn points(self) -> usize
        requires { PointsWithin self }
        ensures { result ≡ all_points self }
    {
        self.points_offset(self.d)
    }

    // The first core with a number that isn't finite, or d.
    #[tactic(auto, using(crate::proofs::Slotwise::slot_by_slot), unfolding(crate::specs::Cores::core_at))]
    pub fn first_not_finite_core(self, chain: &[f64]) -> usize
        requires sizes_within { SizesWithin self }
        requires self_in_bounds { entries_of self ≤ length chain.now }
        ensures { result ≡ first_not (λ (k : ℕ). all_finite (core_at self chain.now k).entries) self.d }
    {
        let mut start = 0;
        for k in 0..self.d {
            let end = start + self.core_size(k);
            if !lists::all_finite(&chain[start..end]) {
                return k;
            }
            start = end;
        }
        self.d
    }

    // The first axis with a weight, or a vector's number, that isn't finite, or d.
    #[tactic(auto, using(crate::proofs::Slotwise::slot_by_slot), unfolding(crate::specs::Cores::points_at, crate::specs::Shapes::point_size))]
    pub fn first_not_finite_axis(self, points: &[f64]) -> usize
        requires points_within { PointsWithin self }
        requires self_in_bounds { all_points self ≤ length points.now }
        ensures { result ≡ first_not (λ (k : ℕ). all_finite (points_at self points.now k)) self.d }
    {
        let mut start = 0;
        for k in 0..self.d {
            let end = start + self.n[k];
            if !lists::all_finite(&points[start..end]) {
                return k;
            }
            start = end;
        }
        self.d
    }

    // The shape with other ranks at core k.
    pub fn with_core(mut self, k: usize, rl: usize, rr: usize) -> Shape
        requires { k < most_axes }
        ensures { result ≡ with_core self k (core_with rl (points_of self k) rr []) }
    {
        self.left[k] = rl;
        self.right[k] = rr;
        self
    }
}
