// What a run hands to the work from one zone on, and what it takes of it once nothing can refuse.
#![tactic(auto)]

pub mod copies;
pub mod ranks;

ghost use Rattle.std.specs.Prelude.{◌≡◌, ◌-◌, ◌≤◌, ◌<◌, length};
ghost use Rattle.lists.specs.Slots.{offset};
ghost use Rattle.lists.specs.Floats.{at};
ghost use Rattle.shape.specs.Shapes.{core_size, entries_of};
ghost use Rattle.shape.specs.Sizes.{SizesWithin};
ghost use Rattle.cutform.specs.Keeping.{carry_size};
ghost use Rattle.sumform.specs.Sums.{sum_size};
ghost use Rattle.run_slices.specs.Passing.{Beside, over_from};

// The carry left of zone z, in its slot of held; left of zone 0 there is none.
pub fn take_carry(z: usize, s: shape::Shape, carries: &[f64], held: &mut [f64])
    requires sizes_within { SizesWithin s }
    requires z_lt_d { (z < s.d) × (offset (carry_size s) s.d ≤ length carries.now) × (offset (carry_size s) s.d ≤ length held.old) }
    ensures { Beside (carry_size s) z carries.now held.new }
{
    if z < 1 {
        return;
    }
    let at = cuts::carry_offset(s, z - 1);
    let end = cuts::carry_offset(s, z);
    copies::copy_between(at, end, carries, held);
}

// The sums left of zone z, in their slot of summed; left of zone 0 there are none.
pub fn take_sum(z: usize, s: shape::Shape, sums: &[f64], summed: &mut [f64])
    requires sizes_within { SizesWithin s }
    requires z_lt_d { (z < s.d) × (offset (sum_size s) s.d ≤ length sums.now) × (offset (sum_size s) s.d ≤ length summed.old) }
    ensures { Beside (sum_size s) z sums.now summed.new }
{
    if z < 1 {
        return;
    }
    let at = product::sums::sum_offset(s, z - 1);
    let end = product::sums::sum_offset(s, z);
    copies::copy_between(at, end, sums, summed);
}

// What the work left of the zones from z on goes into the run's slices. The figure is the first number of the last axis' sums.
#[tactic(auto, using(crate::proofs::Taken::committing))]
pub fn commit(
    z: usize,
    s: shape::Shape,
    work: &[f64],
    held: &[f64],
    summed: &[f64],
    chain: &mut [f64],
    carries: &mut [f64],
    sums: &mut [f64],
) -> f64
    requires sizes_within { (SizesWithin s) × (z < s.d) }
    requires chain_len { (length chain.old ≡ entries_of s) × (length carries.old ≡ offset (carry_size s) s.d) × (length sums.old ≡ offset (sum_size s) s.d) }
    requires chain_in_bounds { (length chain.old ≤ length work.now) × (length carries.old ≤ length held.now) × (length sums.old ≤ length summed.now) }
    ensures { (result ≡ at summed.now (offset (sum_size s) (s.d - 1)))
        × (chain.new ≡ over_from (offset (core_size s) z) chain.old work.now)
        × (carries.new ≡ over_from (offset (carry_size s) z) carries.old held.now)
        × (sums.new ≡ over_from (offset (sum_size s) z) sums.old summed.now) }
{
    let core = s.offset(z);
    let carry = cuts::carry_offset(s, z);
    let sum = product::sums::sum_offset(s, z);
    copies::copy_from(core, work, chain);
    copies::copy_from(carry, held, carries);
    copies::copy_from(sum, summed, sums);
    let last = product::sums::sum_offset(s, s.d - 1);
    summed[last]
}
