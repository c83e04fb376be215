// What a call that works in scratch leaves: the chain packed from there, and scratch all +0.
ghost use Rattle.std.specs.Prelude.{◌≡◌, ℕ, ◌≤◌, ◌<◌, length, take};
ghost use Rattle.std.specs.Result.{IfOk};
ghost use Rattle.numbers.specs.Arithmetic.{zero64};
ghost use Rattle.lists.specs.Lists.{joined};
ghost use Rattle.lists.specs.Slots.{slot, fit};
ghost use Rattle.lists.specs.Floats.{zeros};
ghost use Rattle.shape.specs.Shapes.{core_size, entries_of};
ghost use Rattle.shape.specs.Sizes.{SizesWithin, Inside};
ghost use Rattle.cuts.specs.declared.Walked.{Walked};
ghost use Rattle.rounding.specs.Left.{left_by};

// The cores' numbers, which stand in `work` where the cores of shape s begin, one after another at the chain's front,
// the rest +0. The shape t says how many numbers a core has now.
#[tactic(auto, using(shape::proofs::Offsets::offsets, shape::proofs::Slotwise::slotwise))]
fn pack(s: shape::Shape, t: shape::Shape, work: &[f64], chain: &mut [f64])
    requires sizes_within { (SizesWithin s) × (SizesWithin t) × (t.d ≡ s.d) }
    requires by_index { (k : ℕ) → k < s.d → core_size t k ≤ core_size s k }
    requires s_in_bounds { (entries_of s ≤ length work.now) × (entries_of t ≤ length chain.old) }
    ensures { chain.new
        ≡ fit zero64 (length chain.old) (joined s.d (λ (k : ℕ). take (core_size t k) (slot (core_size s) k work.now))) }
{
    let mut from = 0;
    let mut at = 0;
    for k in 0..s.d {
        let size = t.core_size(k);
        let end = at + size;
        lists::copy(&work[from..from + size], &mut chain[at..end]);
        from += s.core_size(k);
        at = end;
    }
    lists::fill(&mut chain[at..], 0.0);
}

// Where nothing was refused the chain is written, with its new sizes, and scratch is +0 in any case.
#[tactic(auto, using(crate::proofs::Rooms::inside_rooms))]
pub fn leave(
    s: shape::Shape,
    w: Result<cuts::Walked, answers::Refusal>,
    chain: &mut [f64],
    scratch: &mut [f64],
)
    requires sizes_within { SizesWithin s }
    requires inside { IfOk w (λ (x : Walked). Inside s x.shape) × (entries_of s ≤ length chain.old) × (entries_of s ≤ length scratch.old) }
    ensures chain_after { chain.new ≡ left_by w s chain.old scratch.old }
    ensures scratch_after { scratch.new ≡ zeros (length scratch.old) }
{
    if let Ok(x) = w {
        pack(s, x.shape, scratch, chain);
    }
    lists::fill(scratch, 0.0);
}
