// Rounding a chain: what the call answers.
#![tactic(auto)]

pub mod packing;

ghost use Rattle.std.specs.Prelude.{◌≡◌, ◌≤◌, length, replicate, take, Ok, Err};
ghost use Rattle.std.specs.Result.{IfOk};
ghost use Rattle.shape.specs.Limits.{most_axes};
ghost use Rattle.shape.specs.Shapes.{chain_ok, entries_of};
ghost use Rattle.shape.specs.Sizes.{SizesWithin, Inside};
ghost use Rattle.shape.specs.Cores.{cores_of};
ghost use Rattle.cutform.specs.Bonds.{no_bond};
ghost use Rattle.cutform.specs.Rounding.{rounding};
ghost use Rattle.cutform.specs.Call.{ended_by, round_call};
ghost use Rattle.cuts.specs.declared.Walked.{Walked};
ghost use Rattle.rounding.specs.Slots.{finished};

use cutform::Rounded;

// A refusal leaves the shape as it was and says nothing of any bond.
pub fn refused_rounding(r: answers::Refusal, s: shape::Shape) -> Rounded
    ensures { result ≡ record { verdict = Err r; shape = s; bonds = replicate most_axes no_bond } }
{
    Rounded {
        verdict: Err(r),
        shape: s,
        bonds: [bond::no_bond(); shape::MOST_AXES],
    }
}

// The end of a call that rounds: where nothing was refused the chain is written, and scratch is +0 in any case.
#[tactic(auto, using(crate::proofs::Ends::finish_ends))]
pub fn finish(
    s: shape::Shape,
    w: Result<cuts::Walked, answers::Refusal>,
    chain: &mut [f64],
    scratch: &mut [f64],
) -> Rounded
    requires sizes_within { SizesWithin s }
    requires inside { IfOk w (λ (x : Walked). Inside s x.shape) × (entries_of s ≤ length chain.old) × (entries_of s ≤ length scratch.old) }
    ensures { record { result = result; chain = chain.new; scratch = scratch.new }
        ≡ finished s w chain.old scratch.old }
{
    packing::leave(s, w, chain, scratch);
    match w {
        Ok(x) => {
            // A field that is an array is proved only through a variable of its own.
            let bonds = x.bonds;
            Rounded {
                verdict: Ok(()),
                shape: x.shape,
                bonds,
            }
        }
        Err(q) => refused_rounding(q, s),
    }
}

// The chain at the front of scratch, where its cores are worked on.
pub fn load(chain: &[f64], scratch: &mut [f64])
    requires { length chain.now ≤ length scratch.old }
    ensures { take (length chain.now) scratch.new ≡ chain.now }
{
    let n = chain.len();
    lists::copy(chain, &mut scratch[0..n]);
}

// The rounding of a chain that passed the checks.
fn round_all(
    s: shape::Shape,
    cutting: cutform::Cutting,
    chain: &mut [f64],
    scratch: &mut [f64],
) -> Rounded
    requires s_value { chain_ok s ≡ Ok tt }
    requires chain_len { (length chain.old ≡ entries_of s) × (entries_of s ≤ length scratch.old) }
    ensures { record { result = result; chain = chain.new; scratch = scratch.new }
        ≡ ended_by s chain.old scratch.old (rounding cutting (cores_of s chain.old)) }
{
    let mut carries = [0.0; shape::MOST_CARRIES];
    let mut room = [0.0; shape::MOST_CORE];
    load(chain, scratch);
    let w = cuts::round_from(
        0,
        s,
        cuts::unrounded(s),
        cutting,
        scratch,
        &mut carries,
        &mut room,
    );
    finish(s, w, chain, scratch)
}

// Rounds a chain: bond by bond from the left.
#[tactic(auto, using(crate::proofs::Ends::round_call_ends))]
pub fn tt_round(
    s: shape::Shape,
    cutting: cutform::Cutting,
    chain: &mut [f64],
    scratch: &mut [f64],
) -> Rounded
    ensures { record { result = result; chain = chain.new; scratch = scratch.new }
        ≡ round_call s cutting chain.old scratch.old }
{
    match checks::round_ok(s, cutting, chain, scratch.len()) {
        Ok(()) => round_all(s, cutting, chain, scratch),
        Err(r) => refused_rounding(r, s),
    }
}
