// A chain's shape, its entries, its separable start, its inner product and its rounding.
ghost use Rattle.std.specs.Prelude.{◌≡◌};
ghost use Rattle.shape.specs.Shapes.{chain_ok};
ghost use Rattle.view.specs.View.{view_of, seen};
ghost use Rattle.sumform.specs.Start.{start_call};
ghost use Rattle.sumform.specs.Call.{inner_call};
ghost use Rattle.cutform.specs.Call.{round_call};
ghost use Rattle.records.specs.Given.{shape_in, cutting_in};
ghost use Rattle.records.specs.Told.{refusal_of, figure_out, seen_out};
ghost use Rattle.zones.specs.Ends.{EndsAs, StartsAs};

use records::given::{CCutting, CShape};
use records::told;

#[unsafe(no_mangle)]
pub extern "C" fn uyavsker_shape_check(s: CShape) -> told::CRefusal
    ensures { result ≡ refusal_of (chain_ok (shape_in s)) }
{
    zones::chains::uyavsker_shape_check(s)
}

#[unsafe(no_mangle)]
pub extern "C" fn uyavsker_entry_of(
    chain: &[f64],
    s: CShape,
    k: usize,
    il: usize,
    im: usize,
    ir: usize,
) -> told::CSeen
    ensures { result ≡ seen_out (seen (view_of chain.entry (shape_in s) k) il im ir) }
{
    zones::chains::uyavsker_entry_of(chain, s, k, il, im, ir)
}

#[unsafe(no_mangle)]
pub extern "C" fn uyavsker_rank1_separable(
    s: CShape,
    vectors: &[f64],
    chain: &mut [f64],
) -> told::CFormed
    ensures { StartsAs (shape_in s) (start_call (shape_in s) vectors.now chain.old)
        result chain.new }
{
    zones::chains::uyavsker_rank1_separable(s, vectors, chain)
}

#[unsafe(no_mangle)]
pub extern "C" fn uyavsker_inner_separable(
    s: CShape,
    chain: &[f64],
    weights: &[f64],
) -> told::CFigure
    ensures { result ≡ figure_out (inner_call (shape_in s) chain.now weights.now) }
{
    zones::chains::uyavsker_inner_separable(s, chain, weights)
}

#[unsafe(no_mangle)]
pub extern "C" fn uyavsker_tt_round(
    s: CShape,
    cutting: CCutting,
    chain: &mut [f64],
    scratch: &mut [f64],
) -> told::CRounded
    ensures { EndsAs (round_call (shape_in s) (cutting_in cutting) chain.old scratch.old)
        result chain.new scratch.new }
{
    zones::chains::uyavsker_tt_round(s, cutting, chain, scratch)
}
