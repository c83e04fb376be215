// A chain's shape, its entries, its separable start, its inner product and its rounding.
ghost use Rattle.std.specs.Prelude.{◌≡◌};
ghost use Rattle.shape.specs.Shapes.{chain_ok};
ghost use Rattle.view.specs.View.{view_of, seen};
ghost use Rattle.sumform.specs.Start.{start_call};
ghost use Rattle.sumform.specs.Call.{inner_call};
ghost use Rattle.cutform.specs.Call.{round_call};
ghost use Rattle.records.specs.Given.{shape_in, cutting_in};
ghost use Rattle.records.specs.Told.{refusal_of, figure_out, seen_out};
ghost use Rattle.zones.specs.Ends.{EndsAs, StartsAs};

use records::given::{CCutting, CShape};
use records::told;
use shape::Shape;

#[unsafe(no_mangle)]
pub extern "C" fn uyavsker_shape_check(s: CShape) -> told::CRefusal
    ensures { result ≡ refusal_of (chain_ok (shape_in s)) }
{
    told::refusal_of(Shape::from(s).check())
}

#[unsafe(no_mangle)]
pub extern "C" fn uyavsker_entry_of(
    chain: &[f64],
    s: CShape,
    k: usize,
    il: usize,
    im: usize,
    ir: usize,
) -> told::CSeen
    ensures { result ≡ seen_out (seen (view_of chain.entry (shape_in s) k) il im ir) }
{
    view::entry_of(chain, s.into(), k, il, im, ir).into()
}

#[unsafe(no_mangle)]
pub extern "C" fn uyavsker_rank1_separable(
    s: CShape,
    vectors: &[f64],
    chain: &mut [f64],
) -> told::CFormed
    ensures { StartsAs (shape_in s) (start_call (shape_in s) vectors.now chain.old)
        result chain.new }
{
    let shape = s.into();
    told::started_out(
        shape,
        product::start::rank1_separable(shape, vectors, chain),
    )
}

#[unsafe(no_mangle)]
pub extern "C" fn uyavsker_inner_separable(
    s: CShape,
    chain: &[f64],
    weights: &[f64],
) -> told::CFigure
    ensures { result ≡ figure_out (inner_call (shape_in s) chain.now weights.now) }
{
    told::figure_out(product::inner_separable(s.into(), chain, weights))
}

#[unsafe(no_mangle)]
pub extern "C" fn uyavsker_tt_round(
    s: CShape,
    cutting: CCutting,
    chain: &mut [f64],
    scratch: &mut [f64],
) -> told::CRounded
    ensures { EndsAs (round_call (shape_in s) (cutting_in cutting) chain.old scratch.old)
        result chain.new scratch.new }
{
    told::rounded_out(rounding::tt_round(s.into(), cutting.into(), chain, scratch))
}
