// A chain file read, written and listed.
ghost use Rattle.std.specs.Prelude.{◌≡◌, length};
ghost use Rattle.words.specs.Placed.{placed};
ghost use Rattle.fileform.specs.Reading.{read_call};
ghost use Rattle.fileform.specs.Writing.{write_call};
ghost use Rattle.fileform.specs.Text.{listing_of};
ghost use Rattle.records.specs.Given.{shape_in};
ghost use Rattle.zones.specs.Ends.{ReadsAs, WritesAs};

use records::{given, told};

#[unsafe(no_mangle)]
pub extern "C" fn uyavsker_read_chain(bytes: &[u8], out: &mut [f64]) -> told::CFormed
    ensures { ReadsAs (read_call bytes.now out.old) result out.new }
{
    told::read_out(chainfile::read_chain(bytes, out))
}

#[unsafe(no_mangle)]
pub extern "C" fn uyavsker_write_chain(
    s: given::CShape,
    chain: &[f64],
    out: &mut [u8],
) -> told::CRefusal
    ensures { WritesAs (write_call (shape_in s) chain.now out.old) result out.new }
{
    told::refusal_of(chainfile::write_chain(s.into(), chain, out))
}

// The text that `ttlist` prints of a file; answers its length.
#[unsafe(no_mangle)]
pub extern "C" fn uyavsker_text_of(bytes: &[u8], text: &mut [u8; listing::TEXT]) -> usize
    ensures { (result ≡ length (listing_of bytes.now)) × (text.new ≡ placed 0 (listing_of bytes.now) text.old) }
{
    listing::text_of(bytes, text)
}
