// The listing of a chain file, as text of a fixed capacity.
#![tactic(auto)]

ghost use Rattle.std.specs.Prelude.{◌≡◌, ◌+◌, ◌≤◌, ◌<◌, length};
ghost use Rattle.lists.specs.Lists.{joined};
ghost use Rattle.shape.specs.Limits.{most_axes};
ghost use Rattle.shape.specs.Sizes.{SizesWithin};
ghost use Rattle.words.specs.Placed.{placed};
ghost use Rattle.fileform.specs.File.{body_start};
ghost use Rattle.fileform.specs.Text.{digits_of, field, headline, axis_line, chain_text, refused_text, listing_of};
ghost use Rattle.listing.specs.Ends.{Put};

use answers::Refusal;
use arrayvec::ArrayVec;
use shape::Shape;

// Room for the longest text.
pub const TEXT: usize = 2048;

// The largest file that is listed, and the numbers that there is room for.
pub const MOST_BYTES: usize = 8392;

const ROOM: usize = 1049;

pub type Text = ArrayVec<u8, TEXT>;

// A word behind the first `at` bytes; answers where it ends.
fn put_word(word: &[u8], text: &mut [u8], at: usize) -> usize
    requires { at + length word.now ≤ length text.old }
    ensures { Put (length word.now) at word.now text.old text.new result }
{
    words::put(word, text, at);
    at + word.len()
}

// A number in decimal digits.
fn put_digits(n: usize, text: &mut [u8], at: usize) -> usize
    requires { at + 20 ≤ length text.old }
    ensures { Put 20 at (digits_of n) text.old text.new result }
{
    let mut digits = [0u8; 20];
    let k = io::decimal(n as u64, &mut digits);
    put_word(&digits[..k], text, at)
}

// A number, and `after` behind it.
fn put_field(n: usize, after: u8, text: &mut [u8], at: usize) -> usize
    requires { at + 21 ≤ length text.old }
    ensures { Put 21 at (field n after) text.old text.new result }
{
    let end = put_digits(n, text, at);
    put_word(&[after], text, end)
}

// The line of one axis, whose body starts at `start`.
fn put_axis(s: Shape, k: usize, start: usize, text: &mut [u8], at: usize) -> usize
    requires { (k < most_axes) × (start ≡ body_start s k) × (at + 105 ≤ length text.old) }
    ensures { Put 105 at (axis_line s k) text.old text.new result }
{
    let a = put_field(k, b' ', text, at);
    let b = put_field(s.left[k], b' ', text, a);
    let c = put_field(s.n[k], b' ', text, b);
    let d = put_field(s.right[k], b' ', text, c);
    put_field(start, b'\n', text, d)
}

// The lines of all axes.
#[tactic(auto, using(chainfile::proofs::Bodies::bodywise, crate::proofs::Grows::axes_ask))]
fn put_axes(s: Shape, text: &mut [u8], at: usize) -> usize
    requires sizes_within { SizesWithin s }
    requires room { at + 1680 ≤ length text.old }
    ensures { Put 1680 at (joined s.d (axis_line s)) text.old text.new result }
{
    let mut start = 8 + 12 * s.d;
    let mut end = at;
    for k in 0..s.d {
        end = put_axis(s, k, start, text, end);
        start += 8 * s.core_size(k);
    }
    end
}

// The first line.
fn put_headline(s: Shape, text: &mut [u8]) -> usize
    requires sizes_within { SizesWithin s }
    requires room { 55 ≤ length text.old }
    ensures { Put 55 0 (headline s) text.old text.new result }
{
    let a = put_word(b"axes ", text, 0);
    let b = put_digits(s.d, text, a);
    let c = put_word(b" entries ", text, b);
    put_field(s.entries(), b'\n', text, c)
}

// The listing of a chain.
fn put_chain(s: Shape, text: &mut [u8]) -> usize
    requires sizes_within { SizesWithin s }
    requires room { 1735 ≤ length text.old }
    ensures { Put 1735 0 (chain_text s) text.old text.new result }
{
    let end = put_headline(s, text);
    put_axes(s, text, end)
}

// A refusal by its number and place in the scope's table.
fn put_refusal(r: Refusal, text: &mut [u8]) -> usize
    requires { 53 ≤ length text.old }
    ensures { Put 53 0 (refused_text r) text.old text.new result }
{
    let number = r.number() as usize;
    let place = r.place();
    let a = put_word(b"refused ", text, 0);
    let b = put_digits(number, text, a);
    let c = put_word(b" at ", text, b);
    put_field(place, b'\n', text, c)
}

// The listing of a file at the front of the text, the rest of it as it was; answers how long it is.
#[tactic(auto, using(crate::proofs::Grows::read_sized))]
pub fn text_of(bytes: &[u8], text: &mut [u8; TEXT]) -> usize
    ensures { (result ≡ length (listing_of bytes.now)) × (text.new ≡ placed 0 (listing_of bytes.now) text.old) }
{
    if MOST_BYTES < bytes.len() {
        return put_word(b"too large\n", text, 0);
    }
    let mut room = [0.0; ROOM];
    match chainfile::read_chain(bytes, &mut room) {
        Ok(s) => put_chain(s, text),
        Err(r) => put_refusal(r, text),
    }
}

// The listing of a file.
pub fn listed(bytes: &[u8]) -> Text
    ensures { result.items ≡ listing_of bytes.now }
{
    let mut text = [0u8; TEXT];
    let n = text_of(bytes, &mut text);
    Text::try_from(&text[..n]).unwrap()
}
