// The chain file, read and written.
#![tactic(auto)]

pub mod body;
pub mod contents;
pub mod making;

ghost use Rattle.std.specs.Prelude.{◌≡◌, ◌≤◌, length};
ghost use Rattle.shape.specs.Shapes.{entries_of};
ghost use Rattle.shape.specs.Sizes.{SizesWithin};
ghost use Rattle.fileform.specs.File.{file_length};
ghost use Rattle.fileform.specs.Calls.{numbers_ok};
ghost use Rattle.fileform.specs.Writing.{write_lent, write_ok, write_call};
ghost use Rattle.fileform.specs.Reading.{lengths_ok, read_ok, read_call};

use answers::Refusal;
use shape::Shape;

// Of a shape whose entries are counted already, which goes over all its cores.
#[tactic(auto, using(crate::proofs::Accepts::file_counted))]
fn file_length(s: Shape, entries: usize) -> usize
    requires { (SizesWithin s) × (entries ≡ entries_of s) }
    ensures { result ≡ file_length s }
{
    8 + 12 * s.d + 8 * entries
}

// The file's length, then the room.
#[tactic(auto, using(crate::proofs::Accepts::lengths_found))]
fn lengths_ok(s: Shape, bytes: usize, room: usize) -> Result<(), Refusal>
    requires { SizesWithin s }
    ensures { result ≡ lengths_ok s bytes room }
{
    let n = s.entries();
    if bytes != file_length(s, n) {
        return Err(Refusal::File(bytes));
    }
    if room < n {
        return Err(Refusal::Length(1));
    }
    Ok(())
}

// Every check of reading, with room for so many numbers.
#[tactic(auto, using(crate::proofs::Accepts::contents_sized, crate::proofs::Accepts::found_long), unfolding(fileform::specs::Reading::read_ok))]
pub fn read_ok(bytes: &[u8], room: usize) -> Result<Shape, Refusal>
    ensures { result ≡ read_ok bytes.now room }
{
    let s = contents::read_contents(bytes)?;
    lengths_ok(s, bytes.len(), room)?;
    body::numbers_ok(bytes, s)?;
    Ok(s)
}

// Reading a chain file: the shape that its table gives, and its numbers at the front of out, +0 behind them.
pub fn read_chain(bytes: &[u8], out: &mut [f64]) -> Result<Shape, Refusal>
    ensures { (result ≡ (read_call bytes.now out.old).result)
        × (out.new ≡ (read_call bytes.now out.old).out) }
{
    let s = read_ok(bytes, out.len())?;
    body::take_numbers(bytes, s, out);
    Ok(s)
}

// The chain's length, then the output's.
#[tactic(auto, using(crate::proofs::Accepts::lengths_lent), unfolding(fileform::specs::Writing::write_lent))]
fn write_lent(s: Shape, chain: usize, out: usize) -> Result<(), Refusal>
    requires { SizesWithin s }
    ensures { result ≡ write_lent s chain out }
{
    let n = s.entries();
    if chain != n {
        return Err(Refusal::Length(0));
    }
    if out != file_length(s, n) {
        return Err(Refusal::Length(1));
    }
    Ok(())
}

// The first core with a number that isn't finite.
#[tactic(auto, using(crate::proofs::Bodies::cores_found), unfolding(shape::specs::Cores::core_at))]
fn write_finite(s: Shape, chain: &[f64]) -> Result<(), Refusal>
    requires sizes_within { SizesWithin s }
    requires s_in_bounds { entries_of s ≤ length chain.now }
    ensures { result ≡ numbers_ok s chain.now }
{
    let core = s.first_not_finite_core(chain);
    if core < s.d {
        return Err(Refusal::Number(core));
    }
    Ok(())
}

// Every check of writing, into an output of so many bytes.
#[tactic(auto, using(shape::proofs::Shaped::fits_sizes, crate::proofs::Makes::lengths_passed), unfolding(fileform::specs::Writing::write_ok))]
fn write_ok(s: Shape, chain: &[f64], out: usize) -> Result<(), Refusal>
    ensures { result ≡ write_ok s chain.now out }
{
    s.check()?;
    write_lent(s, chain.len(), out)?;
    write_finite(s, chain)
}

// Writing the one file of a chain, into an output of exactly its length.
pub fn write_chain(s: Shape, chain: &[f64], out: &mut [u8]) -> Result<(), Refusal>
    ensures { (result ≡ (write_call s chain.now out.old).result)
        × (out.new ≡ (write_call s chain.now out.old).out) }
{
    write_ok(s, chain, out.len())?;
    making::put_file(s, chain, out);
    Ok(())
}
