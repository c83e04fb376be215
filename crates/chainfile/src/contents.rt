// What stands before the bodies of a chain file: the header and the table.
ghost use Rattle.std.specs.Prelude.{◌≡◌, true, ℕ, ◌+◌, ◌*◌, ◌≤◌, ◌<◌, length};
ghost use Rattle.lists.specs.Lists.{tab};
ghost use Rattle.lists.specs.Slots.{fit};
ghost use Rattle.lists.specs.Walks.{turning};
ghost use Rattle.shape.specs.Limits.{most_axes, most_core};
ghost use Rattle.shape.specs.Shapes.{size_ok, core_size};
ghost use Rattle.words.specs.Bytes.{u16_at};
ghost use Rattle.fileform.specs.File.{entry_start, body_start};
ghost use Rattle.fileform.specs.Reading.{read_header, shape_in, entry_ok, table_ok, read_table, read_contents};

use answers::Refusal;
use shape::Shape;

// "TTC1", as the number in four bytes.
const MARK: usize = 0x3143_5454;

// Length, mark, zero field, then d, which it answers.
#[tactic(auto, using(crate::proofs::Headers::headed))]
pub fn header_ok(bytes: &[u8]) -> Result<usize, Refusal>
    ensures { result ≡ read_header bytes.now }
{
    if bytes.len() < 8 {
        return Err(Refusal::File(bytes.len()));
    }
    if words::u32_at(bytes, 0) != MARK {
        return Err(Refusal::File(0));
    }
    if words::u16_at(bytes, 6) != 0 {
        return Err(Refusal::File(6));
    }
    let d = words::u16_at(bytes, 4);
    if !shape::within(shape::MOST_AXES, d) {
        return Err(Refusal::Axes);
    }
    Ok(d)
}

// The field at `at` of each of d entries.
#[tactic(auto, using(crate::proofs::Tables::fit_none, crate::proofs::Tables::fit_more))]
fn sizes_at(bytes: &[u8], d: usize, at: usize) -> [usize; shape::MOST_AXES]
    requires { (d ≤ most_axes) × (entry_start d ≤ length bytes.now) × (at ≤ 10) }
    ensures { result ≡ fit 0 most_axes (tab d (λ (k : ℕ). u16_at bytes.now (entry_start k + at))) }
{
    let mut sizes = [0; shape::MOST_AXES];
    for k in 0..d {
        sizes[k] = words::u16_at(bytes, 8 + 12 * k + at);
    }
    sizes
}

// The shape that a table of d entries gives.
#[tactic(auto, using(crate::proofs::Tables::shape_made))]
fn shape_in(bytes: &[u8], d: usize) -> Shape
    requires { (d ≤ most_axes) × (entry_start d ≤ length bytes.now) }
    ensures { result ≡ shape_in bytes.now d }
{
    let left = sizes_at(bytes, d, 0);
    let n = sizes_at(bytes, d, 2);
    let right = sizes_at(bytes, d, 4);
    Shape { d, left, n, right }
}

// Entry k: sizes, zero, offset. `start` is where the body of core k belongs.
#[tactic(auto, using(crate::proofs::Headers::entered))]
fn entry_ok(bytes: &[u8], s: Shape, k: usize, start: usize) -> Result<(), Refusal>
    requires { (k < most_axes) × (entry_start k + 12 ≤ length bytes.now) × (start ≡ body_start s k) }
    ensures { result ≡ entry_ok bytes.now s k }
{
    let at = 8 + 12 * k;
    if !s.size_ok(k) {
        return Err(Refusal::Size(k));
    }
    if words::u16_at(bytes, at + 6) != 0 {
        return Err(Refusal::File(at + 6));
    }
    if words::u32_at(bytes, at + 8) != start {
        return Err(Refusal::File(at + 8));
    }
    Ok(())
}

// How many bytes the body of core k has.
#[tactic(auto, using(crate::proofs::Headers::bodies))]
fn body_size(s: Shape, k: usize) -> usize
    requires { (k < most_axes) × (size_ok s k ≡ true) }
    ensures { (result ≡ 8 * core_size s k) × (result ≤ 8 * most_core) }
{
    8 * (s.left[k] * s.n[k] * s.right[k])
}

// Entry by entry.
#[tactic(auto, using(crate::proofs::Tables::entrywise))]
fn entries_ok(bytes: &[u8], s: Shape) -> Result<(), Refusal>
    requires { (s.d ≤ most_axes) × (entry_start s.d ≤ length bytes.now) }
    ensures { result ≡ (turning s.d 0 (λ (k : ℕ) _. entry_ok bytes.now s k) tt) }
{
    let mut start = 8 + 12 * s.d;
    for k in 0..s.d {
        entry_ok(bytes, s, k, start)?;
        start += body_size(s, k);
    }
    Ok(())
}

// Entries, then bonds.
#[tactic(auto, unfolding(fileform::specs::Reading::table_ok))]
fn table_ok(bytes: &[u8], s: Shape) -> Result<(), Refusal>
    requires { (s.d ≤ most_axes) × (entry_start s.d ≤ length bytes.now) }
    ensures { result ≡ table_ok bytes.now s }
{
    entries_ok(bytes, s)?;
    s.check()
}

// The table of d entries.
#[tactic(auto, using(crate::proofs::Tables::tabled))]
fn read_table(bytes: &[u8], d: usize) -> Result<Shape, Refusal>
    requires { d ≤ most_axes }
    ensures { result ≡ read_table bytes.now d }
{
    if bytes.len() < 8 + 12 * d {
        return Err(Refusal::File(bytes.len()));
    }
    let s = shape_in(bytes, d);
    table_ok(bytes, s)?;
    Ok(s)
}

// Header and table: the contents, bodies aside.
#[tactic(auto, using(crate::proofs::Tables::header_few), unfolding(fileform::specs::Reading::read_contents))]
pub fn read_contents(bytes: &[u8]) -> Result<Shape, Refusal>
    ensures { result ≡ read_contents bytes.now }
{
    let d = header_ok(bytes)?;
    read_table(bytes, d)
}
