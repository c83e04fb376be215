// The one file of an accepted chain, made.
ghost use Rattle.std.specs.Prelude.{◌≡◌, ◌≤◌, ◌<◌, length, Ok};
ghost use Rattle.lists.specs.Lists.{joined};
ghost use Rattle.shape.specs.Limits.{most_axes};
ghost use Rattle.shape.specs.Shapes.{entries_of};
ghost use Rattle.shape.specs.Sizes.{SizesWithin};
ghost use Rattle.words.specs.Placed.{placed};
ghost use Rattle.fileform.specs.File.{entry_start, body_start, file_length, header, table_entry, file_of};
ghost use Rattle.fileform.specs.Calls.{numbers_ok};

use shape::Shape;

// The mark, d and zero.
#[tactic(auto, using(crate::proofs::Makes::header_made))]
fn header_bytes(d: usize) -> [u8; 8]
    ensures { result ≡ header d }
{
    let b = words::u16_bytes(d);
    [b'T', b'T', b'C', b'1', b[0], b[1], 0, 0]
}

// Entry k, whose body belongs at `start`.
#[tactic(auto, using(crate::proofs::Makes::entry_made))]
fn entry_bytes(s: Shape, k: usize, start: usize) -> [u8; 12]
    requires { (k < most_axes) × (start ≡ body_start s k) }
    ensures { result ≡ table_entry s k }
{
    let l = words::u16_bytes(s.left[k]);
    let n = words::u16_bytes(s.n[k]);
    let r = words::u16_bytes(s.right[k]);
    let b = words::u32_bytes(start);
    [
        l[0], l[1], n[0], n[1], r[0], r[1], 0, 0, b[0], b[1], b[2], b[3],
    ]
}

// The table, behind the header.
#[tactic(auto, using(crate::proofs::Bodies::bodywise, crate::proofs::Makes::table_none))]
fn put_table(s: Shape, out: &mut [u8])
    requires sizes_within { SizesWithin s }
    requires d_in_bounds { entry_start s.d ≤ length out.old }
    ensures { out.new ≡ placed 8 (joined s.d (table_entry s)) out.old }
{
    let mut start = 8 + 12 * s.d;
    for k in 0..s.d {
        words::put(&entry_bytes(s, k, start), out, 8 + 12 * k);
        start += 8 * s.core_size(k);
    }
}

// Header, table and bodies.
pub fn put_file(s: Shape, chain: &[f64], out: &mut [u8])
    requires sizes_within { SizesWithin s }
    requires chain_len { (length chain.now ≡ entries_of s) × (length out.old ≡ file_length s) × (numbers_ok s chain.now ≡ Ok tt) }
    ensures { out.new ≡ file_of s chain.now }
{
    words::put(&header_bytes(s.d), out, 0);
    put_table(s, out);
    words::put_numbers(chain, out, 8 + 12 * s.d);
}
