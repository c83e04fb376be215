// The numbers behind the table: checked where they stand, then made.
ghost use Rattle.std.specs.Prelude.{◌≡◌, ◌≤◌, length, Ok};
ghost use Rattle.numbers.specs.Arithmetic.{zero64};
ghost use Rattle.lists.specs.Slots.{fit};
ghost use Rattle.shape.specs.Shapes.{entries_of};
ghost use Rattle.shape.specs.Sizes.{SizesWithin};
ghost use Rattle.fileform.specs.File.{file_length};
ghost use Rattle.fileform.specs.Calls.{numbers_ok};
ghost use Rattle.fileform.specs.Reading.{numbers_in};

use answers::Refusal;
use shape::Shape;

// Whether the numbers are all finite, core by core.
#[tactic(auto, using(crate::proofs::Bodies::bodywise, lists::proofs::Demands::passing, crate::proofs::Bodies::cores_found))]
pub fn numbers_ok(bytes: &[u8], s: Shape) -> Result<(), Refusal>
    requires sizes_within { SizesWithin s }
    requires bytes_len { length bytes.now ≡ file_length s }
    ensures { result ≡ numbers_ok s (numbers_in bytes.now s) }
{
    let mut at = 8 + 12 * s.d;
    for k in 0..s.d {
        let size = s.core_size(k);
        if !words::all_finite(bytes, at, size) {
            return Err(Refusal::Number(k));
        }
        at += 8 * size;
    }
    Ok(())
}

// The numbers go to the front of out, +0 to the rest.
pub fn take_numbers(bytes: &[u8], s: Shape, out: &mut [f64])
    requires sizes_within { SizesWithin s }
    requires bytes_len { (length bytes.now ≡ file_length s) × (entries_of s ≤ length out.old) × (numbers_ok s (numbers_in bytes.now s) ≡ Ok tt) }
    ensures { out.new ≡ fit zero64 (length out.old) (numbers_in bytes.now s) }
{
    let n = s.entries();
    lists::fill(out, 0.0);
    words::numbers(bytes, 8 + 12 * s.d, &mut out[0..n]);
}
