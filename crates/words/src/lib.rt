// Numbers in bytes, the lowest byte first, both ways.
#![tactic(auto)]

ghost use Rattle.std.specs.Prelude.{◌≡◌, true, ◌+◌, ◌*◌, ◌%◌, ◌≤◌, ◌<◌, length};
ghost use Rattle.numbers.specs.Finite.{finite};
ghost use Rattle.lists.specs.Floats.{all_finite};
ghost use Rattle.words.specs.Bytes.{bytes_of, f64, u16_at, u32_at, number_at, f64_at, numbers_from, bytes_of_all};
ghost use Rattle.words.specs.Placed.{placed};

// ---- from bytes

// The number in two bytes from p on.
#[tactic(auto, using(crate::proofs::Bytes::two_at))]
pub fn u16_at(bytes: &[u8], p: usize) -> usize
    requires { p + 2 ≤ length bytes.now }
    ensures { (result ≡ u16_at bytes.now p) × (result < 65536) }
{
    u16::from_le_bytes([bytes[p], bytes[p + 1]]) as usize
}

// The number in four.
#[tactic(auto, using(crate::proofs::Bytes::four_at))]
pub fn u32_at(bytes: &[u8], p: usize) -> usize
    requires { p + 4 ≤ length bytes.now }
    ensures { (result ≡ u32_at bytes.now p) × (result < 4294967296) }
{
    u32::from_le_bytes([bytes[p], bytes[p + 1], bytes[p + 2], bytes[p + 3]]) as usize
}

// The number in eight, by its halves: a test of its highest digits then looks at the upper one alone.
#[tactic(auto, using(crate::proofs::Bytes::eight_at))]
fn u64_at(bytes: &[u8], p: usize) -> u64
    requires { p + 8 ≤ length bytes.now }
    ensures { result ≡ number_at 8 bytes.now p }
{
    u32_at(bytes, p) as u64 + 0x1_0000_0000 * u32_at(bytes, p + 4) as u64
}

// Whether the f64 in eight bytes from p on is finite: the digits of its exponent aren't all one.
#[tactic(auto, using(crate::proofs::Finite::finite_bits))]
pub fn finite_at(bytes: &[u8], p: usize) -> bool
    requires { p + 8 ≤ length bytes.now }
    ensures { result ≡ finite (f64_at bytes.now p) }
{
    u64_at(bytes, p) % 0x8000_0000_0000_0000 < 0x7ff0_0000_0000_0000
}

// Whether the m numbers from p on are all finite.
#[tactic(auto, using(crate::proofs::Runs::flag_number, crate::proofs::Runs::flag_numbers))]
pub fn all_finite(bytes: &[u8], p: usize, m: usize) -> bool
    requires { p + 8 * m ≤ length bytes.now }
    ensures { result ≡ all_finite (numbers_from bytes.now p m) }
{
    let mut all = true;
    for i in 0..m {
        all &= finite_at(bytes, p + 8 * i);
    }
    all
}

// The f64 in eight bytes from p on, which is finite.
#[tactic(auto, using(crate::proofs::Finite::finite_no_nan))]
fn f64_at(bytes: &[u8], p: usize) -> f64
    requires { (p + 8 ≤ length bytes.now) × (finite (f64_at bytes.now p) ≡ true) }
    ensures { result ≡ f64_at bytes.now p }
{
    f64::from_bits(u64_at(bytes, p))
}

// As many numbers as out has, from p on, all of them finite.
#[tactic(auto, using(crate::proofs::Runs::number_finite))]
pub fn numbers(bytes: &[u8], p: usize, out: &mut [f64])
    requires { (p + 8 * length out.old ≤ length bytes.now) × (all_finite (numbers_from bytes.now p (length out.old)) ≡ true) }
    ensures { out.new ≡ numbers_from bytes.now p (length out.old) }
{
    for i in 0..out.len() {
        out[i] = f64_at(bytes, p + 8 * i);
    }
}

// ---- to bytes

// The two lowest bytes of x.
#[tactic(auto, using(crate::proofs::Bytes::two_bytes))]
pub fn u16_bytes(x: usize) -> [u8; 2]
    ensures { result ≡ bytes_of 2 x }
{
    ((x % 0x1_0000) as u16).to_le_bytes()
}

// The four lowest.
#[tactic(auto, using(crate::proofs::Bytes::four_bytes))]
pub fn u32_bytes(x: usize) -> [u8; 4]
    ensures { result ≡ bytes_of 4 x }
{
    ((x % 0x1_0000_0000) as u32).to_le_bytes()
}

// The eight bytes of a finite number.
#[tactic(auto, using(crate::proofs::Finite::finite_known, crate::proofs::Bytes::eight_bytes))]
fn f64_bytes(x: f64) -> [u8; 8]
    requires { finite x ≡ true }
    ensures { result ≡ f64 x }
{
    x.to_le_bytes()
}

// src goes to out, from p on.
#[tactic(auto, unfolding(crate::specs::Placed::placed))]
pub fn put(src: &[u8], out: &mut [u8], p: usize)
    requires { p + length src.now ≤ length out.old }
    ensures { out.new ≡ placed p src.now out.old }
{
    out[p..p + src.len()].copy_from_slice(src);
}

// The bytes of finite numbers, one after another from p on.
#[tactic(auto, using(lists::proofs::Floats::finite_get_d_lem, crate::proofs::Runs::write_none, crate::proofs::Runs::write_more))]
pub fn put_numbers(list: &[f64], out: &mut [u8], p: usize)
    requires { (p + 8 * length list.now ≤ length out.old) × (all_finite list.now ≡ true) }
    ensures { out.new ≡ placed p (bytes_of_all list.now) out.old }
{
    for i in 0..list.len() {
        put(&f64_bytes(list[i]), out, p + 8 * i);
    }
}
