// A chance as text: with six decimals, and as the bits of its f64.
#![tactic(auto)]

ghost use Rattle.std.specs.Prelude.{◌≡◌, ◌%◌};
ghost use Rattle.std.specs.Float.{binary64};
ghost use Rattle.std.specs.Float.Ieee.{to_bits};
ghost use Rattle.io.specs.Digits.{hex_digit_ascii};
ghost use Rattle.digits.specs.Text.{pointed, chance_text, bits_text};

// The last digit of n.
fn digit(n: usize) -> u8
    ensures { result ≡ hex_digit_ascii (n % 10) }
{
    b'0' + (n % 10) as u8
}

// Millionths with a point.
#[tactic(auto, unfolding(crate::specs::Text::pointed))]
fn with_point(m: usize) -> [u8; 8]
    ensures { result ≡ pointed m }
{
    [
        digit(m / 1_000_000),
        b'.',
        digit(m / 100_000),
        digit(m / 10_000),
        digit(m / 1_000),
        digit(m / 100),
        digit(m / 10),
        digit(m),
    ]
}

// A number from zero to below ten with six decimals, and dashes for any other.
#[tactic(auto, unfolding(crate::specs::Text::chance_text, lists::specs::Lists::pick))]
pub fn chance(x: f64) -> [u8; 8]
    ensures { result ≡ chance_text x }
{
    let y = x * 1000000.0;
    if 0.0 <= y && y < 10000000.0 {
        with_point(numbers::whole(y).unsigned_abs())
    } else {
        [b'-'; 8]
    }
}

// The bits of x; one pattern stands for every NaN.
#[tactic(auto, using(crate::proofs::Texts::nan_pattern))]
pub fn pattern(x: f64) -> u64
    ensures { result ≡ to_bits binary64 x }
{
    if x.is_nan() {
        0x7ff8_0000_0000_0000
    } else {
        x.to_bits()
    }
}

// The bits of x in base 16.
#[tactic(auto, using(crate::proofs::Texts::sixteen))]
pub fn bits(x: f64) -> [u8; 16]
    ensures { result ≡ bits_text x }
{
    let mut text = [0; 16];
    io::hex(pattern(x), 16, &mut text);
    text
}
