// How a number of a column is rescaled for a core.
ghost use Rattle.std.specs.Prelude.{◌≡◌};
ghost use Rattle.numbers.specs.Arithmetic.{times};
ghost use Rattle.pairform.specs.Numbers.{inverse};

// 1/value, or 0 where the value isn't above zero.
#[tactic(auto, unfolding(pairform::specs::Numbers::inverse, lists::specs::Lists::pick))]
fn inverse(value: f64) -> f64
    ensures { result ≡ inverse value }
{
    if 0.0 < value {
        return 1.0 / value;
    }
    0.0
}

// A number of a column made of length 1, and long again.
pub fn rescaled(x: f64, value: f64) -> f64
    ensures { result ≡ times (times x (inverse value)) value }
{
    x * inverse(value) * value
}
