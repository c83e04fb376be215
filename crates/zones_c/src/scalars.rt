// Calls over single numbers.
ghost use Rattle.std.specs.Prelude.{◌≡◌};
ghost use Rattle.numbers.specs.Root.{root_of};
ghost use Rattle.numbers.specs.Floor.{floor_of};
ghost use Rattle.numbers.specs.Magnitude.{magnitude_of};

#[unsafe(no_mangle)]
pub extern "C" fn uyavsker_root(x: f64) -> f64
    ensures { result ≡ root_of x }
{
    zones::scalars::uyavsker_root(x)
}

#[unsafe(no_mangle)]
pub extern "C" fn uyavsker_floor(x: f64) -> f64
    ensures { result ≡ floor_of x }
{
    zones::scalars::uyavsker_floor(x)
}

#[unsafe(no_mangle)]
pub extern "C" fn uyavsker_magnitude(x: f64) -> f64
    ensures { result ≡ magnitude_of x }
{
    zones::scalars::uyavsker_magnitude(x)
}
