// Numbers drawn from a seed, the same ones in every run of the program.
ghost use Rattle.std.specs.Prelude.{◌-◌, ◌≤◌};

// The seed after this one, by three shifts and a sum.
pub fn next(seed: usize) -> usize {
    let a = seed ^ seed << 13;
    let b = a ^ a >> 7;
    (b ^ b << 17).wrapping_add(0x9e37_79b9_7f4a_7c15)
}

// A number below n of a seed; 0 where n is 0.
pub fn below(x: usize, n: usize) -> usize
    ensures { result ≤ n - 1 }
{
    x.checked_rem(n).unwrap_or(0)
}

// A whole number below n.
pub fn whole(x: usize, n: usize) -> f64
    requires { n ≤ 4294967296 }
{
    below(x, n) as f64
}

// -1 to 1 in steps of 2^-20, or now and then a zero of either sign or a whole number.
pub fn number(x: usize) -> f64 {
    let y = x / 16;
    match x % 16 {
        0 => 0.0,
        1 => -0.0,
        2 | 3 => whole(y, 5) - 2.0,
        _ => whole(y, 2097153) / 1048576.0 - 1.0,
    }
}

// Numbers of one scale.
pub fn fill(seed: usize, scale: f64, out: &mut [f64]) {
    let mut x = seed;
    for to in out {
        x = next(x);
        *to = number(x) * scale;
    }
}
