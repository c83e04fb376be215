// The two bands of a shift: their weights, where their rows start, and one entry.
ghost use Rattle.std.specs.Prelude.{◌≡◌, true, suc, ◌+◌, ◌*◌, ◌^◌, ◌<◌, ◌≤◌, length};
ghost use Rattle.numbers.specs.Whole.{whole_of, fraction_of, in_reach};
ghost use Rattle.shape.specs.Limits.{most_points};
ghost use Rattle.stepform.specs.Weights.{cubic_band_weights};
ghost use Rattle.shift.specs.Starts.{starts_of, StartRoom, band_in, entry_in};

// The four weights of a fraction, for the offsets -1 to 2.
#[tactic(auto, unfolding(stepform::specs::Weights::cubic_band_weights))]
pub fn cubic_band_weights(t: f64) -> [f64; 4]
    ensures { result ≡ cubic_band_weights t }
{
    let t1 = t - 1.0;
    let t2 = t - 2.0;
    let tp1 = t + 1.0;
    let sixth = 0.16666666666666666;
    let half = 0.5;
    [
        -(t * t1 * t2) * sixth,
        (tp1 * t1 * t2) * half,
        -(tp1 * t * t2) * half,
        (tp1 * t * t1) * sixth,
    ]
}

// The four weights of a band: those of the ratio's fraction.
pub fn weights_of(ratio: f64) -> [f64; 4]
    ensures { result ≡ cubic_band_weights (fraction_of ratio) }
{
    cubic_band_weights(numbers::fraction(ratio))
}

// Where the rows of a band start, which come again after `period`: at the offsets s0 - 1 to s0 + 2, for the floor s0 of the ratio.
#[tactic(auto, using(numbers::proofs::Reach::in_reach_whole, crate::proofs::Starts::starting))]
pub fn starts_of(ratio: f64, period: usize, rr: usize) -> [usize; 4]
    requires { (1 ≤ period) × (period ≤ 2 * most_points) × (period * rr < 2 ^ 64) × (in_reach ratio ≡ true) }
    ensures { result ≡ starts_of period rr (whole_of ratio) }
{
    let s0 = numbers::whole(ratio);
    [
        numbers::stepped(period - 1, s0, period) * rr,
        numbers::stepped(0, s0, period) * rr,
        numbers::stepped(1, s0, period) * rr,
        numbers::stepped(2, s0, period) * rr,
    ]
}

// acc, then the four terms of a band at number j of t.
#[tactic(auto, using(lists::proofs::Turns::turns, crate::proofs::Starts::rooms), unfolding(crate::specs::Starts::band_in, lists::specs::Floats::sum_on))]
fn band(acc: f64, t: &[f64], j: usize, weights: &[f64; 4], starts: &[usize; 4]) -> f64
    requires { StartRoom starts.now (suc j) (length t.now) }
    ensures { result ≡ band_in acc t.now j weights.now starts.now 4 }
{
    let mut x = acc;
    for m in 0..4 {
        x += (0.25 * weights[m]) * t[starts[m] + j];
    }
    x
}

// Number j of a block, shifted; t is the block, written on.
#[tactic(auto, unfolding(crate::specs::Starts::entry_in))]
pub fn entry_at(
    t: &[f64],
    j: usize,
    forward: &[f64; 4],
    ahead: &[usize; 4],
    backward: &[f64; 4],
    behind: &[usize; 4],
) -> f64
    requires { (j < length t.now) × StartRoom ahead.now (suc j) (length t.now) × StartRoom behind.now (suc j) (length t.now) }
    ensures { result ≡ entry_in t.now forward.now ahead.now backward.now behind.now j }
{
    let x = band(0.5 * t[j], t, j, forward, ahead);
    band(x, t, j, backward, behind)
}
