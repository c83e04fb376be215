// New weights of one zone: the sums are made apart, and go into the run once nothing can refuse any more.
ghost use Rattle.std.specs.Prelude.{◌≡◌, List, ◌++◌, ◌-◌, ◌≤◌, ◌<◌, length, take, drop, Float, Ok};
ghost use Rattle.answers.specs.Outcome.{answered};
ghost use Rattle.lists.specs.Slots.{offset, put};
ghost use Rattle.lists.specs.Floats.{at, zeros};
ghost use Rattle.shape.specs.Shapes.{shape_ok, point_size, entries_of, all_points};
ghost use Rattle.shape.specs.Sizes.{PointsWithin, SizesWithin, Inside};
ghost use Rattle.sumform.specs.Sums.{sum_size, sums_from};
ghost use Rattle.runform.specs.Slices.{slices};
ghost use Rattle.runform.specs.Checks.{rank_ok};
ghost use Rattle.run_work.specs.Weights.{Lent, weights_end};

// The weights with the new part in, at the front of anew.
fn with_part(s: shape::Shape, z: usize, weights: &[f64], part: &[f64], anew: &mut [f64])
    requires points_within { PointsWithin s }
    requires z_lt_d { (z < s.d) × (length part.now ≡ point_size s z) × (length weights.now ≡ all_points s) × (length weights.now ≤ length anew.old) }
    ensures { take (length weights.now - 0) anew.new ≡ put (point_size s) z part.now weights.now }
{
    run_slices::copies::put_at(0, weights, anew);
    let at = s.points_offset(z);
    run_slices::copies::put_at(at, part, anew);
}

// The sums from zone z on over the new weights, at the front of held; t is the shape of the chain that is kept.
fn sums_anew(
    z: usize,
    s: shape::Shape,
    t: shape::Shape,
    chain: &[f64],
    weights: &[f64],
    part: &[f64],
    sums: &[f64],
    held: &mut [f64],
) -> Result<(), answers::Refusal>
    requires sizes_within { (SizesWithin s) × (Inside s t) × (entries_of s ≤ length chain.now) }
    requires z_lt_d { (z < s.d) × (length part.now ≡ point_size s z) × (length weights.now ≡ all_points s) }
    requires sums_len { (length sums.now ≡ offset (sum_size s) s.d) × (length sums.now ≤ length held.old) }
    ensures { sums_from s t chain.now (put (point_size s) z part.now weights.now) z sums.now
        ≡ answered result (take (length sums.now) held.new) }
{
    let mut anew = [0.0; shape::MOST_WEIGHTS];
    with_part(s, z, weights, part, &mut anew);
    run_slices::copies::put_at(0, sums, held);
    let n = weights.len();
    let m = sums.len();
    product::sums::sum_from(z, s, t, chain, &anew[0..n], &mut held[0..m])
}

// The part and the sums from zone z on go into the run. The figure is the first number of the last axis' sums.
fn commit(
    s: shape::Shape,
    z: usize,
    part: &[f64],
    held: &[f64],
    weights: &mut [f64],
    sums: &mut [f64],
) -> f64
    requires sizes_within { (SizesWithin s) × (length sums.old ≤ length held.now) }
    requires z_lt_d { (z < s.d) × (length part.now ≡ point_size s z) × (length weights.old ≡ all_points s) × (length sums.old ≡ offset (sum_size s) s.d) }
    ensures { (weights.new ≡ put (point_size s) z part.now weights.old)
        × (sums.new
        ≡ take (offset (sum_size s) z) sums.old ++ drop (offset (sum_size s) z) (take (length sums.old) held.now))
        × (result ≡ at sums.new (offset (sum_size s) (s.d - 1))) }
{
    let point = s.points_offset(z);
    let from = product::sums::sum_offset(s, z);
    let last = product::sums::sum_offset(s, s.d - 1);
    run_slices::copies::put_at(point, part, weights);
    run_slices::copies::copy_from(from, held, sums);
    sums[last]
}

fn fitted(mut r: runform::Run, figure: f64) -> runform::Ran
    ensures { result ≡ record { verdict = Ok tt; run = record { shape = r.shape; axes = r.axes; set = r.set; bonds = r.bonds; figure = figure } } }
{
    r.figure = figure;
    runform::Ran {
        verdict: Ok(()),
        run: r,
    }
}

// The run with new weights for zone z, once its checks have passed.
pub fn resummed(
    r: runform::Run,
    z: usize,
    weights: &mut [f64],
    chain: &[f64],
    sums: &mut [f64],
    part: &[f64],
) -> runform::Ran
    requires bonds_value { shape_ok r.shape (rank_ok r.shape r.bonds) ≡ Ok tt }
    requires lent { Lent r.shape z part.now weights.old chain.now sums.old }
    ensures { ((source carries scratch : List Float) →
        record {
          result = result;
          slices = slices source weights.new chain.now carries sums.new;
          scratch = zeros (length scratch);
        }
        ≡ weights_end r z (slices source weights.old chain.now carries sums.old) part.now scratch) }
{
    let s = r.shape;
    let bonds = r.bonds;
    let t = crate::kept::kept_shape(s, bonds);
    let mut held = [0.0; shape::MOST_SUMS];
    if let Err(q) = sums_anew(z, s, t, chain, weights, part, sums, &mut held) {
        return crate::refused(q, r);
    }
    let figure = commit(s, z, part, &held, weights, sums);
    fitted(r, figure)
}
