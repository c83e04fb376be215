// Refusals 6 and 7: what a run is made from and what is found of it, in used room.
ghost use Rattle.std.specs.Prelude.{◌≡◌, ◌≤◌, ◌<◌, length, Ok};
ghost use Rattle.lists.specs.Lists.{first_not};
ghost use Rattle.shape.specs.Shapes.{shape_ok, entries_of, all_points};
ghost use Rattle.shape.specs.Sizes.{SizesWithin};
ghost use Rattle.runform.specs.Slices.{slices};
ghost use Rattle.runform.specs.Kept.{kept_of, lengths_of};
ghost use Rattle.runform.specs.Checks.{rank_ok, slices_lent, made_ok};
ghost use Rattle.runform.specs.Requests.{zone_found, found_numbers};

// The first zone with a number that isn't finite, in what it is made from or in what is kept of it, or d.
fn first_bad_number(
    r: runform::Run,
    source: &[f64],
    weights: &[f64],
    chain: &[f64],
    carries: &[f64],
    sums: &[f64],
) -> usize
    requires bonds_value { shape_ok r.shape (rank_ok r.shape r.bonds) ≡ Ok tt }
    requires sums_value { slices_lent r.shape (lengths_of (kept_of r (slices source.now weights.now chain.now carries.now sums.now))) ≡ Ok tt }
    ensures { result ≡ first_not (zone_found
        (kept_of r (slices source.now weights.now chain.now carries.now sums.now))) r.shape.d }
{
    let made = crate::found::first_bad_made(r.shape, r.axes, source, weights);
    let held = crate::rooms::first_bad_held(r.shape, r.bonds, chain, carries, sums);
    made.min(held)
}

// Refusals 6 and 7 of a run and a new part at zone z, which is finite or not, and an axis record in order or not.
pub fn numbers_found(
    r: runform::Run,
    z: usize,
    part: bool,
    axis: bool,
    source: &[f64],
    weights: &[f64],
    chain: &[f64],
    carries: &[f64],
    sums: &[f64],
) -> Result<(), answers::Refusal>
    requires z_lt_d { (z < r.shape.d) × (shape_ok r.shape (rank_ok r.shape r.bonds) ≡ Ok tt) }
    requires sums_value { slices_lent r.shape (lengths_of (kept_of r (slices source.now weights.now chain.now carries.now sums.now))) ≡ Ok tt }
    ensures { result ≡ (found_numbers
        (kept_of r (slices source.now weights.now chain.now carries.now sums.now)) z part axis) }
{
    let d = r.shape.d;
    let first = first_bad_number(r, source, weights, chain, carries, sums);
    let number = crate::found::with_part(first, part, z);
    let record = checks::settings::first_out_of_order(d, r.axes);
    let setting = crate::found::with_part(record, axis, z);
    let lone = checks::settings::lone_finite(r.set);
    let figure = numbers::is_finite(r.figure);
    let mild = checks::settings::lone_ok(r.set);
    crate::found::numbers_ok(lone & figure, number, mild, setting, d)
}

// Refusals 6 and 7 of what a fresh run is made from.
pub fn numbers_made(
    s: shape::Shape,
    xs: [stepform::Axis; shape::MOST_AXES],
    set: stepform::Settings,
    source: &[f64],
    weights: &[f64],
) -> Result<(), answers::Refusal>
    requires sizes_within { SizesWithin s }
    requires s_in_bounds { (entries_of s ≤ length source.now) × (all_points s ≤ length weights.now) }
    ensures { result ≡ (made_ok
        (record { shape = s; axes = xs; set = set; source = source.now; weights = weights.now })) }
{
    let d = s.d;
    let number = crate::found::first_bad_made(s, xs, source, weights);
    let setting = checks::settings::first_out_of_order(d, xs);
    let lone = checks::settings::lone_finite(set);
    let mild = checks::settings::lone_ok(set);
    crate::found::numbers_ok(lone, number, mild, setting, d)
}
