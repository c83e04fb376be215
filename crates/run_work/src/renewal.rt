// A run made anew from one zone on: the work goes on in scratch and in arrays of its own, and into the run once nothing can refuse.
ghost use Rattle.std.specs.Prelude.{◌≡◌, ◌≤◌, ◌<◌, length, Ok};
ghost use Rattle.lists.specs.Slots.{put};
ghost use Rattle.lists.specs.Floats.{zeros};
ghost use Rattle.shape.specs.Shapes.{core_size, entries_of};
ghost use Rattle.shape.specs.Sizes.{SizesWithin};
ghost use Rattle.runform.specs.Slices.{outputs};
ghost use Rattle.run_work.specs.Renewed.{SourcesFrom, RenewAsks, Renewed, walked_of, run_with};

// The sources of the zones from z on, where they stand.
pub fn take_sources(z: usize, s: shape::Shape, source: &[f64], work: &mut [f64])
    requires sizes_within { SizesWithin s }
    requires z_le_d { (z ≤ s.d) × (length source.now ≡ entries_of s) × (length source.now ≤ length work.old) }
    ensures { SourcesFrom s z source.now work.new }
{
    let at = s.offset(z);
    let end = source.len();
    run_slices::copies::put_at(at, &source[at..end], work);
}

// The same, with a new core for zone z.
pub fn take_core(z: usize, s: shape::Shape, source: &[f64], part: &[f64], work: &mut [f64])
    requires sizes_within { SizesWithin s }
    requires z_lt_d { (z < s.d) × (length source.now ≡ entries_of s) × (length part.now ≡ core_size s z) × (length source.now ≤ length work.old) }
    ensures { SourcesFrom s z (put (core_size s) z part.now source.now) work.new }
{
    take_sources(z + 1, s, source, work);
    let at = s.offset(z);
    run_slices::copies::put_at(at, part, work);
}

// A new core goes into the source.
pub fn put_core(z: usize, s: shape::Shape, part: &[f64], source: &mut [f64])
    requires sizes_within { SizesWithin s }
    requires z_lt_d { (z < s.d) × (length source.old ≡ entries_of s) × (length part.now ≡ core_size s z) }
    ensures { source.new ≡ put (core_size s) z part.now source.old }
{
    let at = s.offset(z);
    run_slices::copies::put_at(at, part, source);
}

fn walked_of(r: runform::Run) -> cuts::Walked
    ensures { result ≡ walked_of r }
{
    let shape = r.shape;
    let bonds = r.bonds;
    cuts::Walked { shape, bonds }
}

fn fitted(mut r: runform::Run, w: cuts::Walked, figure: f64) -> runform::Ran
    ensures { result ≡ record { verdict = Ok tt; run = run_with r w figure } }
{
    let bonds = w.bonds;
    r.bonds = bonds;
    r.figure = figure;
    runform::Ran {
        verdict: Ok(()),
        run: r,
    }
}

// The step and the sums from zone z on of the sources in scratch, and the commit.
fn worked(
    z: usize,
    r: runform::Run,
    weights: &[f64],
    chain: &mut [f64],
    carries: &mut [f64],
    sums: &mut [f64],
    scratch: &mut [f64],
) -> runform::Ran
    requires { RenewAsks r z weights.now (outputs chain.old carries.old sums.old) scratch.old }
    ensures { Renewed r z weights.now (outputs chain.old carries.old sums.old)
        scratch.old result (outputs chain.new carries.new sums.new) }
{
    let s = r.shape;
    let xs = r.axes;
    let set = r.set;
    let mut held = [0.0; shape::MOST_CARRIES];
    let mut summed = [0.0; shape::MOST_SUMS];
    run_slices::take_carry(z, s, carries, &mut held);
    run_slices::take_sum(z, s, sums, &mut summed);
    let redone = crate::again::redo_from(
        z,
        walked_of(r),
        set,
        xs,
        weights,
        scratch,
        &mut held,
        &mut summed,
    );
    let w = match redone {
        Ok(w) => w,
        Err(q) => return crate::refused(q, r),
    };
    let figure = run_slices::commit(z, s, scratch, &held, &summed, chain, carries, sums);
    fitted(r, w, figure)
}

// The same, and scratch all +0.
pub fn renew(
    z: usize,
    r: runform::Run,
    weights: &[f64],
    chain: &mut [f64],
    carries: &mut [f64],
    sums: &mut [f64],
    scratch: &mut [f64],
) -> runform::Ran
    requires { RenewAsks r z weights.now (outputs chain.old carries.old sums.old) scratch.old }
    ensures { (Renewed r z weights.now (outputs chain.old carries.old sums.old)
        scratch.old result (outputs chain.new carries.new sums.new))
        × (scratch.new ≡ zeros (length scratch.old)) }
{
    let a = worked(z, r, weights, chain, carries, sums, scratch);
    lists::fill(scratch, 0.0);
    a
}
