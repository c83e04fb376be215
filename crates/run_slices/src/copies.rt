// Finished work goes into a run's slices: all that stands from one place on, or one part; and what the work starts from comes out of them.
ghost use Rattle.std.specs.Prelude.{◌≡◌, ◌++◌, ◌+◌, ◌≤◌, length, take, drop};
ghost use Rattle.run_slices.specs.Passing.{over_from, over_between};

// What stands in `from` from `at` up to `end`, in the same place of `to`; what stands before and behind is not written.
#[tactic(auto, using(crate::proofs::Copied::copied_between))]
pub fn copy_between(at: usize, end: usize, from: &[f64], to: &mut [f64])
    requires { (at ≤ end) × (end ≤ length from.now) × (end ≤ length to.old) }
    ensures { to.new ≡ over_between at end to.old from.now }
{
    lists::copy(&from[at..end], &mut to[at..end]);
}

// What stands in `from` from `at` on, as far as `to` goes; what stands before is not written.
#[tactic(auto, using(crate::proofs::Copied::copied_from))]
pub fn copy_from(at: usize, from: &[f64], to: &mut [f64])
    requires { (at ≤ length to.old) × (length to.old ≤ length from.now) }
    ensures { to.new ≡ over_from at to.old from.now }
{
    let end = to.len();
    copy_between(at, end, from, to);
}

// The numbers of a part stand in `to` from `at` on.
#[tactic(auto, using(crate::proofs::Copied::put_part))]
pub fn put_at(at: usize, part: &[f64], to: &mut [f64])
    requires { at + length part.now ≤ length to.old }
    ensures { to.new ≡ take at to.old ++ (part.now ++ drop (at + length part.now) to.old) }
{
    let end = at + part.len();
    lists::copy(part, &mut to[at..end]);
}
