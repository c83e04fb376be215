// The step and the sums of a run from one zone on, in place: what a fresh run does from zone 0, a replacement from its own.
ghost use Rattle.std.specs.Prelude.{◌≡◌, List, Float};
ghost use Rattle.std.specs.Result.{IfOk};
ghost use Rattle.answers.specs.Outcome.{outcome_of};
ghost use Rattle.cuts.specs.declared.Walked.{Walked};
ghost use Rattle.cuts.specs.Slots.{held_by};
ghost use Rattle.stepform.specs.Zones.{rules};
ghost use Rattle.runform.specs.Work.{restep, work_from};
ghost use Rattle.run_work.specs.InPlace.{in_place, held_in, RanksWithin, Steps, Sums};

// The step from zone z on, of the sources in the work, from the carry that is held left of z.
fn step_again(
    z: usize,
    w: cuts::Walked,
    set: stepform::Settings,
    xs: [stepform::Axis; shape::MOST_AXES],
    work: &mut [f64],
    carries: &mut [f64],
) -> Result<cuts::Walked, answers::Refusal>
    requires { Steps z w set xs work.old carries.old }
    ensures { ((weights : List Float) →
        restep rules (in_place w.shape xs set work.old weights) (held_by w work.old carries.old) z
        ≡ outcome_of result (λ (x : Walked). held_by x work.new carries.new)) × IfOk result (λ (x : Walked). RanksWithin w.shape x.bonds w.shape.d) }
{
    let s = w.shape;
    let mut room = [0.0; shape::MOST_CORE];
    let mut block = [0.0; shape::MOST_BLOCK];
    steps::step_from(z, s, w, set, xs, work, carries, &mut room, &mut block)
}

// The step and then the sums from zone z on, from the carry and the sum that are held left of z.
pub fn redo_from(
    z: usize,
    w: cuts::Walked,
    set: stepform::Settings,
    xs: [stepform::Axis; shape::MOST_AXES],
    weights: &[f64],
    work: &mut [f64],
    carries: &mut [f64],
    sums: &mut [f64],
) -> Result<cuts::Walked, answers::Refusal>
    requires steps { Steps z w set xs work.old carries.old }
    requires sums { Sums w.shape weights.now sums.old }
    ensures { work_from rules
        (held_in (in_place w.shape xs set work.old weights.now) w work.old carries.old sums.old) z
        ≡ outcome_of result
        (λ (x : Walked). held_in (in_place w.shape xs set work.old weights.now) x work.new carries.new sums.new) }
{
    let s = w.shape;
    let stepped = step_again(z, w, set, xs, work, carries)?;
    let bonds = stepped.bonds;
    let t = crate::kept::kept_shape(s, bonds);
    product::sums::sum_from(z, s, t, work, weights, sums)?;
    Ok(stepped)
}
