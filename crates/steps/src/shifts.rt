// The shifts and the scaling of the zones from one on, in place: core k stands in `work` where core k of the source shape s begins, with the sizes of t.
ghost use Rattle.std.specs.Prelude.{◌≡◌, true, ℕ, ◌-◌, ◌≤◌, ◌<◌};
ghost use Rattle.answers.specs.Outcome.{bind, answered};
ghost use Rattle.lists.specs.Lists.{listed};
ghost use Rattle.lists.specs.Walks.{every};
ghost use Rattle.stepform.specs.Zones.{rules};
ghost use Rattle.stepform.specs.Steps.{shift_zone, scale_zone};
ghost use Rattle.stepform.specs.Call.{axis_reaches};
ghost use Rattle.checks.specs.Over.{Onward, zone_in, stand_from, Stands, Rooms};

// All shifts from zone z on, then the scaling.
pub fn move_from(
    z: usize,
    s: shape::Shape,
    t: shape::Shape,
    set: stepform::Settings,
    xs: [stepform::Axis; shape::MOST_AXES],
    work: &mut [f64],
    room: &mut [f64],
    block: &mut [f64],
) -> Result<(), answers::Refusal>
    requires stands { (Stands s t work.old) × (Rooms room.old block.old) }
    requires z_le_d { (z ≤ s.d) × ((k : ℕ) → z ≤ k → k < s.d → axis_reaches set s xs k ≡ true) }
    ensures a_value { bind (every (shift_zone rules set) z (listed (s.d - z) z (zone_in s t xs work.old)))
        (λ a. every (scale_zone rules set) z a)
        ≡ answered result (stand_from s t z work.new) }
    ensures onward { Onward s z work.old work.new }
{
    for k in z..s.d {
        let x = axes::axis_in(xs, k);
        crate::moves::shift_zone(k, s, t, set, x, work, room, block)?;
    }
    crate::moves::scale_from(z, s, t, set, work)
}
