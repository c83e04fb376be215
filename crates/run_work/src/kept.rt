// The shape of the chain that a run keeps.
ghost use Rattle.std.specs.Prelude.{◌≤◌};
ghost use Rattle.shape.specs.Limits.{most_axes};
ghost use Rattle.run_work.specs.Ranked.{Ranked};

// The source's shape with the kept ranks.
pub fn kept_shape(s: shape::Shape, bonds: [cutform::Bond; shape::MOST_AXES]) -> shape::Shape
    requires { s.d ≤ most_axes }
    ensures { Ranked s bonds result s.d }
{
    let mut t = s;
    for k in 0..s.d {
        t = t.with_core(
            k,
            run_slices::ranks::left_rank(bonds, k),
            run_slices::ranks::right_rank(s, bonds, k),
        );
    }
    t
}
