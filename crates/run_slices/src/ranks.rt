// How much of a core's room is used: the kept ranks on its left and on its right.
ghost use Rattle.std.specs.Prelude.{◌≡◌, ◌≤◌, ◌<◌};
ghost use Rattle.shape.specs.Limits.{most_axes};
ghost use Rattle.runform.specs.Kept.{left_held, right_held};

#[tactic(auto, using(runform::proofs::KeptRanks::left_first, runform::proofs::KeptRanks::left_next))]
pub fn left_rank(bonds: [cutform::Bond; shape::MOST_AXES], k: usize) -> usize
    requires { k < most_axes }
    ensures { result ≡ left_held bonds k }
{
    if k < 1 {
        return 1;
    }
    bonds[k - 1].rank
}

#[tactic(auto, using(runform::proofs::KeptRanks::right_bond, runform::proofs::KeptRanks::right_end))]
pub fn right_rank(s: shape::Shape, bonds: [cutform::Bond; shape::MOST_AXES], k: usize) -> usize
    requires { (k < s.d) × (s.d ≤ most_axes) }
    ensures { result ≡ right_held s bonds k }
{
    if k + 1 < s.d {
        return bonds[k].rank;
    }
    s.right[k]
}
