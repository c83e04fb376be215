// Refusals 1 to 3 of a run: its shape, and the ranks that are kept.
ghost use Rattle.std.specs.Prelude.{◌≡◌, ◌&&◌, ℕ, ◌≤◌, ◌<◌};
ghost use Rattle.lists.specs.Lists.{first_not};
ghost use Rattle.shape.specs.Limits.{most_axes};
ghost use Rattle.shape.specs.Shapes.{bond_ok, shape_ok};
ghost use Rattle.runform.specs.Checks.{rank_ok};

// Whether the kept rank of bond k is at least 1 and at most its source's; right of the last core there is none.
#[tactic(auto, using(runform::proofs::KeptRanks::rank_bond, runform::proofs::KeptRanks::rank_end))]
fn rank_ok(s: shape::Shape, bonds: [cutform::Bond; shape::MOST_AXES], k: usize) -> bool
    requires { (k < s.d) × (s.d ≤ most_axes) }
    ensures { result ≡ rank_ok s bonds k }
{
    if k + 1 < s.d {
        return shape::within(s.right[k], bonds[k].rank);
    }
    true
}

// The first core whose bond, or its kept rank, does not hold, or d.
#[tactic(auto, using(lists::proofs::Demands::passing, crate::proofs::Guards::both_found))]
fn first_bad_bond(s: shape::Shape, bonds: [cutform::Bond; shape::MOST_AXES]) -> usize
    requires { s.d ≤ most_axes }
    ensures { result ≡ first_not (λ (k : ℕ). bond_ok s k && rank_ok s bonds k) s.d }
{
    for k in 0..s.d {
        let joined = s.bond_ok(k);
        let kept = rank_ok(s, bonds, k);
        if !(joined & kept) {
            return k;
        }
    }
    s.d
}

// Refusals 1 to 3, of a shape and the ranks that are kept of it.
#[tactic(auto, using(shape::proofs::Verdicts::verdicts))]
pub fn shape_ok(
    s: shape::Shape,
    bonds: [cutform::Bond; shape::MOST_AXES],
) -> Result<(), answers::Refusal>
    ensures { result ≡ shape_ok s (rank_ok s bonds) }
{
    let d = s.d;
    if !shape::within(shape::MOST_AXES, d) {
        return Err(answers::Refusal::Axes);
    }
    let size = s.first_bad_size();
    if size < d {
        return Err(answers::Refusal::Size(size));
    }
    if s.left[0] != 1 {
        return Err(answers::Refusal::Ranks(0));
    }
    let bond = first_bad_bond(s, bonds);
    if bond < d {
        return Err(answers::Refusal::Ranks(bond));
    }
    Ok(())
}
