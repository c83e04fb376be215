// Two kept runs beside each other, number by number and bit by bit.
#![tactic(auto)]

ghost use Rattle.std.specs.Prelude.{◌≡◌};
ghost use Rattle.runform.specs.Slices.{outputs};
ghost use Rattle.comparing.specs.Same.{Tells, SameRecord, SameKept};

// Whether two numbers have the same bits. A derived `==` asks another thing: it tells a NaN from itself, and not -0 from +0.
pub fn same_number(x: f64, y: f64) -> bool
    ensures { Tells result (x ≡ y) }
{
    digits::pattern(x) == digits::pattern(y)
}

// Whether two lists hold the same numbers, down to the bits.
pub fn same_numbers(a: &[f64], b: &[f64]) -> bool
    ensures { Tells result (a.now ≡ b.now) }
{
    a.len() == b.len() && a.iter().zip(b).all(|(x, y)| same_number(*x, *y))
}

fn same_bond(a: cutform::Bond, b: cutform::Bond) -> bool
    ensures { Tells result (a ≡ b) }
{
    a.rank == b.rank
        && a.sweeps == b.sweeps
        && a.settled == b.settled
        && same_number(a.dropped, b.dropped)
}

fn same_bonds(a: [cutform::Bond; shape::MOST_AXES], b: [cutform::Bond; shape::MOST_AXES]) -> bool
    ensures { Tells result (a ≡ b) }
{
    a.iter().zip(&b).all(|(x, y)| same_bond(*x, *y))
}

// Whether two records keep the same bonds and figure.
pub fn same_record(a: runform::Run, b: runform::Run) -> bool
    ensures { Tells result (SameRecord a b) }
{
    same_bonds(a.bonds, b.bonds) && same_number(a.figure, b.figure)
}

// Whether two runs keep the same: their records, chains, carries and sums.
pub fn same_kept(
    a: runform::Run,
    b: runform::Run,
    chain: &[f64],
    chain2: &[f64],
    carries: &[f64],
    carries2: &[f64],
    sums: &[f64],
    sums2: &[f64],
) -> bool
    ensures { Tells result (SameKept a b (outputs chain.now carries.now sums.now)
        (outputs chain2.now carries2.now sums2.now)) }
{
    same_record(a, b)
        && same_numbers(chain, chain2)
        && same_numbers(carries, carries2)
        && same_numbers(sums, sums2)
}
