// What a call answers: the refusals of the scope's table, one case a row, and whether there was one.
#![tactic(auto)]

ghost use Rattle.std.specs.Prelude.{◌≡◌};
ghost use Rattle.answers.specs.declared.Refusal.TheVariants.{Stored};
ghost use Rattle.answers.specs.Outcome.{demand, stored_in};
ghost use Rattle.answers.specs.Table.{part_number, number_of, place_of, index_of, before_work};

// What was being made where a number to be stored isn't finite.
#[derive(Clone, Copy, Debug, PartialEq, Eq)]
pub enum Part {
    // a shifted or scaled entry, or a pair's slab
    Entry,
    // a Gram matrix, a basis, a pair's columns, a singular value
    Spectrum,
    // a left factor, a carry, an absorbed core, a pair's two new cores
    Factor,
    // a partial sum
    Sum,
}

#[derive(Clone, Copy, Debug, PartialEq, Eq)]
pub enum Refusal {
    // d is outside its limits
    Axes,
    // the first core with a size outside its limits
    Size(usize),
    // the left core of two neighbours whose ranks differ, the core at an end whose rank isn't 1, or the left
    // core of a bond whose kept rank is 0 or above its source's
    Ranks(usize),
    // a zone number of d or more
    Zone,
    // the first slice, by its position in the call's list, whose length is wrong
    Length(usize),
    // the core, axis or zone of an input number that isn't finite, or 0 for a lone setting
    Number(usize),
    // the axis whose a is below zero or whose boundary isn't known, or 0 for another setting outside its limits
    Setting(usize),
    // the first axis whose shift is too far
    Reach(usize),
    // what was being made, for which core, and the index in it of the first number that isn't finite
    Stored(Part, usize, usize),
    // a pair's kept rank is too large
    PairRank,
    // the byte at which a file breaks its rules
    File(usize),
}

impl Part {
    // The number that the scope's table has for a part.
    fn number(self) -> u8
        ensures { result ≡ part_number self }
    {
        match self {
            Part::Entry => 9,
            Part::Spectrum => 12,
            Part::Factor => 13,
            Part::Sum => 14,
        }
    }
}

impl Refusal {
    // The number of a refusal in the scope's table.
    pub fn number(self) -> u8
        ensures { result ≡ number_of self }
    {
        match self {
            Refusal::Axes => 1,
            Refusal::Size(_) => 2,
            Refusal::Ranks(_) => 3,
            Refusal::Zone => 4,
            Refusal::Length(_) => 5,
            Refusal::Number(_) => 6,
            Refusal::Setting(_) => 7,
            Refusal::Reach(_) => 8,
            Refusal::Stored(part, ..) => part.number(),
            Refusal::PairRank => 10,
            Refusal::File(_) => 11,
        }
    }

    // The place that the table gives with the number.
    pub fn place(self) -> usize
        ensures { result ≡ place_of self }
    {
        match self {
            Refusal::Axes | Refusal::Zone | Refusal::PairRank => 0,
            Refusal::Size(k)
            | Refusal::Ranks(k)
            | Refusal::Length(k)
            | Refusal::Number(k)
            | Refusal::Setting(k)
            | Refusal::Reach(k)
            | Refusal::Stored(_, k, _)
            | Refusal::File(k) => k,
        }
    }

    // The index, inside what was being stored, of the first number that isn't finite; 0 where nothing was.
    pub fn index(self) -> usize
        ensures { result ≡ index_of self }
    {
        match self {
            Refusal::Stored(_, _, i) => i,
            _ => 0,
        }
    }

    // Whether a check gives it before any work.
    pub fn before_work(self) -> bool
        ensures { result ≡ before_work self }
    {
        !matches!(self, Refusal::Stored(..) | Refusal::PairRank)
    }
}

// The refusal r, unless b holds.
#[tactic(auto, unfolding(crate::specs::Outcome::demand))]
pub fn demand(b: bool, r: Refusal) -> Result<(), Refusal>
    ensures { result ≡ demand b r }
{
    if b { Ok(()) } else { Err(r) }
}

// A number to be stored that isn't finite: what was being made, of which core, and the number's index in it.
pub fn stored_at(part: Part, core: usize, index: usize) -> Refusal
    ensures { result ≡ Stored part core index }
{
    Refusal::Stored(part, core, index)
}

// What a call answers of a stage that makes this part for this core: all its numbers are finite, or the index of the first that isn't.
#[tactic(auto, unfolding(crate::specs::Outcome::staged))]
pub fn stored_in(stage: Result<(), usize>, part: Part, core: usize) -> Result<(), Refusal>
    ensures { result ≡ stored_in part core stage }
{
    stage.map_err(|i| Refusal::Stored(part, core, i))
}
