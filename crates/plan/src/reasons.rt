// The words of the table of refusals, for those that a run can give.
use answers::{Part, Refusal};
use std::fmt;

// A refusal by its number, its place, the index inside what was being stored, and the words of the table.
#[derive(Clone, Copy)]
pub struct Told(pub Refusal);

fn reason(q: Refusal) -> &'static str {
    match q {
        Refusal::Axes => "d outside its limits",
        Refusal::Size(_) => "a size outside its limits",
        Refusal::Ranks(_) => {
            "neighbours' ranks differ, an end rank of a chain isn't 1, or a run's kept rank is 0 or above its source's"
        }
        Refusal::Zone => "a zone number of d or more",
        Refusal::Length(_) => "a lent length is wrong",
        Refusal::Number(_) => "an input number isn't finite",
        Refusal::Setting(_) => {
            "eps, a, tau or t_final below zero, a boundary or a mode that isn't known, or steps outside limits"
        }
        Refusal::Reach(_) => "a shift over dx above 2^31 in size, or not a number",
        Refusal::Stored(Part::Entry, _, _) => "a shifted or scaled entry isn't finite",
        Refusal::Stored(Part::Spectrum, _, _) => {
            "a Gram matrix, a basis or a singular value isn't finite"
        }
        Refusal::Stored(Part::Factor, _, _) => {
            "a left factor, a carry or an absorbed core isn't finite"
        }
        Refusal::Stored(Part::Sum, _, _) => "a partial sum isn't finite",
        Refusal::PairRank => "a pair's kept rank is too large",
        Refusal::File(_) => "a file breaks its rules",
    }
}

impl fmt::Display for Told {
    fn fmt<W: fmt::Write>(&self, f: &mut fmt::Formatter<W>) -> fmt::Result {
        let q = self.0;
        write!(f, "{} at {}", q.number(), q.place())?;
        if let Refusal::Stored(_, _, index) = q {
            write!(f, ", index {index}")?;
        }
        write!(f, ": {}", reason(q))
    }
}
