// Days of kept runs: a run is made, then zone after zone is replaced, some calls refused, and after each call every number that is
// kept is compared, bit for bit, with that of a fresh run in other slices. Then some turns on runs that others wrote to, and
// fresh runs that are lent a wrong length. Prints how many days, replacements and refusals there were, and how many turns were as they
// must be.
#![tactic(auto)]

mod calls;
mod turns;

use drawing::asks::{Ask, LISTS};
use drawing::{asks, chance, parts, plans};
use std::io;

const TURNS: usize = 50;

const TURNS_SPOILT: usize = 12;

// A core and one number more.
const PART: usize = 1025;

// What is counted of turns: replacements, refusals by their number, all turns, and those that were as they must be.
#[derive(Clone, Copy)]
struct Counts {
    replaced: usize,
    refused: [usize; 15],
    turns: usize,
    agreed: usize,
}

impl Counts {
    fn none() -> Counts {
        Counts {
            replaced: 0,
            refused: [0; 15],
            turns: 0,
            agreed: 0,
        }
    }

    // One more turn.
    fn count(&mut self, told: Option<calls::Told>, agrees: bool) {
        self.turns = self.turns.wrapping_add(1);
        if agrees {
            self.agreed = self.agreed.wrapping_add(1);
        }
        match told {
            None => self.replaced = self.replaced.wrapping_add(1),
            Some(t) => {
                if let Some(n) = self.refused.get_mut(t.number) {
                    *n = n.wrapping_add(1);
                }
            }
        }
    }
}

// Of days, of the turns drawn on them, and of those on runs that others wrote to, with the fresh runs that are lent a wrong length.
#[derive(Clone, Copy)]
struct Tally {
    days: usize,
    drawn: Counts,
    spoilt: Counts,
}

// So many turns of a day, on a run that is made, each as `draw` asks it. A call of its own: its lists leave the stack with it.
#[inline(never)]
fn turns_of<F: Fn(usize, shape::Shape) -> Ask>(
    draw: F,
    seed: usize,
    count: usize,
    made: runform::Run,
    list: [f64; calls::HELD],
    counts: &mut Counts,
)
    requires { F.IsAlwaysCallable draw }
{
    let mut part = [0.0; PART];
    let mut x = seed;
    let mut run = made;
    let mut held = list;
    for _ in 0..count {
        let q = draw(x, run.shape);
        asks::write_part(q, &mut part);
        let end = turns::turn(q, run, held, parts::window(&part, 0, q.length));
        x = q.seed;
        run = end.run;
        held = end.held;
        counts.count(end.told, end.agrees);
    }
}

// A day whose fresh run is refused counts as a turn that does not agree.
fn day(seed: usize, s: shape::Shape, tally: &mut Tally) {
    let mut held = [calls::MARK; calls::HELD];
    let scale = plans::scale(chance::next(seed ^ 64));
    chance::fill(seed ^ 1, scale, &mut held[..calls::CHAIN]);
    let none = bond::no_bond();
    let run = runform::Run {
        shape: s,
        axes: plans::records(seed ^ 2),
        set: plans::settings(chance::next(seed ^ 4)),
        bonds: [none; shape::MOST_AXES],
        figure: 0.0,
    };
    let end = calls::fresh(run, calls::lengths_of(s, None), &mut held);
    tally.days = tally.days.wrapping_add(1);
    let told = calls::reading(end.ran.verdict);
    if told.is_some() {
        tally.drawn.count(told, false);
        return;
    }
    let made = end.ran.run;
    turns_of(asks::drawn, seed ^ 8, TURNS, made, held, &mut tally.drawn);
    for list in LISTS {
        let due = calls::checked(5, list as usize);
        let agrees = turns::is_refused(made, Some(list), held, Some(due));
        tally.spoilt.count(Some(due), agrees);
    }
    turns_of(
        asks::drawn_spoilt,
        seed ^ 32,
        TURNS_SPOILT,
        made,
        held,
        &mut tally.spoilt,
    );
}

// The most points of an axis for which d cores of a rank stay within the room.
fn most_points(d: usize, rank: usize) -> usize {
    if d < 5 || rank < 5 { 16 } else { 4 }
}

// Every number of cores with every limit of ranks.
fn days() -> Tally {
    let mut seed = 88172645463325252;
    let mut tally = Tally {
        days: 0,
        drawn: Counts::none(),
        spoilt: Counts::none(),
    };
    for rank in 1..=shape::MOST_RANK {
        for d in 1..=shape::MOST_AXES {
            let s = plans::shape(seed, d, rank, most_points(d, rank));
            day(seed, s, &mut tally);
            seed = chance::next(seed ^ 16);
        }
    }
    tally
}

fn print(rt: &impl Print, counts: &Counts) -> io::Result<()> {
    println!(rt; "replaced {}", counts.replaced)?;
    for number in [2, 3, 4, 5, 6, 7, 8, 9, 12, 13, 14] {
        println!(rt; "refused {number}: {}", counts.refused[number])?;
    }
    println!(rt; "turns {}", counts.turns)?;
    println!(rt; "agreed {}", counts.agreed)
}

fn main(rt: HostRuntime) -> io::Result<()> {
    let tally = days();
    println!(rt; "days {}", tally.days)?;
    print(&rt, &tally.drawn)?;
    println!(rt; "spoilt by others, and lent wrong")?;
    print(&rt, &tally.spoilt)
}
