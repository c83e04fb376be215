// The table of zones: what their inputs have, and what the run keeps of the bond behind each; and what each eps keeps and drops.
use crate::{inputs, print};
use std::io::Result;

const NAMES: [&str; inputs::ZONES] = ["Harbour", "Old Town", "Mill", "Station", "Hospital"];

fn bond(rt: &impl Print, b: cutform::Bond) -> Result<()> {
    print!(rt; "{:>11}{:>8}  {}", b.rank, b.sweeps, print::yes(b.settled))?;
    print::small(rt, b.dropped, 21)
}

pub fn zones(rt: &impl Print, r: runform::Run) -> Result<()> {
    println!(rt;
        "zone         left rank  points  right rank  kept rank  sweeps  settled  largest dropped"
    )?;
    let s = r.shape;
    for z in 0..inputs::ZONES {
        let (left, n, right) = (s.left[z], s.n[z], s.right[z]);
        print!(rt; "{z} {:<8}{left:>12}{n:>8}{right:>12}", NAMES[z])?;
        if z + 1 < inputs::ZONES {
            bond(rt, r.bonds[z])?;
        }
        println!(rt; "")?;
    }
    Ok(())
}

// What each bond keeps and drops at one eps, and the figure.
pub fn at_eps(rt: &impl Print, eps: f64, r: runform::Run) -> Result<()> {
    let digits = digits::chance(eps);
    print!(rt; "{}", print::text(&digits))?;
    for b in &r.bonds[..inputs::ZONES - 1] {
        print!(rt; "{:>3}", b.rank)?;
        print::small(rt, b.dropped, 10)?;
    }
    let figure = digits::chance(r.figure);
    println!(rt; "  {}", print::text(&figure))
}
