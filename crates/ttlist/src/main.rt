// Lists the chain file on standard input. Only reading and writing stand here; the text is made by `listing`.
#![tactic(auto)]

ghost use Rattle.std.specs.Prelude.{◌≤◌, length, IfOk};

use anyhow::Context;
use std::io;
use std::io::Read;

// One byte more than the largest file that is listed.
const ROOM: usize = listing::MOST_BYTES + 1;

// How many bytes the input gave, up to its end or to the end of the room.
fn given(input: &mut impl Read, bytes: &mut [u8]) -> io::Result<usize>
    ensures { IfOk result (λ n. n ≤ length bytes.new) }
{
    // A read gives as many bytes as it can, so how many there are is not known before.
    let mut n = 0;
    while n < bytes.len() {
        match input.read(&mut bytes[n..])? {
            0 => break,
            more => n += more,
        }
    }
    Ok(n)
}

fn main(rt: HostRuntime) -> anyhow::Result<()> {
    let mut bytes = [0u8; ROOM];
    let n = given(&mut rt.stdin(), &mut bytes).context("ttlist: standard input")?;
    let text = listing::listed(&bytes[..n]);
    rt.write_all(text.as_slice())
        .context("ttlist: standard output")
}
