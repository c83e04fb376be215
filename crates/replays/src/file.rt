// Chain files read, written and listed.
ghost use Rattle.std.specs.Prelude.{◌≡◌, length};

use std::io::Stdin;

// Room for more bytes than a file or its text has; what stands there before a call can be seen to be unwritten.
fn room() -> [u8; 9000]
    ensures { 9000 ≡ length result }
{
    [0xaa; 9000]
}

// As many bytes of a room as the word that follows says, or all.
fn lent(input: Stdin, room: &mut [u8]) -> &mut [u8] {
    let n = crate::cases::word(input);
    if room.len() < n {
        return room;
    }
    &mut room[0..n]
}

// How many bytes follow, then each: the front of a room that holds them.
fn bytes(input: Stdin, room: &mut [u8]) -> &mut [u8] {
    let list = lent(input, room);
    crate::cases::fill(input, list);
    list
}

fn byte(input: Stdin) -> u8 {
    let mut b = [0u8; 1];
    crate::cases::fill(input, &mut b);
    b[0]
}

// Whether the bytes that follow are these.
fn same_bytes(input: Stdin, got: &[u8]) -> bool {
    let mut all = crate::cases::word(input) == got.len();
    for b in got {
        all &= *b == byte(input);
    }
    all
}

// The shape that is recorded of a file that was refused.
fn no_shape() -> shape::Shape {
    let none = [0; shape::MOST_AXES];
    shape::Shape {
        d: 0,
        left: none,
        n: none,
        right: none,
    }
}

// Reading: bytes, the length of the output, then the verdict, the shape, and what the output holds at the end.
fn reads(input: Stdin) -> bool {
    let mut a = room();
    let mut b = crate::cases::room();
    let file = bytes(input, &mut a);
    let out = crate::cases::lent(input, &mut b);
    let read = chainfile::read_chain(file, out);
    let told = crate::cases::verdict(input, read.map(|_| ()));
    let shaped = crate::cases::shape_is(input, read.unwrap_or(no_shape()));
    told & shaped & crate::cases::holds(input, out)
}

// Writing: shape, chain, the length of the output, then the verdict, and what the output holds at the end.
fn writes(input: Stdin) -> bool {
    let mut a = crate::cases::room();
    let mut b = room();
    let s = crate::cases::shape(input);
    let chain = crate::cases::list(input, &mut a);
    let out = lent(input, &mut b);
    let told = crate::cases::verdict(input, chainfile::write_chain(s, chain, out));
    told & same_bytes(input, out)
}

// Listing: bytes, then the text.
fn lists(input: Stdin) -> bool {
    let mut a = room();
    let mut text = [0u8; listing::TEXT];
    let file = bytes(input, &mut a);
    let n = listing::text_of(file, &mut text);
    same_bytes(input, &text[..n])
}

// One case: its kind, then what belongs to it.
pub fn agrees(input: Stdin) -> bool {
    match crate::cases::word(input) {
        0 => reads(input),
        1 => writes(input),
        _ => lists(input),
    }
}
