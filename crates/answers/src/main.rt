// A row of sheets on standard input, each after its byte length as a little-endian word: the lists of each, warnings on, or its refusal.
// A function answers false where the row ends early. No heap: what is read goes through an array of the largest size.
#![tactic(auto)]

use std::io;
use std::io::{Read, Write};
use streams::{read_full, read_length, skip};

// A sheet of n bytes. The front of a longer one than there is room for is refused 1 as the whole is.
fn sheet<R: Read, W: Write>(input: &mut R, out: &mut W, n: usize) -> io::Result<bool> {
    let mut room = [0u8; 8193];
    let front = n.min(room.len());
    if read_full(input, &mut room[..front])? < front {
        return Ok(false);
    }
    show::show(out, &room[..front])?;
    skip(input, n - front)
}

fn main(rt: HostRuntime) -> io::Result<()> {
    let mut input = rt.stdin();
    let mut out = rt.stdout();
    // A loop until the input ends has no measure: it is bounded. It stands in `refusals` and `vectors` too: a function over a closure would be
    // longer, by what it asks and promises of the closure.
    for _ in 0..u32::MAX {
        let Some(n) = read_length(&mut input)? else {
            return Ok(());
        };
        if !sheet(&mut input, &mut out, n)? {
            return Ok(());
        }
    }
    Ok(())
}
