// A sheet on standard input: its conditions, one a line, or `refused` and the refusal's number. More than 8,192 bytes are refused 1.
// No heap: what is read and written goes through arrays of the largest size.
#![tactic(auto)]

use condition_printer::{ROOM, conditions};
use std::io;
use std::io::Write;

// A byte more than the longest sheet shows a longer one.
const BYTES: usize = 4 * 2048 + 1;

fn show<W: Write>(out: &mut W, s: &[u8]) -> io::Result<()> {
    let mut page = [0u8; ROOM];
    match conditions(s, &mut page) {
        Ok(n) => out.write_all(&page[..n]),
        Err(refusal) => writeln!(out, "{refusal}"),
    }
}

fn main(rt: HostRuntime) -> io::Result<()> {
    let mut room = [0u8; BYTES];
    let n = streams::read_full(&mut rt.stdin(), &mut room)?;
    show(&mut rt.stdout(), &room[..n])
}
