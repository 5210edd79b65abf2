// A row of sheets on standard input, each after its byte length as a little-endian word. A line each: the refusal's number, or 0. No heap:
// what is read goes through an array of the largest size.
#![tactic(auto)]

use refusal::Refusal;
use std::io;
use std::io::{Read, Write};
use streams::{read_full, read_length, skip};

// A sheet of n bytes; one that is longer than there is room for is too long for a sheet. False where the bytes aren't there.
fn sheet_line<R: Read, W: Write>(input: &mut R, out: &mut W, n: usize) -> io::Result<bool> {
    let mut room = [0u8; 8192];
    if room.len() < n {
        skip(input, n)?;
        writeln!(out, "{}", u32::from(Refusal::Size))?;
        return Ok(true);
    }
    if read_full(input, &mut room[..n])? < n {
        return Ok(false);
    }
    let number = sheet::open(&room[..n]).err().map_or(0, u32::from);
    writeln!(out, "{number}")?;
    Ok(true)
}

fn main(rt: HostRuntime) -> io::Result<()> {
    let mut input = rt.stdin();
    let mut out = rt.stdout();
    // A loop until the input ends has no measure: it is bounded. (As in `answers`, which says why it is no function over a closure.)
    for _ in 0..u32::MAX {
        let Some(n) = read_length(&mut input)? else {
            return Ok(());
        };
        if !sheet_line(&mut input, &mut out, n)? {
            return Ok(());
        }
    }
    Ok(())
}
