// Byte strings on standard input, each after its length as a little-endian word, at most 256. A line each: its FNV-1 hash in
// hexadecimal, its use id in decimal, and `utf8` or `-`. No heap: what is read goes through an array of the largest size.
#![tactic(auto)]

use std::io;
use std::io::{Read, Write};
use streams::{print_decimal, print_hex, read_full, read_length};

fn line<W: Write>(out: &mut W, s: &[u8]) -> io::Result<()> {
    print_hex(out, u64::from(words::fnv1(s)), 8)?;
    out.write_all(b" ")?;
    print_decimal(out, u64::from(words::use_id(s)))?;
    if words::is_utf8(s) {
        out.write_all(b" utf8\n")
    } else {
        out.write_all(b" -\n")
    }
}

// Reads a string of n bytes and writes its line; false where it isn't there, or is longer than there is room for.
fn string<R: Read, W: Write>(input: &mut R, out: &mut W, n: usize) -> io::Result<bool> {
    let mut room = [0u8; 256];
    if room.len() < n || read_full(input, &mut room[..n])? < n {
        return Ok(false);
    }
    line(out, &room[..n])?;
    Ok(true)
}

fn main(rt: HostRuntime) -> io::Result<()> {
    let mut input = rt.stdin();
    let mut out = rt.stdout();
    // A loop until the input ends has no measure: it is bounded. (As in `answers`, which says why it is no function over a closure.)
    for _ in 0..4096 {
        let Some(n) = read_length(&mut input)? else {
            return Ok(());
        };
        if !string(&mut input, &mut out, n)? {
            return Ok(());
        }
    }
    Ok(())
}
