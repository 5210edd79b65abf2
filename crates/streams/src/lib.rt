// What the programs read and write: bytes from any reader into a lent front, or past them; numbers as text to any writer.
//
// No function here has a `requires`.
#![tactic(auto)]

ghost use Rattle.std.specs.Prelude.{◌≡◌, ◌<◌, length, take, IfOk, IfSome, OnOk};
ghost use Rattle.std.specs.Fmt.{decimal};
ghost use Rattle.std.specs.Io.{ReadsAtMost};
ghost use Rattle.std.specs.Io.KnownBytes.{Appends, Consumes, IsAtEnd};
ghost use Rattle.std.specs.Option.{is_some};
ghost use Rattle.streams.specs.Hex.{hex};
ghost use Rattle.streams.specs.Skip.{Skips, length_at};

use std::io;
use std::io::{Read, Write};

// Reads until room is full or the input ends, and answers how many bytes stand at the front of room. On an empty room it makes no call.
pub fn read_full<R: Read>(input: &mut R, room: &mut [u8]) -> io::Result<usize>
    ensures within { ReadsAtMost result room.new }
    ensures bytes { IfOk result (λ n. Consumes (R.remaining input.old) (R.remaining input.new) (take n room.new)) }
    ensures end { IfOk result (λ n. n < length room.new → IsAtEnd (R.remaining input.new)) }
    ensures front { IfOk result (λ n. IfSome (R.remaining input.old) (λ xs. take n room.new ≡ take (length room.new) xs)) }
{
    let mut done = 0;
    // Each turn begins where the bytes end that the reader brought.
    while done < room.len() {
        let n = input.read(&mut room[done..])?;
        if n == 0 {
            return Ok(done);
        }
        done += n;
    }
    Ok(done)
}

// How many bytes are read past at a time: no heap, so a page of fixed size.
const PAGE: usize = 8192;

// Reads past n bytes, or to the end of the input, and answers whether there were n. (`io::copy` from a `Take` doesn't promise what it leaves.)
pub fn skip<R: Read>(input: &mut R, n: usize) -> io::Result<bool>
    ensures { IfOk result (λ all. Skips n (R.remaining input.old) (R.remaining input.new) all) }
{
    let mut room = [0; PAGE];
    for _ in 0..n / PAGE {
        if read_full(input, &mut room)? < PAGE {
            return Ok(false);
        }
    }
    let rest = n % PAGE;
    Ok(read_full(input, &mut room[..rest])? == rest)
}

// Reads four bytes as a length, the lowest first; None where the input ends before them.
pub fn read_length<R: Read>(input: &mut R) -> io::Result<Option<usize>>
    ensures length { IfOk result (λ n. IfSome (R.remaining input.old) (λ xs. n ≡ length_at xs)) }
    ensures rest { IfOk result (λ n. Skips 4 (R.remaining input.old) (R.remaining input.new) (is_some n)) }
{
    let mut bytes = [0; 4];
    if read_full(input, &mut bytes)? < 4 {
        return Ok(None);
    }
    Ok(Some(u32::from_le_bytes(bytes) as usize))
}

// Writes n in decimal, without leading zeros.
pub fn print_decimal<W: Write>(out: &mut W, n: u64) -> io::Result<()>
    ensures { OnOk result (Appends (W.contents out.old) (W.contents out.new) (decimal n)) }
{
    write!(out, "{n}")
}

// Writes n in hexadecimal, in lower case, with zeros before it where it has fewer digits than asked for.
pub fn print_hex<W: Write>(out: &mut W, n: u64, width: usize) -> io::Result<()>
    ensures { OnOk result (Appends (W.contents out.old) (W.contents out.new) (hex width n)) }
{
    write!(out, "{n:0width$x}")
}
