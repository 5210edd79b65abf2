// A condition's text on standard input, without a line feed at its end: `entries` and their number, then an entry a line, two numbers; or
// `unread`. A text of more than 65,536 bytes is refused 12, since the list has so many entries. No heap:
// what is read and written goes through arrays of the largest size.
#![tactic(auto)]

use condition_reader::read_condition;
use std::io;
use std::io::Write;

// The longest text that is read, room that shows a longer one, and two words an entry.
const BYTES: usize = 65536;

const ROOM: usize = BYTES + 1;

const WORDS: usize = 2 * BYTES;

fn print_entries<W: Write>(out: &mut W, list: &[u64]) -> io::Result<()> {
    let (entries, _) = list.as_chunks::<2>();
    writeln!(out, "entries {}", entries.len())?;
    for [kind, operand] in entries {
        writeln!(out, "{kind} {operand}")?;
    }
    Ok(())
}

fn show<W: Write>(out: &mut W, text: &[u8]) -> io::Result<()> {
    let mut list = [0u64; WORDS];
    match read_condition(text, &mut list) {
        Ok(Some(entries)) => print_entries(out, &list[..entries * 2]),
        Ok(None) => writeln!(out, "unread"),
        Err(refusal) => writeln!(out, "{refusal}"),
    }
}

fn main(rt: HostRuntime) -> io::Result<()> {
    let mut room = [0u8; ROOM];
    let n = streams::read_full(&mut rt.stdin(), &mut room)?;
    show(&mut rt.stdout(), &room[..n])
}
