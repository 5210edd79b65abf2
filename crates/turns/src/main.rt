// Steps on standard input, a line each: `add QUEUE ITEM` or `take`. A line each on standard output: `ok`, `refused N`, `served QUEUE ITEM
// STEPS`, `none STEPS`, or `unread` for any other line. The answers to what one read brought are written before the next.
// No heap: lines and answers go through texts of the largest size.
#![tactic(auto)]

mod line;
mod reply;
mod text;

ghost use Rattle.std.specs.Prelude.{◌≡◌, [], OnOk};

use reply::reply;
use std::io;
use std::io::{Read, Write};
use text::Text;

// Of a line that is being read the first 32 bytes are kept, which ask what the line asks (proofs/Long.antt).
const KEPT: usize = 32;

// How many bytes of answers are gathered before they are written, and how many an answer has at most.
const PAGE: usize = 4096;

const ANSWER: usize = 40;

// The state of the queues, the line that is being read, and the answers that are not written yet.
#[derive(Drop)]
struct Turns {
    words: [u32; 577],
    line: Text<KEPT>,
    page: Text<PAGE>,
}

impl Turns {
    fn new() -> Self {
        Turns {
            words: [0; 577],
            line: Text::new(),
            page: Text::new(),
        }
    }

    // Writes the answers.
    fn flush<W: Write>(&mut self, out: &mut W) -> io::Result<()>
        ensures { OnOk result (self.new.page ≡ []) }
    {
        out.write_all(self.page.as_bytes())?;
        self.page.clear();
        Ok(())
    }

    // Answers the line; a page without room is written first.
    fn answer<W: Write>(&mut self, out: &mut W) -> io::Result<()> {
        if self.page.room() < ANSWER {
            self.flush(out)?;
        }
        reply(self.line.as_bytes(), &mut self.words, &mut self.page);
        self.line.clear();
        Ok(())
    }

    // Takes more bytes in: a line feed ends a line, and what is answered is written.
    fn feed<W: Write>(&mut self, out: &mut W, more: &[u8]) -> io::Result<()> {
        for byte in more {
            if *byte == b'\n' {
                self.answer(out)?;
            } else if 0 < self.line.room() {
                self.line.put(&[*byte]);
            }
        }
        self.flush(out)
    }

    // Whether a line has begun.
    fn is_within_line(&self) -> bool {
        !self.line.as_bytes().is_empty()
    }
}

fn main(rt: HostRuntime) -> io::Result<()> {
    let mut from = rt.stdin();
    let mut out = rt.stdout();
    let mut turns = Turns::new();
    let mut input = [0; 4096];
    // A loop until the input ends has no measure: it is bounded.
    for _ in 0..u64::MAX {
        let got = from.read(&mut input)?;
        if got == 0 {
            break;
        }
        turns.feed(&mut out, &input[..got])?;
    }
    if turns.is_within_line() {
        turns.feed(&mut out, b"\n")?;
    }
    Ok(())
}
