// A sheet on standard input: the message or the refusal of every mark, code, name and detail in a range, a line each. After a message stand the
// answers for a page that it fills and for one a byte shorter: 0, or the refusal's number. No heap: what is read and written goes through
// arrays of the largest size.
#![tactic(auto)]

use message::{Question, message};
use std::io;
use std::io::Write;

const CODES: [u32; 9] = [1000, 1001, 1002, 2007, 2008, 2011, 5010, 5011, 5012];

// 0, or the refusal's number.
fn cause(s: &[u8], a: Question, page: &mut [u8]) -> u32 {
    message(s, a, page).err().map_or(0, u32::from)
}

fn line<W: Write>(out: &mut W, s: &[u8], a: Question) -> io::Result<()> {
    let mut page = [0u8; 512];
    write!(out, "{} {} {} {} {} ", a.code, a.name, a.one, a.two, a.mark)?;
    match message(s, a, &mut page) {
        Ok(n) => {
            let text = &mut page[..n];
            out.write_all(text)?;
            let filled = cause(s, a, text);
            // A match: a closure over a lent pair gets no proof.
            let short = match text.split_last_mut() {
                Some((_, shorter)) => cause(s, a, shorter),
                None => 0,
            };
            writeln!(out, " {filled} {short}")
        }
        Err(refusal) => writeln!(out, "{refusal}"),
    }
}

fn main(rt: HostRuntime) -> io::Result<()> {
    let mut room = [0u8; 8193];
    let n = streams::read_full(&mut rt.stdin(), &mut room)?;
    let mut out = rt.stdout();
    for mark in 0..3 {
        for code in CODES {
            for name in 0..4 {
                for one in 0..5 {
                    for two in 0..12 {
                        let a = Question {
                            code,
                            name,
                            one,
                            two,
                            mark,
                        };
                        line(&mut out, &room[..n], a)?;
                    }
                }
            }
        }
    }
    Ok(())
}
