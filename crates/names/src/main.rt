// A sheet on standard input: its names by their index, a line each, up to the first index that is refused; then that refusal.
// No heap: what is read and written goes through arrays of the largest size. Whether a name has a text and the text are two calls, as document 01
// has them: this program shows both.
#![tactic(auto)]

use sheet::{check_name, name_text};
use std::io;
use std::io::Write;

fn main(rt: HostRuntime) -> io::Result<()> {
    let mut room = [0u8; 8193];
    let n = streams::read_full(&mut rt.stdin(), &mut room)?;
    let mut out = rt.stdout();
    for i in 0..2048u32 {
        if let Err(refusal) = check_name(&room[..n], i) {
            return writeln!(out, "{refusal}");
        }
        out.write_all(name_text(&room[..n], i))?;
        out.write_all(b"\n")?;
    }
    Ok(())
}
