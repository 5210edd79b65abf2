// A sheet on standard input: its listing and its lists, warnings on, or its refusal. More than 8,192 bytes are refused 1. No heap: what is read
// goes through an array of the largest size.
#![tactic(auto)]

use show::{ROOM, read_sheet, show};
use std::io;

fn main(rt: HostRuntime) -> io::Result<()> {
    let mut room = [0u8; ROOM];
    let s = read_sheet(&mut rt.stdin(), &mut room)?;
    show(&mut rt.stdout(), s)
}
