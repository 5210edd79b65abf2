// Program `findings` again, for a second stored run: 8,196 bytes, of which the first 8,192 are a sheet, are refused 1.
#![tactic(auto)]

use std::io;

fn main(rt: HostRuntime) -> io::Result<()> {
    show::show_input(&mut rt.stdin(), &mut rt.stdout())
}
