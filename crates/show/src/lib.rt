// A sheet's answers as text on a writer: its listing, and its lists after that. No heap: what is read and written goes through arrays of the
// largest size.
#![tactic(auto)]

mod lists;

ghost use Rattle.std.specs.Prelude.{◌≡◌, ◌≤◌, length, take, IfOk, IfSome, OnOk};
ghost use Rattle.std.specs.Io.KnownBytes.{Appends};
ghost use Rattle.refusal.specs.Number.{number_of};
ghost use Rattle.texts.specs.Laid.{Lays};
ghost use Rattle.show.specs.Printed.{refusal_text, printed};

use listing::listing;
use lists::show_lists;
pub use lists::show_records;
use refusal::Refusal;
use std::io;
use std::io::{Read, Write};
use streams::read_full;
use texts::lay;
use words::put_decimal;

// The line of a refusal at the front of the page, so that it goes out in one write; how long it is. Its words are laid here: the library's
// printing into lent bytes promises no text.
fn lay_refusal(refusal: Refusal, page: &mut [u8]) -> usize
    requires { length (refusal_text (number_of refusal)) ≤ length page.old }
    ensures { Lays (refusal_text (number_of refusal)) page.old 0 page.new result }
{
    let a = lay(b"refused ", 0, page);
    let b = a + put_decimal(u32::from(refusal), &mut page[a..]);
    lay(b"\n", b, page)
}

// The listing of a sheet, warnings on, or `refused` and the refusal's number.
pub fn show_listing<W: Write>(out: &mut W, s: &[u8]) -> io::Result<()>
    ensures { OnOk result (Appends (W.contents out.old) (W.contents out.new) (printed s.now)) }
{
    let mut page = [0u8; 65536];
    match listing(s, true, &mut page) {
        Ok(n) => out.write_all(&page[..n]),
        Err(refusal) => {
            let n = lay_refusal(refusal, &mut page);
            out.write_all(&page[..n])
        }
    }
}

// The listing, then the lists, also where only the listing doesn't fit its page.
pub fn show<W: Write>(out: &mut W, s: &[u8]) -> io::Result<()> {
    show_listing(out, s)?;
    show_lists(out, s)
}

// One byte more than a sheet may have, so that a longer input is too long.
pub const ROOM: usize = 8193;

// The sheet on a reader, or the front of a longer input.
pub fn read_sheet<'a, R: Read>(input: &mut R, room: &'a mut [u8; ROOM]) -> io::Result<&'a [u8]>
    ensures { IfOk result (λ s. IfSome (R.remaining input.old) (λ xs. s.now ≡ take 8193 xs)) }
{
    let n = read_full(input, room)?;
    Ok(&room[..n])
}

// The sheet on a reader: its listing.
pub fn show_input<R: Read, W: Write>(input: &mut R, out: &mut W) -> io::Result<()>
    ensures { OnOk result (IfSome (R.remaining input.old)
        (λ xs. Appends (W.contents out.old) (W.contents out.new) (printed (take 8193 xs)))) }
{
    let mut room = [0u8; ROOM];
    let s = read_sheet(input, &mut room)?;
    show_listing(out, s)
}
