// The lines of a listing. They are measured before the first byte is written. Names and findings are two parameters: they come from two places, the
// sheet and the log, and each definition here takes them apart.
#![tactic(auto)]

mod found;
mod lay;
mod measure;
mod names;

ghost use Rattle.std.specs.Prelude.{◌≤◌, length};
ghost use mathlib.Core.List.{flat_map};
ghost use Rattle.sheet.specs.Read.{accepted};
ghost use Rattle.texts.specs.Laid.{Lays};
ghost use Rattle.texts.specs.Page.{WritesAsWord};
ghost use Rattle.lines.specs.Lines.{line};
ghost use Rattle.lines.specs.Given.{texts_of, first, text_of, Measured};

pub use found::Found;
use lay::{lay_head, lay_line, lay_old};
use measure::{line_len, old_len};
pub use names::{NameText, Names};
use refusal::Refusal;
use words::decimal_width;

// The lines of the findings; how long they are. Findings go by their number: which end of the words one stands at hangs on it.
fn lay_lines(names: &Names, found: &Found, out: &mut [u8]) -> usize
    requires { length (flat_map (line (texts_of names.now)) (first found.now found.now.count)) ≤ length out.old }
    ensures { Lays (flat_map (line (texts_of names.now)) (first found.now found.now.count)) out.old 0 out.new result }
{
    let mut at = 0;
    for i in 0..found.count {
        let f = found.nth(i);
        at += lay_line(f, names.text(f).bytes(), &mut out[at..]);
    }
    at
}

// `findings` and their number, a line each, and the line of the expressions 25.
#[tactic(auto, using(crate::proofs::Most::lengths))]
fn lay_all(names: &Names, found: &Found, page: &mut [u8]) -> usize
    requires { length (text_of names.now found.now) ≤ length page.old }
    ensures { Lays (text_of names.now found.now) page.old 0 page.new result }
{
    let a = lay_head(found.count as u32, page);
    let b = a + lay_lines(names, found, &mut page[a..]);
    b + lay_old(found.olds, &mut page[b..])
}

// Whether a page of so many bytes holds the listing. Each line counts with the most that it may have, until it is measured; lines are
// measured one by one until the page is long enough or none is left.
#[tactic(auto, using(crate::proofs::Most::lengths))]
fn has_room(names: &Names, found: &Found, room: usize) -> bool
    ensures { Measured (length (text_of names.now found.now)) room result }
{
    let most = 167 + names.section.len();
    let mut need = 10
        + decimal_width(found.count as u32)
        + old_len(found.olds)
        + found.count * most;
    for i in 0..found.count {
        if need <= room {
            return true;
        }
        let f = found.nth(i);
        need = need - most + line_len(f, names.text(f).bytes());
    }
    need <= room
}

// The listing of the findings, or that the page is too short.
pub fn write_listing(names: &Names, found: &Found, page: &mut [u8]) -> Result<usize, Refusal>
    ensures { WritesAsWord (accepted (text_of names.now found.now)) page.old page.new result }
{
    if !has_room(names, found, page.len()) {
        return Err(Refusal::Page);
    }
    Ok(lay_all(names, found, page))
}
