// The conditions of a sheet on a page, a line each: the predicates of WHERE and the filters of WITH in sheet order, with the fewest brackets.
#![tactic(auto)]

mod lines;

ghost use Rattle.std.specs.Prelude.{◌≡◌, ◌≤◌, length, IfOk};
ghost use Rattle.sheet.specs.Read.{accepted};
ghost use Rattle.sheet.specs.Answer.{sheet_of, opened_as};
ghost use Rattle.condition_text.specs.Write.{Adds};
ghost use Rattle.condition_printer.specs.Conditions.{read_conditions};
ghost use Rattle.condition_printer.specs.Page.{page_of, conditions_as, page_as, conds_in};

use condition_text::Page;
use lines::{print_arms, print_clauses};
use refusal::Refusal;
use sheet::{Places, open};

// Room for 15 bytes for each word of the longest sheet, which no text exceeds.
pub const ROOM: usize = 15 * 2048;

// Writes the text of head and arms on an empty page.
fn print_all(s: &[u8], p: Places, page: &mut Page<'_>)
    requires { (accepted p ≡ opened_as s.now) × ((page.old.end ≡ 0) × (30720 ≤ length page.old.bytes.now)) }
    ensures { Adds (page_of (conds_in (read_conditions s.now))) page.old page.new }
{
    let head = p.section(s, p.tail);
    let arms = p.section(s, p.trailer);
    print_clauses(&head, p.head, p.clauses, page);
    print_arms(&arms, p.tail, p.arms, page);
}

// The text is made first, in an array of the largest size (no heap), so that a page that is too short stays as it was.
fn show(s: &[u8], p: Places, page: &mut [u8]) -> Result<usize, Refusal>
    requires { accepted p ≡ opened_as s.now }
    ensures answer { sheet_of result ≡ conditions_as (read_conditions s.now) (length page.old) }
    ensures page { page.new ≡ page_as (read_conditions s.now) page.old }
    ensures within { IfOk result (λ n. n ≤ length page.new) }
{
    let mut bytes = [0; ROOM];
    let mut text = Page::new(&mut bytes);
    print_all(s, p, &mut text);
    let n = text.end;
    if page.len() < n {
        return Err(Refusal::Room);
    }
    page[..n].copy_from_slice(&bytes[..n]);
    Ok(n)
}

// Prints a sheet's conditions at the front of a page, and answers how long they are, or why the sheet is refused, as `sheet` tells it, or
// that the page has no room.
pub fn conditions(s: &[u8], page: &mut [u8]) -> Result<usize, Refusal>
    ensures answer { sheet_of result ≡ conditions_as (read_conditions s.now) (length page.old) }
    ensures page { page.new ≡ page_as (read_conditions s.now) page.old }
    ensures within { IfOk result (λ n. n ≤ length page.new) }
{
    let p = open(s)?;
    show(s, p, page)
}
