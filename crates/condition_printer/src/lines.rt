// The lines of clauses and arms, over the sheet's words in place: a condition where a clause has one, and a line feed. Clauses and arms have a
// loop each, as they have a definition and a law each. A section and a position go as in crate heads, which says why. Ready stands in each contract:
// it is a fact of a reader, a position and a page together, and the room on the page falls with each text.
ghost use Rattle.std.specs.Prelude.{◌≡◌, true, ◌≤◌, length, drop, get_or};
ghost use Rattle.heads.specs.Got.{many, is_ok};
ghost use Rattle.heads.specs.Answer.{words_of};
ghost use Rattle.clauses.specs.Read.{read_clause, read_arm};
ghost use Rattle.condition_text.specs.Write.{Ready};
ghost use Rattle.condition_printer.specs.Page.{IsWith, Placed, PutClause, PutClauses, PutArm, PutArms};

use clauses::{Clause, ClauseKind, MAX_DEPTH, Projection};
use condition_text::{Page, print};
use heads::{Item, Section, counted};
use words::word;

// Where a WITH's filter stands, if it has one: after projections and flag.
fn filter_of(section: &Section, at: usize) -> Option<usize>
    requires { (is_ok (read_clause section.now.names (drop at (words_of section.now))) ≡ true) × (IsWith (get_or (words_of section.now) at 0) × (at ≤ length (words_of section.now))) }
    ensures { Placed (words_of section.now) section.now.names at result }
{
    let q = counted::<Projection>(section, at + 3).unwrap();
    (word(section.bytes, q) == 1).then_some(q + 1)
}

// Where a clause's condition stands, if it has one: a WHERE's predicate, or a WITH's filter.
fn place_of(section: &Section, at: usize) -> Option<usize>
    requires { (is_ok (read_clause section.now.names (drop at (words_of section.now))) ≡ true) × (at ≤ length (words_of section.now)) }
    ensures { Placed (words_of section.now) section.now.names at result }
{
    let Ok(kind) = ClauseKind::try_from(word(section.bytes, at)) else {
        return None;
    };
    match kind {
        ClauseKind::Where => Some(at + 3),
        ClauseKind::With | ClauseKind::SortedWith => filter_of(section, at),
        _ => None,
    }
}

// Writes a clause's line, and answers where the clause ends.
fn print_clause(section: &Section, at: usize, page: &mut Page<'_>) -> usize
    requires { Ready (read_clause section.now.names (drop at (words_of section.now))) (words_of section.now) at page.old.end (length page.old.bytes.now) }
    ensures { PutClause (words_of section.now) section.now.names at page.old page.new result }
{
    let next = Clause::read(section, at).unwrap();
    let Some(place) = place_of(section, at) else {
        return next;
    };
    print(section, place, MAX_DEPTH, 0, page);
    page.put(b"\n");
    next
}

// Those of n clauses. The same loop over arms stands below: a trait of both kinds of rows would be longer than the two.
pub fn print_clauses(section: &Section, at: usize, n: u32, page: &mut Page<'_>) -> usize
    requires { Ready (many (read_clause section.now.names) n (drop at (words_of section.now))) (words_of section.now) at page.old.end (length page.old.bytes.now) }
    ensures { PutClauses (words_of section.now) section.now.names n at page.old page.new result }
{
    let mut next = at;
    for _ in 0..n {
        next = print_clause(section, next, page);
    }
    next
}

// Those of an arm: its clauses stand after its span and their count.
fn print_arm(section: &Section, at: usize, page: &mut Page<'_>) -> usize
    requires { Ready (read_arm section.now.names (drop at (words_of section.now))) (words_of section.now) at page.old.end (length page.old.bytes.now) }
    ensures { PutArm (words_of section.now) section.now.names at page.old page.new result }
{
    print_clauses(section, at + 3, word(section.bytes, at + 2), page)
}

// Those of n arms.
pub fn print_arms(section: &Section, at: usize, n: u32, page: &mut Page<'_>) -> usize
    requires { Ready (many (read_arm section.now.names) n (drop at (words_of section.now))) (words_of section.now) at page.old.end (length page.old.bytes.now) }
    ensures { PutArms (words_of section.now) section.now.names n at page.old page.new result }
{
    let mut next = at;
    for _ in 0..n {
        next = print_arm(section, next, page);
    }
    next
}
