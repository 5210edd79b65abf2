// The sections: names, bindings, head and arms. Causes 3 to 6.
ghost use Rattle.std.specs.Prelude.{◌≡◌, ℕ, ◌+◌, ◌*◌, ◌≤◌, length, drop};
ghost use Rattle.words.specs.Words.{words};
ghost use Rattle.tables.specs.Answer.{Roomy};
ghost use Rattle.sheet.specs.Read.{read_clauses};
ghost use Rattle.sheet.specs.Answer.{InPlaces, sheet_of, judged, bindings_of, rows_of, reached, Settled, section_of};

use crate::names::are_names;
use crate::trailer::Places;
use clauses::{Arm, Clause};
use heads::{Item, read_many};
use refusal::Refusal;
use tables::{Row, distinct_ids};
use words::count;

// The bindings up to the head, and nothing else.
pub fn read_bindings(s: &[u8], p: Places) -> Result<(), Refusal>
    requires { InPlaces s.now p }
    ensures { sheet_of result ≡ judged (bindings_of s.now p) }
{
    let section = p.section(s, p.head);
    if read_many::<Row>(&section, p.rows, p.bindings) == Ok(p.head) {
        return Ok(());
    }
    Err(Refusal::Bindings)
}

// The same, no variable twice.
fn check_rows(s: &[u8], p: Places) -> Result<(), Refusal>
    requires { InPlaces s.now p }
    ensures { sheet_of result ≡ judged (rows_of s.now p) }
{
    read_bindings(s, p)?;
    let section = p.section(s, p.head);
    if distinct_ids(&section, p.bindings as usize) {
        return Ok(());
    }
    Err(Refusal::Bindings)
}

// The names, which the two lent tables get, then the bindings.
pub fn check_tables(s: &[u8], p: Places, tab: &mut [u32], ids: &mut [u32]) -> Result<(), Refusal>
    requires { InPlaces s.now p × Roomy s.now tab.old ids.old }
    ensures { Settled s.now p tab.new ids.new result }
{
    if !are_names(&s[..p.rows * 4], p.names, tab, ids) {
        return Err(Refusal::Names);
    }
    check_rows(s, p)
}

// What is read is to end where its section does: a word that is left over is cause 5.
pub fn check_end(at: usize, end: usize) -> Result<(), Refusal>
    ensures { sheet_of result ≡ reached at end }
{
    if at < end {
        return Err(Refusal::Word);
    }
    Ok(())
}

// n items of a kind from one word up to another, and nothing else.
fn check_section<I: Item>(
    s: &[u8],
    p: Places,
    n: u32,
    from: usize,
    to: usize,
) -> Result<(), Refusal>
    requires { (from ≤ to) × (to * 4 ≤ length s.now) }
    ensures { sheet_of result ≡ judged (section_of I.one s.now p n from to) }
{
    let section = p.section(s, to);
    let at = read_many::<I>(&section, from, n)?;
    check_end(at, count(section.bytes))
}

// The head, then the arms.
pub fn check_clauses(s: &[u8], p: Places) -> Result<(), Refusal>
    requires { InPlaces s.now p }
    ensures { sheet_of result ≡ judged (read_clauses (words s.now) p) }
{
    check_section::<Clause>(s, p, p.clauses, p.head, p.tail)?;
    check_section::<Arm>(s, p, p.arms, p.tail, p.trailer)
}
