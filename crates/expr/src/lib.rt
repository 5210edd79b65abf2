// Expressions and patterns of a section, read in place. The two call each other, an expression for the pattern within it and a pattern
// for its properties, and the words that are left fall. Rows of them are loops of their own and share no trait: an item's reader and its row's
// stand in one cycle of calls.
#![tactic(auto)]

mod types;

ghost use Rattle.std.specs.Prelude.{Bool, ℕ, ◌≤◌, length, drop};
ghost use Rattle.heads.specs.Answer.{Reads, words_of, kind_of};
ghost use Rattle.expr.specs.Read.{reader_of, no_more, no_steps, times, marks, elem_one, elems, part_one, parts, maybe_pattern};

use heads::{MarkKind, Section};
use refusal::Refusal;
pub use types::Type;

// An expression, with room for this many levels.
#[cycle(readers)]
pub fn read_expr(section: &Section, at: usize, room: u32) -> Result<usize, Refusal>
    requires { at ≤ length (words_of section.now) }
    ensures { Reads (words_of section.now) at (reader_of section.now room) result }
{
    if room == 0 {
        return Err(section.too_deep(at));
    }
    let (form, at) = section.read_form(at)?;
    let at = read_pattern(section, at, room - 1, form.has_pattern())?;
    let at = read_kids(section, at, room - 1, form.kids())?;
    read_marks(section, at, room - 1, MarkKind::Item, form.items())
}

// n expressions in a row.
#[cycle(readers)]
pub fn read_kids(section: &Section, at: usize, room: u32, n: usize) -> Result<usize, Refusal>
    requires { at ≤ length (words_of section.now) }
    ensures { Reads (words_of section.now) at (times n (reader_of section.now room) no_more) result }
{
    let mut p = at;
    for _ in 0..n {
        p = read_expr(section, p, room)?;
    }
    Ok(p)
}

// n marks of a kind, each with its expressions.
#[cycle(readers)]
pub fn read_marks(
    section: &Section,
    at: usize,
    room: u32,
    kind: MarkKind,
    n: u32,
) -> Result<usize, Refusal>
    requires { at ≤ length (words_of section.now) }
    ensures { Reads (words_of section.now) at (marks (kind_of kind) n (reader_of section.now room)) result }
{
    let mut p = at;
    for _ in 0..n {
        let (mark, q) = section.word_in(p, kind.low(), kind.high())?;
        p = read_kids(section, q, room, kind.kids(mark))?;
    }
    Ok(p)
}

// A pattern, where there is one: that is asked here, so that read_expr is one row of readers.
#[cycle(readers)]
#[tactic(auto, using(heads::proofs::Reading::steps), unfolding(crate::specs::Read::maybe_pattern, crate::specs::Read::pattern))]
pub fn read_pattern(section: &Section, at: usize, room: u32, has: bool) -> Result<usize, Refusal>
    requires { at ≤ length (words_of section.now) }
    ensures { Reads (words_of section.now) at (maybe_pattern has (reader_of section.now room)) result }
{
    if !has {
        return Ok(at);
    }
    let (n, at) = section.any_word(at)?;
    read_parts(section, at, room, n)
}

// n parts of a pattern.
#[cycle(readers)]
pub fn read_parts(section: &Section, at: usize, room: u32, n: u32) -> Result<usize, Refusal>
    requires { at ≤ length (words_of section.now) }
    ensures { Reads (words_of section.now) at (parts n (reader_of section.now room)) result }
{
    let mut p = at;
    for _ in 0..n {
        p = read_part(section, p, room)?;
    }
    Ok(p)
}

// A part of a pattern, with its elements.
#[cycle(readers)]
#[tactic(auto, using(heads::proofs::Reading::steps), unfolding(crate::specs::Read::part_one))]
pub fn read_part(section: &Section, at: usize, room: u32) -> Result<usize, Refusal>
    requires { at ≤ length (words_of section.now) }
    ensures { Reads (words_of section.now) at (part_one (reader_of section.now room)) result }
{
    let (part, at) = section.read_part(at)?;
    read_elems(section, at, room, part.count)
}

// n elements of a part.
#[cycle(readers)]
pub fn read_elems(section: &Section, at: usize, room: u32, n: u32) -> Result<usize, Refusal>
    requires { at ≤ length (words_of section.now) }
    ensures { Reads (words_of section.now) at (elems n (reader_of section.now room) no_steps) result }
{
    let mut p = at;
    for _ in 0..n {
        p = read_elem(section, p, room)?;
    }
    Ok(p)
}

// An element of a part, with its property.
#[cycle(readers)]
#[tactic(auto, using(heads::proofs::Reading::steps), unfolding(crate::specs::Read::elem_one))]
pub fn read_elem(section: &Section, at: usize, room: u32) -> Result<usize, Refusal>
    requires { at ≤ length (words_of section.now) }
    ensures { Reads (words_of section.now) at (elem_one (reader_of section.now room)) result }
{
    let (elem, at) = section.read_elem(at)?;
    read_kids(section, at, room, elem.property as usize)
}
