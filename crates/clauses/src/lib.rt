// Clauses and arms of a section, read in place.
#![tactic(auto, using(heads::proofs::Reading::steps), unfolding(crate::specs::Read::clausal, heads::specs::Got::counted, expr::specs::Read::maybe_pattern))]

mod kind;

ghost use Rattle.std.specs.Prelude.{Bool, true, false, ℕ, ◌≤◌, length, drop};
ghost use Rattle.heads.specs.Got.{counted};
ghost use Rattle.heads.specs.Answer.{Reads, words_of, kind_of};
ghost use Rattle.clauses.specs.Tree as tree;
ghost use Rattle.clauses.specs.Read.{read_projection, read_yield, counted_exprs, counted_marks, no_keys, read_match, read_with, read_unwind, read_call, read_body, read_clause, read_arm};
ghost use Rattle.clauses.specs.Kind.{code_of};
ghost use Rattle.clauses.specs.Sorted.{sorted_with, sorted_return};

use expr::{read_marks, read_pattern};
use flat::{read_expr, read_kids};
use heads::{Item, MarkKind, Section, counted};
pub use kind::ClauseKind;
use refusal::Refusal;

// The depth of the deepest expression that is read, `max_depth` of the definitions.
pub const MAX_DEPTH: u32 = 19;

// A projection: an alias or none, and an expression.
pub struct Projection;

impl Item for Projection {
    ghost Tree = { tree.Projection };

    ghost one = { read_projection };

    fn read(section: &Section, at: usize) -> Result<usize, Refusal> {
        let (_, at) = section.word_in(at, 0, (section.names as u64) + 1)?;
        read_expr(section, at, MAX_DEPTH)
    }
}

// A yield: a name, an alias or none, a variable.
pub struct Yield;

impl Item for Yield {
    ghost Tree = { tree.Yield };

    ghost one = { read_yield };

    fn read(section: &Section, at: usize) -> Result<usize, Refusal> {
        let (_, at) = section.word_in(at, 0, section.names as u64)?;
        let (_, at) = section.word_in(at, 0, (section.names as u64) + 1)?;
        let (_, at) = section.any_word(at)?;
        Ok(at)
    }
}

// A count, and as many expressions. Not by `counted`: flat reads a row whole, with the parts of its plain heads.
pub fn counted_exprs(section: &Section, at: usize) -> Result<usize, Refusal>
    requires { at ≤ length (words_of section.now) }
    ensures { Reads (words_of section.now) at (counted_exprs section.now.names) result }
{
    let (n, at) = section.any_word(at)?;
    read_kids(section, at, MAX_DEPTH, n as usize)
}

// A count, and as many marks of a kind with their expressions. Not by `counted`: a mark's reader is told the kind, and an Item's is told nothing.
pub fn counted_marks(section: &Section, at: usize, kind: MarkKind) -> Result<usize, Refusal>
    requires { at ≤ length (words_of section.now) }
    ensures { Reads (words_of section.now) at (counted_marks section.now.names (kind_of kind)) result }
{
    let (n, at) = section.any_word(at)?;
    read_marks(section, at, MAX_DEPTH, kind, n)
}

// Match: a flag, a pattern.
pub fn read_match(section: &Section, at: usize) -> Result<usize, Refusal>
    requires { at ≤ length (words_of section.now) }
    ensures { Reads (words_of section.now) at (read_match section.now.names 0 0) result }
{
    let (_, at) = section.flag(at)?;
    read_pattern(section, at, MAX_DEPTH, true)
}

// With: projections, a flag, a filter if it is 1.
pub fn read_with(section: &Section, at: usize) -> Result<usize, Refusal>
    requires { at ≤ length (words_of section.now) }
    ensures { Reads (words_of section.now) at (read_with section.now.names 0 0 (no_keys section.now.names)) result }
{
    let at = counted::<Projection>(section, at)?;
    let (filtered, at) = section.flag(at)?;
    read_kids(section, at, MAX_DEPTH, filtered as usize)
}

// With, sorted: the same, a count, and as many sort keys.
pub fn read_sorted_with(section: &Section, at: usize) -> Result<usize, Refusal>
    requires { at ≤ length (words_of section.now) }
    ensures { Reads (words_of section.now) at (sorted_with section.now.names) result }
{
    let at = read_with(section, at)?;
    counted_exprs(section, at)
}

// Return, sorted: projections, a count, and as many sort keys.
pub fn read_sorted_return(section: &Section, at: usize) -> Result<usize, Refusal>
    requires { at ≤ length (words_of section.now) }
    ensures { Reads (words_of section.now) at (sorted_return section.now.names) result }
{
    let at = counted::<Projection>(section, at)?;
    counted_exprs(section, at)
}

// Unwind: a variable, an expression.
pub fn read_unwind(section: &Section, at: usize) -> Result<usize, Refusal>
    requires { at ≤ length (words_of section.now) }
    ensures { Reads (words_of section.now) at (read_unwind section.now.names 0 0) result }
{
    let (_, at) = section.any_word(at)?;
    read_expr(section, at, MAX_DEPTH)
}

// Call: arguments, yields.
pub fn read_call(section: &Section, at: usize) -> Result<usize, Refusal>
    requires { at ≤ length (words_of section.now) }
    ensures { Reads (words_of section.now) at (read_call section.now.names 0 0) result }
{
    let at = counted_exprs(section, at)?;
    counted::<Yield>(section, at)
}

// What follows the kind and the span of a clause.
pub fn read_body(section: &Section, at: usize, kind: ClauseKind) -> Result<usize, Refusal>
    requires { at ≤ length (words_of section.now) }
    ensures { Reads (words_of section.now) at (read_body section.now.names 0 0 (code_of kind)) result }
{
    match kind {
        ClauseKind::Match => read_match(section, at),
        ClauseKind::Where => read_kids(section, at, MAX_DEPTH, 1),
        ClauseKind::With => read_with(section, at),
        ClauseKind::Return => counted::<Projection>(section, at),
        ClauseKind::Unwind => read_unwind(section, at),
        ClauseKind::Create | ClauseKind::Merge => read_pattern(section, at, MAX_DEPTH, true),
        ClauseKind::Set => counted_marks(section, at, MarkKind::Set),
        ClauseKind::Remove => counted_marks(section, at, MarkKind::Remove),
        ClauseKind::Delete => counted_exprs(section, at),
        ClauseKind::Call => read_call(section, at),
        ClauseKind::SortedWith => read_sorted_with(section, at),
        ClauseKind::SortedReturn => read_sorted_return(section, at),
    }
}

// A clause: kind, span, and what follows.
pub struct Clause;

impl Item for Clause {
    ghost Tree = { tree.Clause };

    ghost one = { read_clause };

    fn read(section: &Section, at: usize) -> Result<usize, Refusal> {
        let (code, at) = section.any_word(at)?;
        let (start, at) = section.any_word(at)?;
        let (_, at) = section.word_in(at, start, 4294967296)?;
        let kind = ClauseKind::try_from(code)?;
        read_body(section, at, kind)
    }
}

// An arm: span, a count, and as many clauses.
pub struct Arm;

impl Item for Arm {
    ghost Tree = { tree.Arm };

    ghost one = { read_arm };

    fn read(section: &Section, at: usize) -> Result<usize, Refusal> {
        let (start, at) = section.any_word(at)?;
        let (_, at) = section.word_in(at, start, 4294967296)?;
        counted::<Clause>(section, at)
    }
}
