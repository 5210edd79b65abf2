// What walks over clauses have in common: the next word, any or a flag or an alias, and a count of expressions.
#![tactic(auto)]

ghost use Rattle.std.specs.Prelude.{◌+◌, ◌≤◌, length};
ghost use Rattle.clauses.specs.Read.{max_depth};
ghost use Rattle.steps.specs.Modes.{mode_of};
ghost use Rattle.steps.specs.Memory.{words_in, names_in};
ghost use Rattle.steps.specs.Hold.{Ready};
ghost use Rattle.walk.specs.Goes.{Walked};
ghost use Rattle.clause_parts.specs.Passes.{Next, alias_told, counted_at};

use clauses::{ClauseKind, MAX_DEPTH};
use refusal::Refusal;
use steps::{Context, Mode, Setting, Settings, Walk};
use walk::walk_many;

// What a clause begins with.
#[derive(Clone, Copy, Debug, PartialEq, Eq)]
pub struct Head {
    pub kind: ClauseKind,
    pub start: u32,
    pub end: u32,
}

// The next word, if it is there and in range; the walk then stands behind it.
pub fn next_word(walk: &mut Walk, context: &Context, lo: u32, hi: u64) -> Result<u32, Refusal>
    requires { walk.old.at ≤ length (words_in context.now) }
    ensures { Next context.now lo hi walk.old walk.new result }
{
    let (word, at) = context.section.word_in(walk.at, lo, hi)?;
    walk.at = at;
    Ok(word)
}

// Any word.
pub fn next_any(walk: &mut Walk, context: &Context) -> Result<u32, Refusal>
    requires { walk.old.at ≤ length (words_in context.now) }
    ensures { Next context.now 0 4294967296 walk.old walk.new result }
{
    next_word(walk, context, 0, 4294967296)
}

// A flag: 0 or 1.
pub fn next_flag(walk: &mut Walk, context: &Context) -> Result<u32, Refusal>
    requires { walk.old.at ≤ length (words_in context.now) }
    ensures { Next context.now 0 2 walk.old walk.new result }
{
    next_word(walk, context, 0, 2)
}

// An alias: the word is a name's number + 1, or 0 where there is none.
pub fn next_alias(walk: &mut Walk, context: &Context) -> Result<Option<u32>, Refusal>
    requires { walk.old.at ≤ length (words_in context.now) }
    ensures { Next context.now 0 (names_in context.now + 1) walk.old walk.new (alias_told result) }
{
    let word = next_word(walk, context, 0, context.section.names as u64 + 1)?;
    Ok(word.checked_sub(1))
}

// A count, and as many expressions.
pub fn walk_counted(walk: &mut Walk, context: &Context, mode: Mode) -> Result<(), Refusal>
    requires { Ready 0 context.now walk.old }
    ensures { Walked max_depth context.now walk.old walk.new (counted_at context.now (mode_of mode)) result }
{
    let n = next_any(walk, context)?;
    walk_many(
        walk,
        context,
        MAX_DEPTH,
        n as usize,
        mode,
        Settings::all(Setting::General),
    )
}
