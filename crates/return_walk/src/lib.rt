// RETURN: its projections are walked from outside its scope, which is current after it. So are its sort keys, in which its aliases are no use:
// these are held while its projections are walked, and marked while its sort keys are.
// `held` and `marks` are lent beside the walk, so that walk_return has six parameters (tried: what a struct borrows from another's field is not known
// afterwards, and the aliases and a context borrow them). Held and Clear stand in several contracts: they are of lent words beside a context, and a
// ghost field would have to hold while these are written.
#![tactic(auto)]

ghost use Rattle.std.specs.Prelude.{◌≡◌, true, length};
ghost use Rattle.clauses.specs.Read.{max_depth};
ghost use Rattle.steps.specs.Modes.{mode_of};
ghost use Rattle.steps.specs.Memory.{names_in};
ghost use Rattle.steps.specs.Hold.{Ready};
ghost use Rattle.walk.specs.Goes.{Walked};
ghost use Rattle.clause_parts.specs.Passes.{Passes, Held, Clear};
ghost use Rattle.return_walk.specs.Returns.{sorts, KeysIn, output_at, outputs_at, returned_at, hushed_at, sorted_at, return_at};
ghost use Rattle.return_walk.specs.Aliases.{aliases_of, InRange};

mod aliases;

use aliases::Aliases;
use clause_parts::{Head, next_alias, next_any, walk_counted};
use clauses::{ClauseKind, MAX_DEPTH};
use refusal::Refusal;
use scope::ScopeKind;
use steps::{Context, Mode, Setting, Walk};
use walk::walk_expr;

// A projection of a RETURN.
fn walk_output(walk: &mut Walk, context: &Context, mode: Mode) -> Result<(), Refusal>
    requires { Ready 0 context.now walk.old }
    ensures { Walked max_depth context.now walk.old walk.new (output_at context.now (mode_of mode)) result }
{
    next_alias(walk, context)?;
    walk_expr(walk, context, MAX_DEPTH, mode, Setting::General)
}

// n projections of a RETURN. A loop of its own: one over a closure would need a contract over every state that it leaves.
fn walk_outputs(walk: &mut Walk, context: &Context, n: u32, mode: Mode) -> Result<(), Refusal>
    requires { Ready 0 context.now walk.old }
    ensures { Walked max_depth context.now walk.old walk.new (outputs_at context.now (mode_of mode) n) result }
{
    for _ in 0..n {
        walk_output(walk, context, mode)?;
    }
    Ok(())
}

// A count, and as many projections of a RETURN.
fn walk_returned(walk: &mut Walk, context: &Context, mode: Mode) -> Result<(), Refusal>
    requires { Ready 0 context.now walk.old }
    ensures { Walked max_depth context.now walk.old walk.new (returned_at context.now (mode_of mode)) result }
{
    let n = next_any(walk, context)?;
    walk_outputs(walk, context, n, mode)
}

// A count, and as many sort keys, in which the aliases are no use.
fn walk_hushed(
    walk: &mut Walk,
    context: &Context,
    aliases: &Aliases,
    marks: &mut [u32],
    mode: Mode,
) -> Result<(), Refusal>
    requires { (Clear context.now marks.old × InRange (names_in context.now) aliases.now) × Ready 0 context.now walk.old }
    ensures same { marks.new ≡ marks.old }
    ensures walked { Walked max_depth context.now walk.old walk.new (hushed_at context.now (mode_of mode) (aliases_of aliases.now)) result }
{
    aliases.mark(marks, 1);
    let hushing = Context {
        hushed: &*marks,
        ..*context
    };
    let r = walk_counted(walk, &hushing, mode);
    aliases.mark(marks, 0);
    r
}

// A count, projections, whose aliases are held, and sort keys.
fn walk_sorted(
    walk: &mut Walk,
    context: &Context,
    held: &mut [u32],
    marks: &mut [u32],
    mode: Mode,
) -> Result<(), Refusal>
    requires { (Held context.now held.old (mode_of mode) × Clear context.now marks.old) × Ready 0 context.now walk.old }
    ensures same { marks.new ≡ marks.old }
    ensures kept { length held.new ≡ length held.old }
    ensures walked { Walked max_depth context.now walk.old walk.new (sorted_at context.now (mode_of mode)) result }
{
    let n = next_any(walk, context)?;
    let mut aliases = Aliases {
        words: held,
        count: 0,
    };
    // A loop beside walk_outputs: here each alias is held, for which a RETURN without sort keys needs no words.
    for _ in 0..n {
        let alias = next_alias(walk, context)?;
        aliases.hold(alias);
        walk_expr(walk, context, MAX_DEPTH, mode, Setting::General)?;
    }
    walk_hushed(walk, context, &aliases, marks, mode)
}

// RETURN, with sort keys or without: what it walks looks from outside its scope, which is current after it.
pub fn walk_return(
    walk: &mut Walk,
    context: &Context,
    held: &mut [u32],
    marks: &mut [u32],
    head: Head,
    mode: Mode,
) -> Result<(), Refusal>
    requires { KeysIn (sorts head.kind) context.now (mode_of mode) held.old marks.old × (((mode_of mode).resolves ≡ true) × Ready 3 context.now walk.old) }
    ensures same { marks.new ≡ marks.old }
    ensures kept { length held.new ≡ length held.old }
    ensures passes { Passes 3 context.now walk.old walk.new (return_at context.now (mode_of mode) (sorts head.kind) head.start head.end) result }
{
    let top = walk.visible.top;
    let outer = walk.cur;
    walk.enter(context, ScopeKind::Return, head.start, head.end);
    let scope = walk.cur;
    walk.leave(top, outer);
    match head.kind {
        ClauseKind::SortedReturn => walk_sorted(walk, context, held, marks, mode)?,
        _ => walk_returned(walk, context, mode)?,
    }
    walk.leave(top, scope);
    Ok(())
}
