// A clause, read and walked in one over any words: the refusal, or where both walks stand then. `held` has the pairs that a WITH is to carry, two
// words each, or the aliases of a RETURN with sort keys, while its projections are walked. Such a RETURN sets the marks of these, and takes them
// away again. Both are lent beside the walk, so that walk_body has six parameters
// (tried: what a struct borrows from another's field is not known afterwards, and a WITH's pairs and a context borrow them). Contracts say that the
// mode resolves names; it is handed on whole, since an Unwind and a Call walk on in it without resolving. Held and Clear stand in several contracts:
// they are of lent words beside a context, and a ghost field would have to hold while these are written.
#![tactic(auto)]

ghost use Rattle.std.specs.Prelude.{◌≡◌, true, length};
ghost use Rattle.heads.specs.Answer.{kind_of};
ghost use Rattle.scope.specs.Kind.{number_of};
ghost use Rattle.clauses.specs.Kind.{code_of};
ghost use Rattle.steps.specs.Modes.{mode_of};
ghost use Rattle.steps.specs.Hold.{Ready, Steps};
ghost use Rattle.clause_parts.specs.Passes.{Held, Clear, Passes};
ghost use Rattle.clause_walk.specs.Clauses.{marked_at, scope_at, match_at, yield_at, unwind_at, unwound_at, yields_at, call_at, body_at, clause_at};

use clause_parts::{Head, next_alias, next_any, next_flag, next_word, walk_counted};
use clauses::{ClauseKind, MAX_DEPTH};
use heads::MarkKind;
use refusal::Refusal;
use return_walk::walk_return;
use scope::ScopeKind;
use steps::{Context, Mode, Setting, Settings, Walk};
use tables::VarKind;
use walk::{walk_expr, walk_marks, walk_pattern, walk_row};
use with_walk::walk_with;

// A count, and as many marks of the kind.
fn walk_marked(
    walk: &mut Walk,
    context: &Context,
    kind: MarkKind,
    mode: Mode,
) -> Result<(), Refusal>
    requires { Ready 0 context.now walk.old }
    ensures { Passes 0 context.now walk.old walk.new (marked_at context.now (mode_of mode) 0 0 (kind_of kind)) result }
{
    let n = next_any(walk, context)?;
    walk_marks(walk, context, MAX_DEPTH, kind, n, mode)
}

// A scope of the kind with a pattern.
fn walk_opening(
    walk: &mut Walk,
    context: &Context,
    head: Head,
    kind: ScopeKind,
    mode: Mode,
) -> Result<(), Refusal>
    requires { ((mode_of mode).resolves ≡ true) × Ready 3 context.now walk.old }
    ensures { Passes 3 context.now walk.old walk.new (scope_at context.now (mode_of mode) head.start head.end (number_of kind)) result }
{
    walk.enter(context, kind, head.start, head.end);
    walk_pattern(walk, context, MAX_DEPTH, mode)
}

// The variable of an Unwind is bound in a scope of its own.
fn bind_unwind(walk: &mut Walk, context: &Context, head: Head, v: u32)
    requires { Ready 4 context.now walk.old }
    ensures { Steps 4 context.now walk.old walk.new (unwound_at context.now head.start head.end v) }
{
    walk.enter(context, ScopeKind::Unwind, head.start, head.end);
    let r = context.row_of(v);
    let x = walk.place(context, v, r);
    walk.bind_name(context, x, v, VarKind::Value as u32);
}

// Unwind: its list is not resolved.
fn walk_unwind(walk: &mut Walk, context: &Context, head: Head, mode: Mode) -> Result<(), Refusal>
    requires { ((mode_of mode).resolves ≡ true) × Ready 3 context.now walk.old }
    ensures { Passes 3 context.now walk.old walk.new (unwind_at context.now (mode_of mode) head.start head.end) result }
{
    let v = next_any(walk, context)?;
    bind_unwind(walk, context, head, v);
    walk_expr(
        walk,
        context,
        MAX_DEPTH,
        mode.unresolving(),
        Setting::General,
    )
}

// A yield: its name or its alias is bound.
fn walk_yield(walk: &mut Walk, context: &Context, head: Head) -> Result<(), Refusal>
    requires { Ready 0 context.now walk.old }
    ensures { Passes 0 context.now walk.old walk.new (yield_at context.now head.start head.end) result }
{
    let x = next_word(walk, context, 0, context.section.names as u64)?;
    let alias = next_alias(walk, context)?;
    let v = next_any(walk, context)?;
    let name = alias.unwrap_or(x);
    let kind = VarKind::Value;
    walk.bind_anew(context, head.start, head.end, name, v, kind);
    Ok(())
}

// n yields. A loop of its own: one over a closure would need a contract over every state that it leaves.
fn walk_yields(walk: &mut Walk, context: &Context, head: Head, n: u32) -> Result<(), Refusal>
    requires { Ready 0 context.now walk.old }
    ensures { Passes 0 context.now walk.old walk.new (yields_at context.now head.start head.end n) result }
{
    for _ in 0..n {
        walk_yield(walk, context, head)?;
    }
    Ok(())
}

// Call: its arguments are not resolved; its yields are bound in its scope.
fn walk_call(walk: &mut Walk, context: &Context, head: Head, mode: Mode) -> Result<(), Refusal>
    requires { ((mode_of mode).resolves ≡ true) × Ready 3 context.now walk.old }
    ensures { Passes 3 context.now walk.old walk.new (call_at context.now (mode_of mode) head.start head.end) result }
{
    walk.enter(context, ScopeKind::Call, head.start, head.end);
    walk_counted(walk, context, mode.unresolving())?;
    let n = next_any(walk, context)?;
    walk_yields(walk, context, head, n)
}

// Match: optional or not, and a pattern.
fn walk_match(walk: &mut Walk, context: &Context, head: Head, mode: Mode) -> Result<(), Refusal>
    requires { ((mode_of mode).resolves ≡ true) × Ready 3 context.now walk.old }
    ensures { Passes 3 context.now walk.old walk.new (match_at context.now (mode_of mode) head.start head.end) result }
{
    next_flag(walk, context)?;
    walk_opening(walk, context, head, ScopeKind::Match, mode)
}

// What follows the kind and the span of a clause.
#[tactic(auto, using(return_walk::proofs::Returned::keys_in), unfolding(fused::specs::Clauses::body_go, fused::specs::Clauses::opening_go, semantics::specs::World::opens))]
fn walk_body(
    walk: &mut Walk,
    context: &Context,
    held: &mut [u32],
    marks: &mut [u32],
    head: Head,
    mode: Mode,
) -> Result<(), Refusal>
    requires { (Held context.now held.old (mode_of mode) × Clear context.now marks.old) × Ready 3 context.now walk.old }
    ensures same { marks.new ≡ marks.old }
    ensures kept { length held.new ≡ length held.old }
    ensures passes { Passes 3 context.now walk.old walk.new (body_at context.now (mode_of mode) head.start head.end (code_of head.kind)) result }
{
    match head.kind {
        ClauseKind::Match => walk_match(walk, context, head, mode),
        ClauseKind::Where => walk_row(
            walk,
            context,
            MAX_DEPTH,
            1,
            mode,
            Settings::all(Setting::General),
        ),
        ClauseKind::With | ClauseKind::SortedWith => walk_with(walk, context, held, head, mode),
        ClauseKind::Return | ClauseKind::SortedReturn => walk_return(
            walk, context, held, marks, head, mode,
        ),
        ClauseKind::Unwind => walk_unwind(walk, context, head, mode),
        ClauseKind::Create => walk_opening(walk, context, head, ScopeKind::Create, mode),
        ClauseKind::Merge => walk_opening(walk, context, head, ScopeKind::Merge, mode),
        ClauseKind::Set => walk_marked(walk, context, MarkKind::Set, mode),
        ClauseKind::Remove => walk_marked(walk, context, MarkKind::Remove, mode),
        ClauseKind::Delete => walk_counted(walk, context, mode),
        ClauseKind::Call => walk_call(walk, context, head, mode),
    }
}

// A clause.
pub fn walk_clause(
    walk: &mut Walk,
    context: &Context,
    held: &mut [u32],
    marks: &mut [u32],
    mode: Mode,
) -> Result<(), Refusal>
    requires { (Held context.now held.old (mode_of mode) × Clear context.now marks.old) × Ready 0 context.now walk.old }
    ensures same { marks.new ≡ marks.old }
    ensures kept { length held.new ≡ length held.old }
    ensures passes { Passes 0 context.now walk.old walk.new (clause_at context.now (mode_of mode)) result }
{
    let code = next_any(walk, context)?;
    let start = next_any(walk, context)?;
    let end = next_word(walk, context, start, 4294967296)?;
    let kind = ClauseKind::try_from(code)?;
    let head = Head { kind, start, end };
    walk_body(walk, context, held, marks, head, mode)
}
