// The projections and the filter of a WITH are walked; what they carry is held, and that one of them is a star is kept in mind.
// Held, Holding and Within stand in several contracts: they are of lent words beside a context, and a ghost field would have to hold while these are
// written.
#![tactic(auto)]

mod pairs;

ghost use Rattle.std.specs.Prelude.{◌<◌};
ghost use Rattle.semantics.specs.World.{a_var, a_name};
ghost use Rattle.fused.specs.Fused.{name_use};
ghost use Rattle.steps.specs.Modes.{mode_of};
ghost use Rattle.steps.specs.Memory.{names_in, world_at};
ghost use Rattle.steps.specs.Hold.{Ready, on_names};
ghost use Rattle.clause_parts.specs.Passes.{Held};
ghost use Rattle.projection_walk.specs.Pairs.{kept_of, KeptOther, KeepsOther};
ghost use Rattle.projection_walk.specs.Carries.{Within, NoStar, Holding, Carries, Adds, var_use, carried_at, projections_at, filtered_at};

use clause_parts::{next_alias, next_any, next_flag};
use clauses::MAX_DEPTH;
use heads::Form;
pub use pairs::Pairs;
use refusal::Refusal;
use steps::{Context, Mode, Setting, Settings, Walk};
use walk::{walk_expr, walk_row};

// A Var: used, and carried under its alias, or under the name of its row. Six parameters: the walk, its context and its
// mode, the pairs of the WITH, the alias and the variable of this projection.
// A nested match: of what a closure under `or_else` returned a proof knows nothing here.
fn carry_var(
    walk: &mut Walk,
    context: &Context,
    pairs: &mut Pairs,
    alias: Option<u32>,
    v: u32,
    mode: Mode,
)
    requires { Within (names_in context.now) alias × (Holding 3 context.now walk.old pairs.old × Ready 3 context.now walk.old) }
    ensures { Adds context.now walk.old pairs.old walk.new pairs.new (var_use context.now (mode_of mode) v) alias (a_var v) }
{
    walk.use_var(context, v, mode, Setting::General);
    match alias {
        Some(x) => pairs.keep(x, v),
        None => match context.row_of(v) {
            Some((x, _)) => pairs.keep(x, v),
            None => {}
        },
    }
}

// A name that is no star: carried if it is visible, under its alias or its own name.
fn carry_seen(walk: &mut Walk, context: &Context, pairs: &mut Pairs, alias: Option<u32>, x: u32)
    requires { (NoStar context.now alias x × (Within (names_in context.now) alias × (x < names_in context.now))) × (Holding 3 context.now walk.old pairs.old × Ready 3 context.now walk.old) }
    ensures { Adds context.now walk.old pairs.old walk.new pairs.new (λ id. on_names (name_use (world_at context.now id) x)) alias (a_name x) }
{
    match walk.visible.find(x) {
        Some(newest) => {
            walk.record_name(context, x);
            pairs.keep(alias.unwrap_or(x), newest.variable);
        }
        None => walk.use_name(context, x),
    }
}

// A name: a star without an alias is used, and kept in mind.
fn carry_name(walk: &mut Walk, context: &Context, pairs: &mut Pairs, alias: Option<u32>, x: u32)
    requires { (Within (names_in context.now) alias × (x < names_in context.now)) × (Holding 3 context.now walk.old pairs.old × Ready 3 context.now walk.old) }
    ensures { Adds context.now walk.old pairs.old walk.new pairs.new (λ id. on_names (name_use (world_at context.now id) x)) alias (a_name x) }
{
    if alias.is_none() && context.star == Some(x) {
        walk.use_name(context, x);
        pairs.star = true;
        return;
    }
    carry_seen(walk, context, pairs, alias, x);
}

// Any other expression: carried under its alias, if it has one, with the use id of the alias as its variable.
fn carry_other(context: &Context, pairs: &mut Pairs, alias: Option<u32>)
    requires { KeepsOther context.now pairs.old alias }
    ensures { KeptOther context.now alias pairs.old pairs.new }
{
    if let Some(x) = alias {
        pairs.keep(x, context.uses[x as usize]);
    }
}

// The expression of a projection: a Var and a name are the two forms that a WITH carries without an alias too; any other is carried under its alias
// alone.
fn walk_carried(
    walk: &mut Walk,
    context: &Context,
    pairs: &mut Pairs,
    alias: Option<u32>,
    mode: Mode,
) -> Result<(), Refusal>
    requires { Within (names_in context.now) alias × (Held context.now pairs.old.words.now (mode_of mode) × (Holding 1 context.now walk.old pairs.old × Ready 1 context.now walk.old)) }
    ensures { Carries 1 context.now walk.old pairs.old walk.new pairs.new (carried_at context.now (mode_of mode) alias) result }
{
    let (f, at) = context.section.read_form(walk.at)?;
    match f {
        Form::Var(v) => {
            walk.at = at;
            carry_var(walk, context, pairs, alias, v, mode);
        }
        Form::Unresolved(x) => {
            walk.at = at;
            carry_name(walk, context, pairs, alias, x);
        }
        _ => {
            walk_expr(walk, context, MAX_DEPTH, mode, Setting::General)?;
            carry_other(context, pairs, alias);
        }
    }
    Ok(())
}

// A projection: its alias + 1 or 0, and its expression.
fn walk_projection(
    walk: &mut Walk,
    context: &Context,
    pairs: &mut Pairs,
    mode: Mode,
) -> Result<(), Refusal>
    requires { Held context.now pairs.old.words.now (mode_of mode) × (Holding 0 context.now walk.old pairs.old × Ready 0 context.now walk.old) }
    ensures { Carries 0 context.now walk.old pairs.old walk.new pairs.new (projections_at context.now (mode_of mode) 1) result }
{
    let alias = next_alias(walk, context)?;
    walk_carried(walk, context, pairs, alias, mode)
}

// n projections. A loop of its own: one over a closure would need a contract over every state that it leaves.
fn walk_projections(
    walk: &mut Walk,
    context: &Context,
    pairs: &mut Pairs,
    n: u32,
    mode: Mode,
) -> Result<(), Refusal>
    requires { Held context.now pairs.old.words.now (mode_of mode) × (Holding 0 context.now walk.old pairs.old × Ready (kept_of pairs.old) context.now walk.old) }
    ensures { Carries 0 context.now walk.old pairs.old walk.new pairs.new (projections_at context.now (mode_of mode) n) result }
{
    for _ in 0..n {
        walk_projection(walk, context, pairs, mode)?;
    }
    Ok(())
}

// A count, projections, a flag and a filter if it is 1: the pairs that the projections carry are held behind those there are.
pub fn walk_filtered(
    walk: &mut Walk,
    context: &Context,
    pairs: &mut Pairs,
    mode: Mode,
) -> Result<(), Refusal>
    requires { Held context.now pairs.old.words.now (mode_of mode) × (Holding 0 context.now walk.old pairs.old × Ready (kept_of pairs.old) context.now walk.old) }
    ensures { Carries 0 context.now walk.old pairs.old walk.new pairs.new (filtered_at context.now (mode_of mode)) result }
{
    let n = next_any(walk, context)?;
    walk_projections(walk, context, pairs, n, mode)?;
    let filters = next_flag(walk, context)?;
    walk_row(
        walk,
        context,
        MAX_DEPTH,
        filters as usize,
        mode,
        Settings::all(Setting::General),
    )
}
