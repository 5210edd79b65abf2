// The clauses of a head and the arms, one after the other. What a WITH carries is stored into the carried list behind it, where that has room.
// `held`, `marks` and `carried` are lent beside the walk, so there are five to seven parameters (tried: what a struct borrows from another's field is
// not known afterwards, and a WITH's pairs and a context borrow them). Held and Clear stand in several contracts: they are of lent words beside a
// context, and a ghost field would have to hold while these are written.
#![tactic(auto)]

ghost use Rattle.std.specs.Prelude.{◌≡◌, length};
ghost use Rattle.steps.specs.Modes.{mode_of};
ghost use Rattle.steps.specs.Hold.{Ready};
ghost use Rattle.clause_parts.specs.Passes.{Held, Clear, Passes};
ghost use Rattle.clause_walk.specs.Clauses.{names_alone};
ghost use Rattle.arm_walk.specs.Clauses.{both_walks, clauses_at, arm_at, arms_at};
ghost use Rattle.arm_walk.specs.Taking.{Storing, Stores, Takes};

use clause_parts::{next_any, next_word};
use clause_walk::walk_clause;
use entries::put_carried;
use refusal::Refusal;
use scope::CARRIED_WIDTH;
use steps::{Context, Mode, Walk};

// What a clause carried, stored behind `from` entries: all that is visible after it, by the scope before the current one.
fn take_carried(walk: &Walk, carried: &mut [u32], from: u32)
    requires { Storing walk.now }
    ensures { Stores walk.now carried.old carried.new from }
{
    let taken = walk.taken;
    if taken <= from {
        return;
    }
    if carried.len() < taken as usize * CARRIED_WIDTH {
        return;
    }
    // Neither of these ever ends it: a clause that carries opens two scopes, and what it carried is all that is visible.
    if walk.cur == 0 {
        return;
    }
    if taken - from != walk.visible.top {
        return;
    }
    let barrier = walk.cur - 1;
    // By index: an entry of the stack is stored by its place.
    for i in 0..walk.visible.top {
        let (place, variable) = walk.visible.entry(i);
        let name = walk.rowless.name(place);
        put_carried(carried, from + i, barrier, name, variable);
    }
}

// n clauses. A loop of its own: one over a closure would need a contract over every state that it leaves.
pub fn walk_clauses(
    walk: &mut Walk,
    context: &Context,
    held: &mut [u32],
    marks: &mut [u32],
    carried: &mut [u32],
    n: u32,
    mode: Mode,
) -> Result<(), Refusal>
    requires { (Held context.now held.old (mode_of mode) × Clear context.now marks.old) × Ready 0 context.now walk.old }
    ensures same { marks.new ≡ marks.old }
    ensures kept { length held.new ≡ length held.old }
    ensures takes { Takes context.now walk.old carried.old carried.new (clauses_at context.now (mode_of mode) n) }
    ensures passes { Passes 0 context.now walk.old walk.new (clauses_at context.now (mode_of mode) n) result }
{
    for _ in 0..n {
        let from = walk.taken;
        walk_clause(walk, context, held, marks, mode)?;
        take_carried(walk, carried, from);
    }
    Ok(())
}

// An arm: from scope 0, with nothing visible, and no kinds checked.
fn walk_arm(
    walk: &mut Walk,
    context: &Context,
    held: &mut [u32],
    marks: &mut [u32],
    carried: &mut [u32],
) -> Result<(), Refusal>
    requires { (Held context.now held.old names_alone × Clear context.now marks.old) × Ready 0 context.now walk.old }
    ensures same { marks.new ≡ marks.old }
    ensures kept { length held.new ≡ length held.old }
    ensures takes { Takes context.now walk.old carried.old carried.new (arm_at context.now both_walks) }
    ensures passes { Passes 0 context.now walk.old walk.new (arm_at context.now both_walks) result }
{
    let start = next_any(walk, context)?;
    next_word(walk, context, start, 4294967296)?;
    let n = next_any(walk, context)?;
    walk.leave(0, 0);
    let mode = Mode {
        resolves: true,
        checks: false,
    };
    walk_clauses(walk, context, held, marks, carried, n, mode)
}

// n arms. A loop of its own, as in walk_clauses.
pub fn walk_arms(
    walk: &mut Walk,
    context: &Context,
    held: &mut [u32],
    marks: &mut [u32],
    carried: &mut [u32],
    n: u32,
) -> Result<(), Refusal>
    requires { (Held context.now held.old names_alone × Clear context.now marks.old) × Ready 0 context.now walk.old }
    ensures same { marks.new ≡ marks.old }
    ensures kept { length held.new ≡ length held.old }
    ensures takes { Takes context.now walk.old carried.old carried.new (arms_at context.now both_walks n) }
    ensures passes { Passes 0 context.now walk.old walk.new (arms_at context.now both_walks n) result }
{
    for _ in 0..n {
        walk_arm(walk, context, held, marks, carried)?;
    }
    Ok(())
}
