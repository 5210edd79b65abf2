// WITH: what its projections carry is held, then bound in a new Root, and alone visible; a star takes each name before it once, in its place on
// the stack. Sort keys are walked while the names before the WITH are still seen below the pairs, unless a star carries these. No event says what
// is carried and bound: it is counted. `held` is lent beside the walk (tried: what a struct borrows from another's field is not known afterwards,
// and the pairs borrow it).
#![tactic(auto)]

ghost use Rattle.std.specs.Prelude.{◌≡◌, ◌+◌, ◌<◌, length};
ghost use Rattle.steps.specs.Modes.{mode_of};
ghost use Rattle.steps.specs.Hold.{Binding, Ready};
ghost use Rattle.clause_parts.specs.Passes.{Held, Passes};
ghost use Rattle.projection_walk.specs.Pairs.{kept_of};
ghost use Rattle.with_walk.specs.Binds.{Rebinds, Sees, SeesIn, Spreads, CountsPairs, Countable, BindsIn, SeesAgainIn, SeesAgain, sorts, with_at};

use clause_parts::{Head, walk_counted};
use clauses::ClauseKind;
use projection_walk::{Pairs, walk_filtered};
use refusal::Refusal;
use scope::ScopeKind;
use steps::{Context, Mode, Walk};

// The pairs that are held become visible in the current scope, without an event; how many of them have a name that the scope didn't bind yet.
fn see_pairs(walk: &mut Walk, pairs: &Pairs) -> u32
    requires { SeesIn walk.old pairs.now }
    ensures { Sees pairs.now walk.old walk.new result }
{
    let mut made = 0;
    // By index: a pair is two of the lent words, and `pair` and its definition go by the pair's number.
    for i in 0..pairs.count {
        let (x, v) = pairs.pair(i);
        made += u32::from(!walk.is_again(x));
        let cur = walk.cur;
        walk.visible.bind(x, v, cur, true);
    }
    made
}

// Where there is a star, each name that is visible stays so once, in the current scope; how many these are, 0 without a star.
fn spread(walk: &mut Walk, star: bool) -> u32
    requires { (walk.old.cur < 2147483648) × Binding walk.old }
    ensures { Spreads star walk.old walk.new result }
{
    if star {
        let cur = walk.cur;
        walk.visible.restack(cur);
        return walk.visible.top;
    }
    0
}

// Counted as carried: the `star` names of a star and the `held` pairs. Counted as bindings: the `star` names, and the `first` of the pairs whose
// name the new Root didn't bind yet.
fn count_pairs(walk: &mut Walk, held: u32, star: u32, first: u32)
    requires { Countable held star first walk.old }
    ensures { CountsPairs held star first walk.old walk.new }
{
    walk.taken += star + held;
    walk.made += star + first;
}

// What was taken is carried by a barrier, and bound in a new Root above the first `top` names that are visible, or with a star in their place.
fn bind_with(walk: &mut Walk, context: &Context, pairs: &Pairs, head: Head, top: u32)
    requires { BindsIn top walk.old pairs.now × Ready (2 + kept_of pairs.now) context.now walk.old }
    ensures { Rebinds context.now pairs.now walk.old walk.new head.start head.end top }
{
    walk.enter(context, ScopeKind::WithBarrier, head.start, head.end);
    walk.enter(context, ScopeKind::Root, head.end, head.end);
    let root = walk.cur;
    walk.leave(top, root);
    let star = spread(walk, pairs.star);
    let first = see_pairs(walk, pairs);
    count_pairs(walk, pairs.count, star, first);
}

// After the keys only what is carried is visible. With a star that is all up to the height, where the keys began; without one the stack is
// emptied, of the names before the WITH too, and the pairs become visible anew.
fn see_again(walk: &mut Walk, pairs: &Pairs, height: u32, root: u32)
    requires { SeesAgainIn height root walk.old pairs.now }
    ensures { SeesAgain pairs.now height root walk.old walk.new }
{
    if pairs.star {
        walk.leave(height, root);
        return;
    }
    walk.leave(0, root);
    see_pairs(walk, pairs);
}

// WITH, with sort keys or without: keys see the pairs in the new Root, and below them the names before, unless a star carries these.
pub fn walk_with(
    walk: &mut Walk,
    context: &Context,
    held: &mut [u32],
    head: Head,
    mode: Mode,
) -> Result<(), Refusal>
    requires { Held context.now held.old (mode_of mode) × Ready 3 context.now walk.old }
    ensures kept { length held.new ≡ length held.old }
    ensures passes { Passes 3 context.now walk.old walk.new (with_at context.now (mode_of mode) (sorts head.kind) head.start head.end) result }
{
    let before = walk.visible.top;
    let mut pairs = Pairs {
        words: held,
        count: 0,
        star: false,
    };
    walk_filtered(walk, context, &mut pairs, mode)?;
    match head.kind {
        ClauseKind::SortedWith => {
            bind_with(walk, context, &pairs, head, before);
            let root = walk.cur;
            let height = walk.visible.top;
            walk_counted(walk, context, mode)?;
            see_again(walk, &pairs, height, root);
            Ok(())
        }
        _ => {
            let top = if pairs.star { before } else { 0 };
            bind_with(walk, context, &pairs, head, top);
            Ok(())
        }
    }
}
