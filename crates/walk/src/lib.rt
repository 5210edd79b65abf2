// Expressions and patterns, read and walked in one over any words: the refusal, or where both walks stand then. The expression walk and the
// pattern walk call each other, an expression for the pattern within it and a pattern for its properties, and the words that are left fall.
// A row of expressions is a loop: the parts of a plain head are counted with the row, on a stack of what is left at each level.
// `room` is at most the limit, since the stack has a place for each room up to it. It is a number, and functions have up to six parameters: a type
// for it, or a struct of what goes with each call, would be built and opened at each call.
#![tactic(auto)]

mod plain;

ghost use Rattle.std.specs.Prelude.{ℕ, ◌<◌, ◌≤◌};
ghost use Rattle.heads.specs.Answer.{kind_of};
ghost use Rattle.clauses.specs.Read.{max_depth};
ghost use Rattle.steps.specs.Modes.{mode_of, setting_of, pair_of};
ghost use Rattle.steps.specs.Memory.{world_at};
ghost use Rattle.steps.specs.Hold.{Ready, Steps, path_step};
ghost use Rattle.walk.specs.Goes.{Walked, path_cost, expr_at, row_at, rest_at, inner_at, mark_at, marks_at, elem_at, elems_at, part_at, parts_at, pattern_at};
ghost use Rattle.semantics.specs.Kinds.{plain};

use heads::{Form, MarkKind};
use plain::{MOST, act, pair, parts_of, plain_at, shows};
use refusal::Refusal;
use steps::{Context, Mode, Setting, Settings, Walk};
use words::word;

// An expression, with room for this many levels, in a setting.
#[cycle(walks)]
pub fn walk_expr(
    walk: &mut Walk,
    context: &Context,
    room: u32,
    mode: Mode,
    set: Setting,
) -> Result<(), Refusal>
    requires { (room ≤ max_depth) × Ready 0 context.now walk.old }
    ensures { Walked room context.now walk.old walk.new (expr_at context.now room (mode_of mode) (setting_of set)) result }
{
    if room == 0 {
        return Err(context.section.too_deep(walk.at));
    }
    let (f, at) = context.section.read_form(walk.at)?;
    let top = walk.visible.top;
    let cur = walk.cur;
    walk.at = at;
    walk.begin(context, f, mode, set);
    walk_rest(walk, context, room - 1, f, mode, set)?;
    walk.finish(f, mode, top, cur);
    Ok(())
}

// What follows a head: its pattern, its expressions, its items.
#[cycle(walks)]
fn walk_rest(
    walk: &mut Walk,
    context: &Context,
    room: u32,
    f: Form,
    mode: Mode,
    set: Setting,
) -> Result<(), Refusal>
    requires { (room < max_depth) × Ready 0 context.now walk.old }
    ensures { Walked room context.now walk.old walk.new (rest_at context.now room (mode_of mode) f (setting_of set)) result }
{
    walk_inner(walk, context, room, f, mode)?;
    let settings = context.settings_of(f, set);
    walk_many(walk, context, room, f.kids(), mode, settings)?;
    walk_marks(walk, context, room, MarkKind::Item, f.items(), mode)
}

// The pattern of a head, where it has one: a PatternPredicate's is not resolved.
#[cycle(walks)]
fn walk_inner(
    walk: &mut Walk,
    context: &Context,
    room: u32,
    f: Form,
    mode: Mode,
) -> Result<(), Refusal>
    requires { (room < max_depth) × Ready 0 context.now walk.old }
    ensures { Walked room context.now walk.old walk.new (inner_at context.now room (mode_of mode) f) result }
{
    match f {
        Form::PatternPredicate => walk_pattern(walk, context, room, mode.unresolving()),
        Form::PatternComprehension(_, _, _) => walk_pattern(walk, context, room, mode),
        _ => Ok(()),
    }
}

// n expressions, at most MOST, the first in one setting and the others in another. What is left at a level, and the setting there, wait in the
// walk while the parts of a plain head are walked.
#[cycle(walks)]
pub fn walk_row(
    walk: &mut Walk,
    context: &Context,
    room: u32,
    n: usize,
    mode: Mode,
    settings: Settings,
) -> Result<(), Refusal>
    requires { ((room ≤ max_depth) × (n ≤ 524287)) × Ready 0 context.now walk.old }
    ensures { Walked room context.now walk.old walk.new (row_at context.now room (mode_of mode) n (pair_of settings)) result }
{
    let bytes = context.section.bytes;
    let names = context.section.names;
    let mut left = n;
    let mut set = settings.first;
    let mut later = settings.later;
    let mut d = room;
    // Down and up the levels: each turn says where the next begins.
    loop {
        if left == 0 {
            if d == room {
                return Ok(());
            }
            d += 1;
            left = walk.left[d as usize] as usize;
            later = walk.later[d as usize];
            set = later;
        } else {
            let t = plain_at(bytes, names, walk.at, d);
            if t == 0 {
                walk_expr(walk, context, d, mode, set)?;
                left -= 1;
                set = later;
            } else {
                let code = word(bytes, walk.at);
                let a = word(bytes, walk.at + 1);
                walk.at += 1 + (t % 2) as usize;
                if shows(t, set) {
                    act(walk, context, code, a, mode, set);
                }
                let k = parts_of(t, a);
                if k == 0 {
                    left -= 1;
                    set = later;
                } else {
                    let p = pair(t, code, a, set, context.ident);
                    walk.left[d as usize] = (left - 1) as u32;
                    walk.later[d as usize] = later;
                    d -= 1;
                    left = k;
                    set = p.first;
                    later = p.later;
                }
            }
        }
    }
}

// n expressions, any number.
#[cycle(walks)]
pub fn walk_many(
    walk: &mut Walk,
    context: &Context,
    room: u32,
    n: usize,
    mode: Mode,
    settings: Settings,
) -> Result<(), Refusal>
    requires { (room ≤ max_depth) × Ready 0 context.now walk.old }
    ensures { Walked room context.now walk.old walk.new (row_at context.now room (mode_of mode) n (pair_of settings)) result }
{
    if n <= MOST {
        return walk_row(walk, context, room, n, mode, settings);
    }
    let mut set = settings.first;
    for _ in 0..n {
        walk_expr(walk, context, room, mode, set)?;
        set = settings.later;
    }
    Ok(())
}

// n marks of a kind, each with its expressions. A loop of its own, as in walk_parts and walk_elems: one over a closure would need a contract over
// every state that it leaves.
#[cycle(walks)]
pub fn walk_marks(
    walk: &mut Walk,
    context: &Context,
    room: u32,
    kind: MarkKind,
    n: u32,
    mode: Mode,
) -> Result<(), Refusal>
    requires { (room ≤ max_depth) × Ready 0 context.now walk.old }
    ensures { Walked room context.now walk.old walk.new (marks_at context.now room (mode_of mode) (kind_of kind) n) result }
{
    for _ in 0..n {
        walk_mark(walk, context, room, kind, mode)?;
    }
    Ok(())
}

#[cycle(walks)]
fn walk_mark(
    walk: &mut Walk,
    context: &Context,
    room: u32,
    kind: MarkKind,
    mode: Mode,
) -> Result<(), Refusal>
    requires { (room ≤ max_depth) × Ready 0 context.now walk.old }
    ensures { Walked room context.now walk.old walk.new (mark_at context.now room (mode_of mode) (kind_of kind)) result }
{
    let (k, at) = context.section.word_in(walk.at, kind.low(), kind.high())?;
    walk.at = at;
    walk_row(
        walk,
        context,
        room,
        kind.kids(k),
        mode,
        Settings::all(Setting::General),
    )
}

// A pattern: the number of its parts, and the parts.
#[cycle(walks)]
pub fn walk_pattern(
    walk: &mut Walk,
    context: &Context,
    room: u32,
    mode: Mode,
) -> Result<(), Refusal>
    requires { (room ≤ max_depth) × Ready 0 context.now walk.old }
    ensures { Walked room context.now walk.old walk.new (pattern_at context.now room (mode_of mode)) result }
{
    let (n, at) = context.section.any_word(walk.at)?;
    walk.at = at;
    walk_parts(walk, context, room, n, mode)
}

#[cycle(walks)]
fn walk_parts(
    walk: &mut Walk,
    context: &Context,
    room: u32,
    n: u32,
    mode: Mode,
) -> Result<(), Refusal>
    requires { (room ≤ max_depth) × Ready 0 context.now walk.old }
    ensures { Walked room context.now walk.old walk.new (parts_at context.now room (mode_of mode) n) result }
{
    for _ in 0..n {
        walk_part(walk, context, room, mode)?;
    }
    Ok(())
}

// A part, with its elements.
#[cycle(walks)]
fn walk_part(walk: &mut Walk, context: &Context, room: u32, mode: Mode) -> Result<(), Refusal>
    requires { (room ≤ max_depth) × Ready 0 context.now walk.old }
    ensures { Walked room context.now walk.old walk.new (part_at context.now room (mode_of mode)) result }
{
    let (h, at) = context.section.read_part(walk.at)?;
    walk.at = at;
    bind_part(walk, context, h.path, mode);
    walk_elems(walk, context, room, h.count, mode)
}

// A part's path, where it has one.
fn bind_part(walk: &mut Walk, context: &Context, path: Option<u32>, mode: Mode)
    requires { Ready (path_cost path) context.now walk.old }
    ensures { Steps (path_cost path) context.now walk.old walk.new (λ id. path_step (world_at context.now id) (mode_of mode) path) }
{
    if let Some(v) = path {
        walk.bind_path(context, v, mode);
    }
}

#[cycle(walks)]
fn walk_elems(
    walk: &mut Walk,
    context: &Context,
    room: u32,
    n: u32,
    mode: Mode,
) -> Result<(), Refusal>
    requires { (room ≤ max_depth) × Ready 0 context.now walk.old }
    ensures { Walked room context.now walk.old walk.new (elems_at context.now room (mode_of mode) n) result }
{
    for _ in 0..n {
        walk_elem(walk, context, room, mode)?;
    }
    Ok(())
}

// An element, with its property.
#[cycle(walks)]
fn walk_elem(walk: &mut Walk, context: &Context, room: u32, mode: Mode) -> Result<(), Refusal>
    requires { (room ≤ max_depth) × Ready 0 context.now walk.old }
    ensures { Walked room context.now walk.old walk.new (elem_at context.now room (mode_of mode)) result }
{
    let (h, at) = context.section.read_elem(walk.at)?;
    walk.at = at;
    walk.bind_elem(context, h, mode);
    walk_row(
        walk,
        context,
        room,
        h.property as usize,
        mode,
        Settings::all(Setting::General),
    )
}
