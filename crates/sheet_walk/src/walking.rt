// The head and the arms of a sheet, each walked to its end. Causes 5 and 6.
ghost use Rattle.std.specs.Prelude.{◌≡◌, length};
ghost use Rattle.sheet_walk.specs.Parts.{Lent, Begins, Beginning, WalksAll};

use arm_walk::{walk_arms, walk_clauses};
use refusal::Refusal;
use scope::ScopeKind;
use sheet::{Places, check_end};
use steps::{Context, Mode, Sort, Walk};

// The walks begin at the head, with the Root where every event is wanted.
fn begin(walk: &mut Walk, context: &Context, p: Places)
    requires { Beginning p context.now walk.old }
    ensures { Begins p context.now walk.old walk.new }
{
    walk.restart(p.head, context.texts);
    let root = [
        Sort::Scope as u32,
        ScopeKind::Root as u32,
        0,
        p.start,
        p.end,
        0,
    ];
    walk.say_wanted(context, root);
}

// The head, where kinds are checked, and then the arms. The context's section is cut in place to the words of each, and left so: to copy a context
// twice is a few hundredths of a short sheet's time.
pub fn walk_all(
    walk: &mut Walk,
    context: &mut Context,
    p: Places,
    held: &mut [u32],
    marks: &mut [u32],
    carried: &mut [u32],
) -> Result<(), Refusal>
    requires { Lent p context.old held.old marks.old × Beginning p context.old walk.old }
    ensures same { marks.new ≡ marks.old }
    ensures kept { length held.new ≡ length held.old }
    ensures walks { WalksAll p context.old walk.old carried.old walk.new carried.new result }
{
    begin(walk, context, p);
    let bytes = context.section.bytes;
    context.section.bytes = &bytes[..p.tail * 4];
    let mode = Mode {
        resolves: true,
        checks: true,
    };
    walk_clauses(walk, context, held, marks, carried, p.clauses, mode)?;
    check_end(walk.at, p.tail)?;
    context.section.bytes = &bytes[..p.trailer * 4];
    walk_arms(walk, context, held, marks, carried, p.arms)?;
    check_end(walk.at, p.trailer)
}
