// What the head of an expression does before its parts and after them. A finding's code is a number, since that is its name in document 01.
ghost use Rattle.std.specs.Prelude.{◌≡◌, ◌<◌, ◌≤◌, cond, get_or};
ghost use Rattle.scope.specs.Graph.{indexed};
ghost use Rattle.expr.specs.Olds.{old_in};
ghost use Rattle.semantics.specs.Resolve.{lookup};
ghost use Rattle.semantics.specs.Kinds.{no_type, leaf_types, at_type};
ghost use Rattle.fused.specs.Fused.{step, same, name_use, head_of};
ghost use Rattle.visible.specs.Stack.{Sound};
ghost use Rattle.steps.specs.Types.{type_number, type_at};
ghost use Rattle.steps.specs.Modes.{mode_of, setting_of};
ghost use Rattle.steps.specs.Memory.{names_in, world_at};
ghost use Rattle.steps.specs.Hold.{Ready, Steps, Closed, act_of, cost_of, Named, on_names, var_step, var_record, name_record};

use crate::{Context, Mode, Setting, Sort, Walk};
use expr::Type;
use heads::Form;
use scope::ScopeKind;

// What a head does before its parts: it shows a type, or none; it uses a variable, or a name; it opens the scope of a comprehension.
#[derive(Clone, Copy)]
enum Act {
    Shows(Option<Type>),
    Uses(u32),
    Names(u32),
    Opens(u32, u32),
}

// The type of a leaf by its code.
pub fn leaf_type(k: u32) -> Option<Type>
    ensures { result ≡ type_at (get_or leaf_types k no_type) }
{
    match k {
        1 => Some(Type::Null),
        2 => Some(Type::Bool),
        3 => Some(Type::Int),
        4 => Some(Type::Float),
        5 => Some(Type::String),
        _ => None,
    }
}

#[tactic(auto, unfolding(semantics::specs::Kinds::type_of))]
fn act_of(f: Form) -> Act
    ensures { result ≡ act_of f }
{
    match f {
        Form::Leaf(k) => Act::Shows(leaf_type(k)),
        Form::Var(v) => Act::Uses(v),
        Form::Unresolved(x) => Act::Names(x),
        Form::Many(13, _) => Act::Shows(Some(Type::Map)),
        Form::PatternPredicate => Act::Shows(Some(Type::Pattern)),
        Form::PatternComprehension(a, b, _) => Act::Opens(a, b),
        _ => Act::Shows(None),
    }
}

// Whether it is an expression 25.
fn is_old(f: Form) -> bool
    ensures { old_in f ≡ cond result 1 0 }
{
    match f {
        Form::Leaf(k) => k == 25,
        _ => false,
    }
}

impl Walk<'_> {
    // What is recorded of a variable whose row has the kind k.
    fn record_var(&mut self, context: &Context, v: u32, k: u32, mode: Mode)
        requires { Ready 1 context.now self.old }
        ensures { Steps 1 context.now self.old self.new (λ id. on_names (var_record (mode_of mode) v k)) }
    {
        if mode.resolves {
            self.say_wanted(context, [Sort::Variable as u32, v, k, 0, 0, 0]);
        }
    }

    // A use of a variable.
    pub fn use_var(&mut self, context: &Context, v: u32, mode: Mode, set: Setting)
        requires { Ready 2 context.now self.old }
        ensures { Steps 2 context.now self.old self.new (λ id. var_step (world_at context.now id) (mode_of mode) v (setting_of set)) }
    {
        if context.is_quiet(mode, set) {
            return;
        }
        if let Some((x, k)) = context.row_of(v) {
            self.record_var(context, v, k, mode);
            if mode.checks {
                self.at_row(context, set, x, k);
            }
        }
    }

    // What is recorded of a name.
    pub fn record_name(&mut self, context: &Context, x: u32)
        requires { (x < names_in context.now) × Ready 1 context.now self.old }
        ensures { Steps 1 context.now self.old self.new (λ id. on_names (λ y. name_record (world_at context.now id) x (lookup (indexed x) y.visible) y)) }
    {
        if !context.wants {
            return;
        }
        match self.visible.find(x) {
            Some(newest) => {
                let v = newest.variable;
                self.log.say([Sort::Name as u32, x, 1, v, context.rows.kind(v), newest.via]);
            }
            None => self.log.say([Sort::Name as u32, x, 0, 0, 0, 0]),
        }
    }

    // A use of a name, if it is one here.
    pub fn use_name(&mut self, context: &Context, x: u32)
        requires { (x < names_in context.now) × Ready 2 context.now self.old }
        ensures { Steps 2 context.now self.old self.new (λ id. on_names (name_use (world_at context.now id) x)) }
    {
        if context.is_hushed(x) {
            return;
        }
        self.record_name(context, x);
        if self.visible.find(x).is_none() && context.star != Some(x) {
            self.log.say([1001, 0, 0, x + 1, 0, 0]);
        }
    }

    // A type that a head shows, where kinds are checked. A context is asked for since room is a fact of it.
    fn show(&mut self, context: &Context, t: Option<Type>, mode: Mode, set: Setting)
        requires { Ready 1 context.now self.old }
        ensures { Steps 1 context.now self.old self.new (λ id. step (mode_of mode) same (at_type (setting_of set) (type_number t))) }
    {
        if mode.checks {
            self.at_type(context, set, t);
        }
    }

    // What a head does before its parts. An expression 25 is counted, whichever walk looks, and shows nothing.
    pub fn begin(&mut self, context: &Context, f: Form, mode: Mode, set: Setting)
        requires { Named (names_in context.now) f × Ready (cost_of f) context.now self.old }
        ensures { Steps (cost_of f) context.now self.old self.new (λ id. head_of (world_at context.now id) (mode_of mode) f (setting_of set)) }
    {
        if is_old(f) {
            self.olds += 1;
            return;
        }
        match act_of(f) {
            Act::Shows(t) => self.show(context, t, mode, set),
            Act::Uses(v) => self.use_var(context, v, mode, set),
            Act::Names(x) => {
                if mode.resolves {
                    self.use_name(context, x);
                }
            }
            Act::Opens(a, b) => {
                if mode.resolves {
                    self.enter(context, ScopeKind::PatternComprehension, a, b);
                }
            }
        }
    }

    // What a head does after its parts: a comprehension's names are no longer visible.
    pub fn finish(&mut self, f: Form, mode: Mode, top: u32, cur: u32)
        requires { (top ≤ self.old.visible.top) × Sound self.old.visible }
        ensures { Closed self.old self.new top cur (mode_of mode) f }
    {
        match act_of(f) {
            Act::Opens(_, _) if mode.resolves => self.leave(top, cur),
            _ => {}
        }
    }
}
