// What is said, scopes that are opened and left, names that are bound. The kind of a binding is a number where an element's may be meant: that is
// one of the tree, which may be any. A finding's code is a number, since that is its name in document 01.
ghost use Rattle.std.specs.Prelude.{◌≡◌, ◌∷◌, [], suc, ◌<◌, ◌≤◌, Some};
ghost use Rattle.scope.specs.Kind.{number_of};
ghost use Rattle.tables.specs.Kind as kinds;
ghost use Rattle.scope.specs.Graph.{indexed};
ghost use Rattle.semantics.specs.Resolve.{enter, bind_anew, binds};
ghost use Rattle.fused.specs.Fused.{elem_step};
ghost use Rattle.visible.specs.Stack.{entries, Sound};
ghost use Rattle.rows.specs.Table.{row_in};
ghost use Rattle.rowless.specs.Rowless.{named, places};
ghost use Rattle.steps.specs.Modes.{mode_of};
ghost use Rattle.steps.specs.Memory.{names_in, world_at};
ghost use Rattle.steps.specs.Said.{Roomy};
ghost use Rattle.steps.specs.Hold.{Binding, Ready, Able, Costs, Steps, Binds, Placed, SaysIf, SaysBound, TellsIf, Left, ShownTo};
ghost use Rattle.steps.specs.Hold.{on_names, path_name, path_step, new_name, name_in, kind_in, misplaced_in};

use crate::{Context, Mode, Sort, Walk};
use finding::shadow;
use heads::Elem;
use scope::{LOGGED_WIDTH, Name, ScopeKind};
use tables::VarKind;

impl Walk<'_> {
    // An event that is no finding, where every event is wanted.
    pub fn say_wanted(&mut self, context: &Context, event: [u32; LOGGED_WIDTH])
        requires { Roomy self.old.log }
        ensures { SaysIf context.now.wants event self.old self.new }
    {
        if context.wants {
            self.log.say(event);
        }
    }

    // A scope of the kind under the current one, which it becomes.
    pub fn enter(&mut self, context: &Context, kind: ScopeKind, start: u32, end: u32)
        requires { Ready 1 context.now self.old }
        ensures { Steps 1 context.now self.old self.new (λ id. on_names (enter (number_of kind) start end)) }
    {
        let parent = self.cur + 1;
        self.say_wanted(
            context,
            [Sort::Scope as u32, kind as u32, parent, start, end, 0],
        );
        self.last += 1;
        self.cur = self.last;
    }

    // The place of a variable's name, by its row if it has one.
    pub fn place(&mut self, context: &Context, v: u32, r: Option<(u32, u32)>) -> u32
        requires { ShownTo (names_in context.now) (row_in context.now.rows v) r × Ready 3 context.now self.old }
        ensures { Placed context.now v self.old self.new result }
    {
        match r {
            Some((x, _)) => x,
            None => self.rowless.place(context.section.bytes, v),
        }
    }

    // The name at a place is bound in the current scope; whether that binds it already.
    pub fn bind_name(&mut self, context: &Context, x: u32, v: u32, kind: u32) -> bool
        requires { (x < places self.old.rowless) × Able 3 context.now self.old }
        ensures { Binds context.now self.old self.new x v kind result }
    {
        let again = self.is_again(x);
        let name = self.rowless.name(x);
        self.say_bound(context, again, name, v, kind);
        self.visible.bind(x, v, self.cur, false);
        again
    }

    // Whether the current scope binds the name at x already.
    pub fn is_again(&self, x: u32) -> bool
        requires { Binding self.now }
        ensures { result ≡ binds self.now.cur (indexed x) (entries self.now.visible) }
    {
        let cur = self.cur;
        self.visible
            .find(x)
            .is_some_and(|newest| newest.scope == cur)
    }

    // A binding in the current scope is said, and counted unless it replaces another.
    fn say_bound(&mut self, context: &Context, again: bool, name: Name, v: u32, kind: u32)
        requires { (self.old.made < 4294967295) × Roomy self.old.log }
        ensures { SaysBound context.now.wants again name v kind self.old self.new }
    {
        let scope = self.cur;
        let Name { mark, word } = name;
        if again {
            self.say_wanted(
                context,
                [Sort::Rebinding as u32, scope, word, v, kind, mark],
            );
        } else {
            self.say_wanted(context, [Sort::Binding as u32, scope, word, v, kind, mark]);
            self.made += 1;
        }
    }

    // A name is bound, with E1002 where its scope binds it already.
    pub fn bind_anew(
        &mut self,
        context: &Context,
        start: u32,
        end: u32,
        x: u32,
        v: u32,
        kind: VarKind,
    )
        requires { (x < places self.old.rowless) × Able 3 context.now self.old }
        ensures { Costs 2 3 0 context.now self.old self.new (λ id. on_names (bind_anew (world_at context.now id) start end (named self.old.rowless x) v (kinds.number_of kind))) }
    {
        let again = self.bind_name(context, x, v, kind as u32);
        if again && context.warns {
            let name = self.rowless.name(x);
            self.log.say(shadow(name, start, end));
        }
    }

    // E2008, where kinds are checked, for a binder whose row has another kind than its place wants. The detail one doesn't follow from the kind that
    // is wanted: an element's may be any, also a path's.
    fn misplace(
        &mut self,
        mode: Mode,
        r: Option<(u32, u32)>,
        want: u32,
        one: u32,
        start: u32,
        end: u32,
    )
        requires { (name_in r < 4294967295) × Roomy self.old.log }
        ensures { TellsIf (misplaced_in mode.checks want r) (2008 ∷ start ∷ end ∷ suc (name_in r) ∷ one ∷ kind_in r ∷ []) self.old self.new }
    {
        if let Some((x, k)) = r {
            if mode.checks && k != want {
                self.log.tell([2008, start, end, x + 1, one, k]);
            }
        }
    }

    // A path's name is bound, where names are resolved.
    fn bind_path_name(&mut self, context: &Context, r: Option<(u32, u32)>, v: u32, mode: Mode)
        requires { ShownTo (names_in context.now) (row_in context.now.rows v) r × Ready 3 context.now self.old }
        ensures { Costs 2 3 3 context.now self.old self.new (λ id. on_names (path_name (world_at context.now id) (mode_of mode) v)) }
    {
        if mode.resolves {
            let x = self.place(context, v, r);
            self.bind_anew(context, 0, 0, x, v, VarKind::Path);
        }
    }

    // A part's path variable.
    pub fn bind_path(&mut self, context: &Context, v: u32, mode: Mode)
        requires { Ready 3 context.now self.old }
        ensures { Steps 3 context.now self.old self.new (λ id. path_step (world_at context.now id) (mode_of mode) (Some v)) }
    {
        let r = context.row_of(v);
        self.bind_path_name(context, r, v, mode);
        self.misplace(mode, r, VarKind::Path as u32, 1, 0, 0);
    }

    // A node's or a relationship's name is bound, where names are resolved, if it is not visible.
    fn bind_new(&mut self, context: &Context, r: Option<(u32, u32)>, v: u32, kind: u32, mode: Mode)
        requires { ShownTo (names_in context.now) (row_in context.now.rows v) r × Ready 3 context.now self.old }
        ensures { Costs 1 3 3 context.now self.old self.new (λ id. on_names (new_name (world_at context.now id) (mode_of mode) v kind)) }
    {
        if mode.resolves {
            let x = self.place(context, v, r);
            if self.visible.find(x).is_none() {
                self.bind_name(context, x, v, kind);
            }
        }
    }

    // An element's own binder.
    pub fn bind_elem(&mut self, context: &Context, h: Elem, mode: Mode)
        requires { (h.kind < 4294967295) × Ready 3 context.now self.old }
        ensures { Steps 3 context.now self.old self.new (λ id. elem_step (world_at context.now id) (mode_of mode) h) }
    {
        if let Some(v) = h.variable {
            let r = context.row_of(v);
            self.bind_new(context, r, v, h.kind, mode);
            self.misplace(mode, r, h.kind, h.kind + 1, h.start, h.end);
        }
    }

    // Out of a scope: what is visible and the current scope are again as they were.
    pub fn leave(&mut self, top: u32, cur: u32)
        requires { (top ≤ self.old.visible.top) × Sound self.old.visible }
        ensures { Left self.old self.new top cur }
    {
        self.visible.cut(top);
        self.cur = cur;
    }
}
