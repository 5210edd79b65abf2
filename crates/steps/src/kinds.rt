// The kind walk's findings at a place: a type, a row or a binder against what the place wants. A finding's code is a number, since that is its
// name in document 01; the kind of a row is one, since the sheet's words have it.
ghost use Rattle.std.specs.Prelude.{◌≡◌, ◌≤◌, ◌<◌, ◌&&◌, cond, [], ◌∷◌, eqb, leb, None, Some};
ghost use Rattle.scope.specs.Graph.{indexed};
ghost use Rattle.expr.specs.Types.{number_of};
ghost use Rattle.tables.specs.Row.{value_kind};
ghost use Rattle.semantics.specs.Log.{e2007, finding};
ghost use Rattle.semantics.specs.Kinds.{int_type, string_type, at_type, boolean, listed, kind_type};
ghost use Rattle.finding.specs.Logged.{shadow_code};
ghost use Rattle.steps.specs.Types.{type_number};
ghost use Rattle.steps.specs.Modes.{setting_of};
ghost use Rattle.steps.specs.Hold.{Ready, Steps, AtRow, on_kinds};

use crate::{Context, Setting, Walk};
use expr::Type;
use tables::VarKind;

// Whether a type is Int, Float or String.
fn is_scalar(t: Type) -> bool
    ensures { result ≡ leb int_type (number_of t) && leb (number_of t) string_type }
{
    matches!(t, Type::Int | Type::Float | Type::String)
}

// A context is asked for since room is a fact of it.
impl Walk<'_> {
    // The type that is shown, if any, in a setting.
    #[tactic(auto, unfolding(semantics::specs::Kinds::at_type))]
    pub fn at_type(&mut self, context: &Context, set: Setting, t: Option<Type>)
        requires { Ready 1 context.now self.old }
        ensures { Steps 1 context.now self.old self.new (λ id. on_kinds (at_type (setting_of set) (type_number t))) }
    {
        if let Some((code, one)) = set.list_code() {
            self.want_list(context, code, one, t);
        } else if set == Setting::Boolean {
            self.want_bool(context, t);
        }
    }

    // The type that is shown, if any, where a Bool is wanted.
    fn want_bool(&mut self, context: &Context, t: Option<Type>)
        requires { Ready 1 context.now self.old }
        ensures { Steps 1 context.now self.old self.new (λ id. on_kinds (at_type boolean (type_number t))) }
    {
        if let Some(t) = t {
            if is_scalar(t) {
                self.log.tell([2011, 0, 0, 0, 0, t as u32]);
            }
        }
    }

    // The type that is shown, if any, where a list is wanted.
    fn want_list(&mut self, context: &Context, code: u32, one: u32, t: Option<Type>)
        requires { (shadow_code < code) × Ready 1 context.now self.old }
        ensures { Steps 1 context.now self.old self.new (λ id. on_kinds (at_type (listed code one) (type_number t))) }
    {
        if let Some(t) = t {
            self.log.tell([code, 0, 0, 0, one, t as u32]);
        }
    }

    // E2007 for a row with the name x and the kind k.
    fn mistype(&mut self, context: &Context, x: u32, one: u32, k: u32)
        requires { (x < 4294967295) × Ready 1 context.now self.old }
        ensures { Steps 1 context.now self.old self.new (λ id. on_kinds (finding e2007 0 0 (Some (indexed x)) one k ∷ [])) }
    {
        self.log.tell([2007, 0, 0, x + 1, one, k]);
    }

    // A row with the name x and the kind k in a setting.
    #[tactic(auto, unfolding(semantics::specs::Kinds::at_row))]
    pub fn at_row(&mut self, context: &Context, set: Setting, x: u32, k: u32)
        requires { (x < 4294967295) × ((k ≤ 4) × Ready 1 context.now self.old) }
        ensures { AtRow context.now self.old self.new set x k }
    {
        if let Some((code, one)) = set.list_code() {
            self.want_kind(context, code, one, k);
        } else if set == Setting::Arithmetic && k != VarKind::Value as u32 {
            self.mistype(context, x, 1, k);
        } else if set == Setting::Property && k == VarKind::Path as u32 {
            self.mistype(context, x, 2, k);
        }
    }

    // A kind where a list is wanted. The types of nodes, relationships and paths follow Pattern as their kinds follow 0.
    fn want_kind(&mut self, context: &Context, code: u32, one: u32, k: u32)
        requires { (shadow_code < code) × ((k ≤ 4) × Ready 1 context.now self.old) }
        ensures { Steps 1 context.now self.old self.new (λ id. on_kinds (cond (eqb k value_kind) [] (finding code 0 0 None one (kind_type k) ∷ []))) }
    {
        if k != VarKind::Value as u32 {
            self.log
                .tell([code, 0, 0, 0, one, k + Type::Pattern as u32]);
        }
    }
}
