// What the walks go by: the words of a section, what the tables of a sheet tell, and the choices of who asks.
ghost use Rattle.std.specs.Prelude.{◌≡◌, cond, eqb};
ghost use Rattle.semantics.specs.Log.{e5010};
ghost use Rattle.semantics.specs.Kinds.{settings, is_arithmetic, general, arithmetic, property, listed, both};
ghost use Rattle.rows.specs.Rows.{shown};
ghost use Rattle.rows.specs.Table.{row_in};
ghost use Rattle.steps.specs.Modes.{setting_of, pair_of, quiet};
ghost use Rattle.steps.specs.Memory.{names_in, is_the, hushed_in};
ghost use Rattle.steps.specs.Hold.{Fine, InRange};

use crate::{Mode, Setting, Settings};
use heads::{Form, Section};
use rows::Rows;

// The texts of a sheet's names: their section, and where each stands in it.
#[derive(Clone, Copy)]
pub struct Texts<'a> {
    pub section: &'a [u8],
    pub places: &'a [u32],
}

// `texts` and `uses` have the text and the use id of each name. A name whose mark in `hushed` is 1 is no use; any other is one, also a name past
// the marks. `star` and `ident` are the names `*` and `id`. Marks are words, 1 or 0: a listing cuts them from the one run of words that it works
// in. `warns` is the choice of warnings, `wants` whether every event is wanted and not findings alone.
#[derive(Clone, Copy)]
pub struct Context<'a> {
    pub section: Section<'a>,
    pub rows: Rows<'a>,
    pub texts: Texts<'a>,
    pub uses: &'a [u32],
    pub hushed: &'a [u32],
    pub star: Option<u32>,
    pub ident: Option<u32>,
    pub warns: bool,
    pub wants: bool,
}

impl Context<'_> {
    // A variable's row: its name and its kind.
    pub fn row_of(&self, v: u32) -> Option<(u32, u32)>
        requires { Fine self.now }
        ensures range { InRange (names_in self.now) result }
        ensures value { result ≡ shown (row_in self.now.rows v) }
    {
        self.rows.row(v)
    }

    // Whether the name x is no use here.
    pub fn is_hushed(&self, x: u32) -> bool
        ensures { result ≡ hushed_in self.now x }
    {
        self.hushed.get(x as usize).is_some_and(|mark| *mark == 1)
    }

    // Whether nothing is written of a variable, whatever its row: its use is not wanted, and no kind is minded.
    pub fn is_quiet(&self, mode: Mode, set: Setting) -> bool
        ensures { result ≡ quiet self.now.wants mode set }
    {
        if self.wants && mode.resolves {
            return false;
        }
        if mode.checks {
            return set == Setting::General || set == Setting::Boolean;
        }
        true
    }

    // The settings of a head's parts, where the head stands in the setting `set`.
    #[tactic(auto, unfolding(semantics::specs::Kinds::settings))]
    pub fn settings_of(&self, f: Form, set: Setting) -> Settings
        ensures { pair_of result ≡ settings (λ x. is_the x self.now.ident) f (setting_of set) }
    {
        match f {
            Form::Prop(x) => property_settings(self.ident, x),
            Form::Two(k) => two_settings(k),
            Form::Slice(_) => Settings::first(Setting::Sliced),
            Form::BinOp(o) => operator_settings(o),
            Form::UnaryOp(_) => Settings::first(set.passed()),
            Form::ListComprehension(_) => Settings::first(Setting::Iterated),
            Form::ListPredicate(_) => Settings {
                first: Setting::Quantified,
                later: Setting::Boolean,
            },
            Form::MapProjection(_) => Settings::first(Setting::Property),
            Form::Leaf(_)
            | Form::Var(_)
            | Form::Unresolved(_)
            | Form::Many(_, _)
            | Form::Case(_, _)
            | Form::IsNull
            | Form::PatternPredicate
            | Form::PatternComprehension(_, _, _) => Settings::all(Setting::General),
        }
    }
}

// The settings of a property's parts: "Prop other than `id`"
pub fn property_settings(ident: Option<u32>, x: u32) -> Settings
    ensures { pair_of result ≡ both (cond (is_the x ident) general property) general }
{
    if ident == Some(x) {
        return Settings::all(Setting::General);
    }
    Settings::first(Setting::Property)
}

// An Index wants a list, an InList nothing.
fn two_settings(k: u32) -> Settings
    ensures { pair_of result ≡ both (cond (eqb k 10) (listed e5010 1) general) general }
{
    if k == 10 {
        return Settings::first(Setting::Indexed);
    }
    Settings::all(Setting::General)
}

// The settings of a binary operator's parts: "Operators 0 to 5 and 8 to 11 set arithmetic"
#[tactic(auto, using(std::proofs::lemmas::Bool::Decides::nat_tests), unfolding(semantics::specs::Kinds::is_arithmetic))]
pub fn operator_settings(o: u32) -> Settings
    ensures { pair_of result ≡ both (cond (is_arithmetic o) arithmetic general) (cond (is_arithmetic o) arithmetic general) }
{
    match o {
        0..6 | 8..12 => Settings::all(Setting::Arithmetic),
        _ => Settings::all(Setting::General),
    }
}
