// Which of the walks look at a place, and what is wanted of an expression there.
ghost use Rattle.std.specs.Prelude.{◌≡◌};
ghost use Rattle.semantics.specs.Kinds.{general, passes, both};
ghost use Rattle.steps.specs.Modes.{mode_of, setting_of, pair_of, list_code};
ghost use Rattle.fused.specs.Fused.{unresolving};

// Names are resolved, kinds are checked.
#[derive(Clone, Copy, Debug, PartialEq, Eq)]
pub struct Mode {
    pub resolves: bool,
    pub checks: bool,
}

// Where an expression stands: what an Index, a Slice, a ListComprehension and a ListPredicate want is a list.
#[derive(Clone, Copy, Debug, PartialEq, Eq)]
pub enum Setting {
    General,
    Arithmetic,
    Property,
    Boolean,
    Indexed,
    Sliced,
    Iterated,
    Quantified,
}

// The settings of a row's first expression and of the later ones.
#[derive(Clone, Copy, Debug, PartialEq, Eq)]
pub struct Settings {
    pub first: Setting,
    pub later: Setting,
}

impl Settings {
    // The same for all.
    pub fn all(setting: Setting) -> Settings
        ensures { pair_of result ≡ both (setting_of setting) (setting_of setting) }
    {
        Settings {
            first: setting,
            later: setting,
        }
    }

    // One for the first, and general for the others.
    pub fn first(setting: Setting) -> Settings
        ensures { pair_of result ≡ both (setting_of setting) general }
    {
        Settings {
            first: setting,
            later: Setting::General,
        }
    }
}

impl Setting {
    // "unary passes its setting on"
    #[tactic(auto, unfolding(semantics::specs::Kinds::passes))]
    pub fn passed(self) -> Setting
        ensures { setting_of result ≡ passes (setting_of self) }
    {
        match self {
            Setting::Arithmetic | Setting::Property => self,
            _ => Setting::General,
        }
    }

    // The code and the detail of the finding where a list is wanted, in the settings that want one. The code is a number, since that is its name in
    // document 01.
    pub fn list_code(self) -> Option<(u32, u32)>
        ensures { result ≡ list_code self }
    {
        match self {
            Setting::Indexed => Some((5010, 1)),
            Setting::Sliced => Some((5010, 2)),
            Setting::Iterated => Some((5010, 3)),
            Setting::Quantified => Some((5011, 0)),
            _ => None,
        }
    }
}

impl Mode {
    // The same, but that names are not resolved.
    pub fn unresolving(self) -> Mode
        ensures { mode_of result ≡ unresolving (mode_of self) }
    {
        Mode {
            resolves: false,
            checks: self.checks,
        }
    }
}
