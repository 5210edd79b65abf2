// The pushes of resolve.rs and kinds.rs: what comes with a text.
ghost use Rattle.std.specs.Prelude.{◌≡◌};
ghost use Rattle.message.specs.Pushes.{push_of, gives};

use expr::Type;
use tables::VarKind;
use texts::Text;

// What comes with a text: a name or none; detail two, the number of a kind or a type, from low to high, but one. Where
// nothing is barred, `but` is a number outside low to high: so there is one comparison and no case.
#[derive(Clone, Copy)]
pub struct Push {
    pub named: bool,
    pub low: u32,
    pub high: u32,
    pub but: u32,
}

// Unused details.
const PLAIN: Push = Push {
    named: true,
    low: 0,
    high: 0,
    but: 1,
};

// A name and its kind.
const ANY_KIND: Push = Push {
    named: true,
    low: VarKind::Node as u32,
    high: VarKind::Value as u32,
    but: 0,
};

// A type, and no name.
const ANY_TYPE: Push = Push {
    named: false,
    low: Type::Bool as u32,
    high: Type::Path as u32,
    but: 0,
};

// A kind is not the one that the place is for. E2011 is said of Int, Float and String alone.
#[tactic(auto, unfolding(crate::specs::Pushes::push_of))]
pub fn push_of(t: Text) -> Push
    ensures { result ≡ push_of t }
{
    match t {
        Text::Unresolved => PLAIN,
        Text::Shadows => PLAIN,
        Text::Arithmetic => Push {
            high: VarKind::Path as u32,
            ..ANY_KIND
        },
        Text::PropAccess => Push {
            low: VarKind::Path as u32,
            high: VarKind::Path as u32,
            ..ANY_KIND
        },
        Text::PathBinder => Push {
            but: VarKind::Path as u32,
            ..ANY_KIND
        },
        Text::NodePosition => Push {
            but: VarKind::Node as u32,
            ..ANY_KIND
        },
        Text::RelPosition => Push {
            but: VarKind::Relationship as u32,
            ..ANY_KIND
        },
        Text::Index => ANY_TYPE,
        Text::Slice => ANY_TYPE,
        Text::IterateOver => ANY_TYPE,
        Text::ListIterable => ANY_TYPE,
        Text::BoolPredicate => Push {
            low: Type::Int as u32,
            high: Type::String as u32,
            ..ANY_TYPE
        },
    }
}

impl Push {
    // Whether it comes with a name or none, as is said, and with this detail two.
    #[tactic(auto, unfolding(crate::specs::Pushes::gives))]
    pub fn allows(self, named: bool, two: u32) -> bool
        ensures { result ≡ gives self named two }
    {
        (self.named == named) & ((self.low <= two) & ((two <= self.high) & (two != self.but)))
    }
}
