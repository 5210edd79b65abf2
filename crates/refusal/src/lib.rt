// Why a call is refused. The archives' C functions, the programs and the contracts of the walks give the cause's number.
#![tactic(auto)]

ghost use Rattle.std.specs.Prelude.{◌≡◌, Some};
ghost use Rattle.refusal.specs.Number.{number_of};
ghost use Rattle.refusal.specs.Shown.{shown};

use std::fmt;

// A cause of refusal, in the order in which the causes are sought.
#[derive(Clone, Copy, Debug, PartialEq, Eq)]
pub enum Refusal {
    Size = 1,
    Places = 2,
    Names = 3,
    Bindings = 4,
    Word = 5,
    Depth = 6,
    Entries = 8,
    Asked = 9,
    Page = 10,
    Room = 12,
}

impl From<Refusal> for u32 {
    ghost from_gives = { λ refusal n. n ≡ number_of refusal };

    fn from(refusal: Refusal) -> u32 {
        refusal as u32
    }
}

impl fmt::Display for Refusal {
    ghost output = { λ refusal. Some (shown refusal) };

    fn fmt<W: fmt::Write>(&self, f: &mut fmt::Formatter<W>) -> fmt::Result {
        write!(f, "refused {}", u32::from(*self))
    }
}
