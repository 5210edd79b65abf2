// Why an add is refused.
ghost use Rattle.std.specs.Prelude.{◌≡◌};
ghost use Rattle.dispatcher.specs.ErrorNumber.{number_of};

use std::error::Error;
use std::fmt;

// There is no such queue, or it is full: each by its number. A type of its own beside refusal::Refusal: those are causes of sheets and texts, and an
// add has these two alone.
#[derive(Clone, Copy, Debug, PartialEq, Eq)]
pub enum AddError {
    NoQueue = 13,
    Full = 14,
}

impl From<AddError> for u32 {
    ghost from_gives = { λ cause n. n ≡ number_of cause };

    fn from(cause: AddError) -> u32 {
        cause as u32
    }
}

impl fmt::Display for AddError {
    fn fmt<W: fmt::Write>(&self, f: &mut fmt::Formatter<W>) -> fmt::Result {
        write!(f, "refused {}", u32::from(*self))
    }
}

impl Error for AddError {}
