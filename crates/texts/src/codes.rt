// Which text a code and a detail one stand for: any numbers, since a list's words may be no finding's.
ghost use Rattle.std.specs.Prelude.{◌≡◌};
ghost use Rattle.texts.specs.Codes.{text_for};

use crate::Text;

// None where no push has that code and detail.
#[tactic(auto, unfolding(crate::specs::Codes::text_for, crate::specs::Codes::of2007, crate::specs::Codes::of2008, crate::specs::Codes::of5010, crate::specs::Codes::unused))]
pub fn text_for(code: u32, one: u32) -> Option<Text>
    ensures { result ≡ text_for code one }
{
    match (code, one) {
        (1001, 0) => Some(Text::Unresolved),
        (1002, 0) => Some(Text::Shadows),
        (2007, 1) => Some(Text::Arithmetic),
        (2007, 2) => Some(Text::PropAccess),
        (2008, 1) => Some(Text::PathBinder),
        (2008, 2) => Some(Text::NodePosition),
        (2008, 3) => Some(Text::RelPosition),
        (2011, 0) => Some(Text::BoolPredicate),
        (5010, 1) => Some(Text::Index),
        (5010, 2) => Some(Text::Slice),
        (5010, 3) => Some(Text::IterateOver),
        (5011, 0) => Some(Text::ListIterable),
        _ => None,
    }
}
