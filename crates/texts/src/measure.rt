// How long a text is, before it is written. A number is the length of a text's fixed pieces, added up by hand: the pieces are literals in write_text,
// laid inline, and a table of them for both would hand `lay` a slice of any length. The contract holds the numbers to the texts.
ghost use Rattle.std.specs.Prelude.{◌≡◌, length};
ghost use Rattle.texts.specs.Texts.{text_of};

use crate::Text;
use crate::pieces::{kind_name, type_name};

// The length of the text that a push gives, for the name x and detail two.
#[tactic(auto, using(crate::proofs::Short::kind_short), unfolding(crate::specs::Texts::text_of))]
pub fn text_len(text: Text, x: &[u8], two: u32) -> usize
    ensures { result ≡ length (text_of text x.now two) }
{
    match text {
        Text::Unresolved => 22 + x.len(),
        Text::Shadows => 38 + x.len(),
        Text::Arithmetic => 102 + x.len() + kind_name(two).len(),
        Text::PropAccess => 132 + x.len(),
        Text::PathBinder => 64 + x.len() + kind_name(two).len(),
        Text::NodePosition => 74 + x.len() + kind_name(two).len(),
        Text::RelPosition => 90 + x.len() + kind_name(two).len(),
        Text::Index => 92 + type_name(two).len(),
        Text::Slice => 92 + type_name(two).len(),
        Text::IterateOver => 99 + type_name(two).len(),
        Text::ListIterable => 99 + type_name(two).len(),
        Text::BoolPredicate => 68 + type_name(two).len(),
    }
}
