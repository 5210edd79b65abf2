// A condition printed over the sheet's words in place. It calls itself on each operand with its level, and the expression's length falls.
// A section and a position go as in crate heads, which says why.
ghost use Rattle.std.specs.Prelude.{length, drop};
ghost use Rattle.heads.specs.Answer.{words_of};
ghost use Rattle.expr.specs.Read.{reader_of};
ghost use Rattle.condition_text.specs.Tree.{PutExpr};
ghost use Rattle.condition_text.specs.Write.{Ready};

use crate::operands::skip;
use crate::page::Page;
use condition::{BINARY, UNARY, binary_level, binary_sign, left_level, unary_level, unary_sign};
use heads::Section;
use words::word;

// Writes the expression at `at` in a place whose bare operands have at least the level `least`, and answers where it ends.
pub fn print(section: &Section, at: usize, room: u32, least: usize, page: &mut Page<'_>) -> usize
    requires { Ready (reader_of section.now room (drop at (words_of section.now))) (words_of section.now) at page.old.end (length page.old.bytes.now) }
    ensures { PutExpr (words_of section.now) section.now.names room least at page.old page.new result }
{
    match word(section.bytes, at) {
        BINARY => {
            let operator = word(section.bytes, at + 1) as usize;
            let level = binary_level(operator);
            page.put_if(level < least, b"(");
            let middle = print(section, at + 2, room - 1, left_level(operator), page);
            page.put(binary_sign(operator));
            let next = print(section, middle, room - 1, level + 1, page);
            page.put_if(level < least, b")");
            next
        }
        UNARY => {
            let operator = word(section.bytes, at + 1) as usize;
            let own = unary_level(operator);
            page.put_if(own < least, b"(");
            page.put(unary_sign(operator));
            let next = print(section, at + 2, room - 1, own, page);
            page.put_if(own < least, b")");
            next
        }
        _ => {
            page.put_atom(at as u32);
            skip(section, at, room)
        }
    }
}
