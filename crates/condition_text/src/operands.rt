// An expression that was accepted: where it ends.
ghost use Rattle.heads.specs.Answer.{words_of};
ghost use Rattle.condition_text.specs.Skip.{Accepted, Skips};

use flat::read_expr;
use heads::Section;

pub fn skip(section: &Section, at: usize, room: u32) -> usize
    requires { Accepted (words_of section.now) section.now.names room at }
    ensures { Skips (words_of section.now) section.now.names room at result }
{
    read_expr(section, at, room).unwrap()
}
