// Whether a text reads, without a stack: operands and operators alternate, brackets match, NOT stands where its level may, and no two
// comparisons stand in one row of brackets without OR, XOR or AND between them.
ghost use Rattle.condition_reader.specs.Pass.{Judges};

use crate::window::Window;
use condition::{Mode, binary_level};
use condition_lexer::{Token, last_token};

// The number of entries of a text that reads, and its deepest level of brackets.
#[derive(Clone, Copy, Debug, PartialEq, Eq)]
pub struct Judged {
    pub entries: usize,
    pub deepest: usize,
}

// Whether a text reads, as far as the levels from `low` on go that one pass looks at. Its deepest level is `low` at least.
pub fn judge(text: &[u8], low: usize) -> Option<Judged>
    ensures { Judges text.now low result }
{
    let mut window = Window::new(low);
    let mut mode = Mode::Wanted;
    let mut depth: usize = 0;
    let mut deepest = low;
    let mut entries: usize = 0;
    let mut rest = text;
    // Token by token from the end: each turn says where the next begins.
    while !rest.is_empty() {
        let (token, before) = last_token(rest)?;
        rest = before;
        match token {
            Token::Open => {
                if !mode.is_there() || depth == 0 {
                    return None;
                }
                depth -= 1;
                mode = Mode::There;
            }
            Token::Close => {
                if !mode.is_wanted() {
                    return None;
                }
                depth += 1;
                window.mark(depth, false);
                deepest = deepest.max(depth);
            }
            Token::Atom(_) => {
                if !mode.is_wanted() {
                    return None;
                }
                mode = Mode::There;
                entries += 1;
            }
            Token::Unary(operator) => {
                mode = mode.before_unary(operator);
                if !mode.is_there() {
                    return None;
                }
                entries += 1;
            }
            Token::Binary(operator) => {
                let level = binary_level(operator);
                if !mode.may_join(level) || window.chains(depth, level) {
                    return None;
                }
                window.pass(depth, level);
                mode = Mode::Wanted;
                entries += 1;
            }
        }
    }
    (mode.is_there() && depth == 0).then_some(Judged { entries, deepest })
}
