// The last token of a text. Signs have their blanks with them, so that tokens stand one after the other.
#![tactic(auto)]

ghost use Rattle.std.specs.Prelude.{◌≡◌, ◌<◌, length, reverse, IfSome};
ghost use Rattle.condition.specs.Cond.{unary_sign};
ghost use Rattle.condition.specs.Tokens.{is_end, is_digit, after_operand, first_sign, minus, strip, sign_last, number_end, number_last, last};
ghost use Rattle.condition_lexer.specs.Seen.{before_of, tok_of, last_of};
ghost use Rattle.condition.proofs.Sound.{WellTok};

use condition::{MINUS, NOT, binary_sign, unary_sign};
use words::decimal_width;

// A bracket, an atom by its number, or an operator's sign by the operator's number.
#[derive(Clone, Copy, Debug, PartialEq, Eq)]
pub enum Token {
    Open,
    Close,
    Atom(u32),
    Unary(usize),
    Binary(usize),
}

// What stands before a sign, if the text ends with it. All signs end in a blank, and the byte before it tells most from the text's end.
fn before_sign<'a>(text: &'a [u8], sign: &[u8]) -> Option<&'a [u8]>
    ensures { strip (reverse sign.now) (reverse text.now) ≡ before_of result }
{
    let [.., byte, _] = text else {
        return text.strip_suffix(sign);
    };
    let [.., last, _] = sign else {
        return text.strip_suffix(sign);
    };
    if *byte != *last {
        return None;
    }
    text.strip_suffix(sign)
}

// Whether a text ends with an operand and a blank. An operand ends with a digit or a bracket.
#[tactic(auto, using(crate::proofs::Ends::after_none, crate::proofs::Ends::after_two))]
fn after_operand(text: &[u8]) -> bool
    ensures { result ≡ after_operand (reverse text.now) }
{
    let [.., end, blank] = text else {
        return false;
    };
    *blank == b' ' && (*end == b')' || end.is_ascii_digit())
}

// The binary sign at the end. The loop turns as the definition does; what `find_map` promises would take an induction to it.
#[tactic(auto, using(crate::proofs::Ends::sign_turn, crate::proofs::Ends::sign_stop))]
fn last_binary(text: &[u8]) -> Option<(Token, &[u8])>
    ensures { first_sign 20 0 (reverse text.now) ≡ last_of result }
{
    for operator in 0..20 {
        if let Some(rest) = before_sign(text, binary_sign(operator)) {
            return Some((Token::Binary(operator), rest));
        }
    }
    None
}

// The same, or a minus that doesn't stand after an operand, which is unary.
fn last_minus(text: &[u8]) -> Option<(Token, &[u8])>
    ensures { minus (strip (reverse (unary_sign 0)) (reverse text.now)) (first_sign 20 0 (reverse text.now)) ≡ last_of result }
{
    match before_sign(text, unary_sign(MINUS)) {
        Some(rest) if !after_operand(rest) => Some((Token::Unary(MINUS), rest)),
        _ => last_binary(text),
    }
}

// The sign at the end.
#[tactic(auto, unfolding(condition::specs::Tokens::sign_last))]
fn last_sign(text: &[u8]) -> Option<(Token, &[u8])>
    ensures { sign_last (reverse text.now) ≡ last_of result }
{
    match before_sign(text, unary_sign(NOT)) {
        Some(rest) => Some((Token::Unary(NOT), rest)),
        None => last_minus(text),
    }
}

// The atom whose digits, which are cut off, have this value. Its letter stands before them.
#[tactic(auto, using(crate::proofs::Ends::end_none, crate::proofs::Ends::end_one))]
fn number_end(text: &[u8], value: u32, digits: usize) -> Option<(Token, &[u8])>
    ensures { number_end value digits (reverse text.now) ≡ last_of result }
{
    let [rest @ .., letter] = text else {
        return None;
    };
    if *letter == b'e' && decimal_width(value) == digits && value < 2048 {
        return Some((Token::Atom(value), rest));
    }
    None
}

// The atom at the end. A loop: each digit counts ten times the one after it, and the text before it is what is left.
#[tactic(auto, using(crate::proofs::Ends::digits_none, crate::proofs::Ends::digits_turn, crate::proofs::Ends::digits_stop))]
fn last_atom(text: &[u8]) -> Option<(Token, &[u8])>
    ensures { number_last 4 0 1 0 (reverse text.now) ≡ last_of result }
{
    let mut rest = text;
    let mut value: u32 = 0;
    let mut scale: u32 = 1;
    for digits in 0..4 {
        let [front @ .., digit] = rest else {
            return None;
        };
        if !digit.is_ascii_digit() {
            return number_end(rest, value, digits);
        }
        value += ((*digit - b'0') as u32) * scale;
        scale *= 10;
        rest = front;
    }
    number_end(rest, value, 4)
}

// The last token and what stands before it, which is shorter. None is an empty text's, or where no token ends the text. In line where it is
// called, since most tokens are brackets and atoms.
#[inline(always)]
#[tactic(auto, using(crate::proofs::Ends::last_none, crate::proofs::Ends::last_one))]
pub fn last_token(text: &[u8]) -> Option<(Token, &[u8])>
    ensures found { last (reverse text.now) ≡ last_of result }
    ensures shorter { IfSome result (λ l. length l.1.now < length text.now) }
    ensures known { IfSome result (λ l. WellTok (tok_of l.0)) }
{
    let [rest @ .., byte] = text else {
        return None;
    };
    match *byte {
        b'(' => Some((Token::Open, rest)),
        b')' => Some((Token::Close, rest)),
        b' ' => last_sign(text),
        _ => last_atom(text),
    }
}
