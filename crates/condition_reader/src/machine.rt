// The machine that writes the entries of a text that reads, from the last to the first. Operators that wait for their left operand stand at
// the front of its list, each as its rank and its number: a rank is ten for each level of brackets, and the operator's level + 1. They and the
// entries share the one lent list, two words each, from its two ends.
ghost use Rattle.std.specs.Prelude.{◌+◌, ◌*◌, ◌^◌, ◌<◌, ◌≤◌, length};

use condition::{BINARY, UNARY, binary_level, unary_level};
use condition_lexer::Token;

// The code of an atom's entry. In a sheet's words none says so, as BINARY and UNARY do: it stands here alone.
const ATOM: u64 = 0;

// How many operators wait, at which word the entries begin, and how deep in brackets the text stands that is left.
#[derive(Drop)]
pub struct Machine<'a> {
    list: &'a mut [u64],
    waiting: usize,
    first: usize,
    depth: u64,
    ghost apart: { waiting * 2 ≤ first },
    ghost within: { first ≤ length list.now },
    ghost ranked: { depth * 10 + 10 < 2 ^ 64 },
}

impl<'a> Machine<'a> {
    ghost use Rattle.std.specs.Prelude.{◌≡◌};
    ghost use Rattle.condition.specs.Tokens.{open', un, bin};
    ghost use Rattle.condition.specs.Machine.{rank_of, weight};
    ghost use Rattle.condition_lexer.specs.Seen.{tok_of};
    ghost use Rattle.condition_reader.specs.Fill.{HasRoom, Starts, Written, Unwound, Turned};

    // A machine over a list, with room for so many entries.
    pub fn new(list: &'a mut [u64], entries: usize) -> Machine<'a>
        requires { entries * 2 ≤ length list.old }
        ensures lent { result.list.ghost_name ≡ list.entry.ghost_name }
        ensures starts { Starts list.old entries result }
    {
        let first = entries * 2;
        Machine {
            list,
            waiting: 0,
            first,
            depth: 0,
        }
    }

    // An entry before the others. (Room is asked for, and is no invariant: it falls with each entry.)
    fn write(&mut self, kind: u64, operand: u64)
        requires { HasRoom 1 self.old }
        ensures { Written kind operand self.old self.new }
    {
        self.first -= 2;
        self.list[self.first] = kind;
        self.list[self.first + 1] = operand;
    }

    fn rank(&self, level: usize) -> u64
        requires { level < 10 }
        ensures { result ≡ rank_of self.now.depth level }
    {
        self.depth * 10 + level as u64 + 1
    }

    // Writes the waiting operators of a rank above the limit, the last first.
    pub fn unwind(&mut self, limit: u64)
        ensures { Unwound limit self.old self.new }
    {
        // As long as one waits: each turn says where the next begins.
        while self.waiting > 0 && self.list[self.waiting * 2 - 2] > limit {
            let operator = self.list[self.waiting * 2 - 1];
            self.waiting -= 1;
            self.write(BINARY as u64, operator);
        }
    }

    // A bracket that opens: what waits within it is done.
    fn open(&mut self)
        ensures { Turned open' self.old self.new }
    {
        self.unwind(self.depth * 10);
        self.depth = self.depth.saturating_sub(1);
    }

    // A unary operator: its operand is done, and so is it.
    fn unary(&mut self, operator: usize)
        requires { HasRoom 1 self.old }
        ensures { Turned (un operator) self.old self.new }
    {
        self.unwind(self.rank(unary_level(operator)));
        self.write(UNARY as u64, operator as u64);
    }

    // A binary operator: its right operand is done, and it waits for its left one.
    fn binary(&mut self, operator: usize)
        requires { HasRoom 1 self.old }
        ensures { Turned (bin operator) self.old self.new }
    {
        let rank = self.rank(binary_level(operator));
        self.unwind(rank);
        self.list[self.waiting * 2] = rank;
        self.list[self.waiting * 2 + 1] = operator as u64;
        self.waiting += 1;
    }

    // Takes the last token of what is left of the text.
    pub fn take(&mut self, token: Token)
        requires room { HasRoom (weight (tok_of token)) self.old }
        requires ranked { self.old.depth * 10 + 20 < 2 ^ 64 }
        ensures { Turned (tok_of token) self.old self.new }
    {
        match token {
            Token::Open => self.open(),
            Token::Close => self.depth += 1,
            Token::Atom(place) => self.write(ATOM, place as u64),
            Token::Unary(operator) => self.unary(operator),
            Token::Binary(operator) => self.binary(operator),
        }
    }
}
