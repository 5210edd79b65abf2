// The codes of heads, by bits of numbers as the definition's tables have them.
ghost use Rattle.std.specs.Prelude.{◌≡◌, true, false, ◌<◌};
ghost use Rattle.std.specs.Option.{MatchOption};
ghost use Rattle.flat.specs.Plain.{plain_codes, word_codes, bit_of, has, counted, parts_of, is_out};

// By code, a bit each: whether a head is plain, whether a word follows, whether that word is the number of the
// parts or adds to it, whether it is a name, whether it is below 2.
const PLAIN: u32 = 0x2adf7fe;

const WORDS: u32 = 0xa1f380;

const COUNTED: u32 = 0xa07000;

const NAMED: u32 = 0x300;

const FLAGGED: u32 = 0xa10000;

// By code, two bits each: how many parts there are without that word.
const PARTS: u64 = 0x489180240000;

// How many operators BinOp has.
const OPERATORS: u32 = 20;

// A code that a table has.
#[derive(Clone, Copy)]
pub struct Code {
    pub number: u32,
    pub ghost known: { number < 26 },
}

impl Code {
    // Its bit in a table.
    fn bit(self, table: u32) -> u32
        ensures { result ≡ bit_of table self.number }
    {
        (table >> self.number) % 2
    }

    // The code with the number, where a table has it.
    fn of(table: u32, number: u32) -> Option<Code>
        ensures { MatchOption result (has table number ≡ false) (λ code. (code.number ≡ number) × (has table number ≡ true)) }
    {
        if number < 26 {
            let code = Code { number };
            if code.bit(table) == 1 {
                return Some(code);
            }
        }
        None
    }

    // The code of a plain head.
    pub fn plain(number: u32) -> Option<Code>
        ensures { MatchOption result (has plain_codes number ≡ false) (λ code. (code.number ≡ number) × (has plain_codes number ≡ true)) }
    {
        Code::of(PLAIN, number)
    }

    // How many words follow it.
    pub fn words(self) -> usize
        ensures { result ≡ bit_of word_codes self.number }
    {
        self.bit(WORDS) as usize
    }

    // The word after it, where it counts parts; else 0.
    fn counted(self, a: u32) -> usize
        ensures { result ≡ counted self.number a }
    {
        if self.bit(COUNTED) == 1 {
            a as usize
        } else {
            0
        }
    }

    // How many parts follow a plain head, of which a is the word after the code.
    pub fn parts(self, a: u32) -> usize
        ensures { result ≡ parts_of self.number a }
    {
        ((PARTS >> (self.number * 2)) % 4) as usize + self.counted(a)
    }

    // Whether the word after a plain head's code is out of range: a name that the table has not, a flag above 1, no operator.
    pub fn is_out(self, names: u32, a: u32) -> bool
        ensures { result ≡ is_out self.number names a }
    {
        let n = (self.bit(NAMED) == 1) & (names <= a);
        let f = (self.bit(FLAGGED) == 1) & (2 <= a);
        let o = (self.number == 15) & (OPERATORS <= a);
        n | (f | o)
    }
}
