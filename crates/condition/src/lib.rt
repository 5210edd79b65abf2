// Conditions: the signs and levels of their operators, and what may stand before what in their text. An operator goes by its number, as in a
// sheet's words and in a reader's list.
#![tactic(auto)]

ghost use Rattle.std.specs.Prelude.{◌≡◌};
ghost use Rattle.condition.specs.Cond.{binary_level, unary_level, left_level, binary_sign, unary_sign};
ghost use Rattle.condition.specs.Judge.{is_wanted, is_there, unary_mode, may_join};

// The codes of a binary and a unary operator, in a sheet's words and in a reader's entries.
pub const BINARY: u32 = 15;

pub const UNARY: u32 = 16;

// The unary operators.
pub const MINUS: usize = 0;

pub const NOT: usize = 1;

// The levels of NOT and of comparisons.
pub const NOT_LEVEL: usize = 3;

pub const COMPARISON: usize = 4;

// What there is to say of a binary operator: its level, the least level of a bare left operand, and its sign with its blanks.
#[derive(Clone, Copy)]
struct Operator {
    level: usize,
    left: usize,
    sign: &'static [u8],
}

// By its number. This is a table, and no enum: an operator goes by its number in a sheet's words and in a reader's list. Past the last one a
// level is 0 and a sign empty.
const OPERATORS: [Operator; 20] = [
    Operator {
        level: 6,
        left: 6,
        sign: b" + ",
    },
    Operator {
        level: 6,
        left: 6,
        sign: b" - ",
    },
    Operator {
        level: 7,
        left: 7,
        sign: b" * ",
    },
    Operator {
        level: 7,
        left: 7,
        sign: b" / ",
    },
    Operator {
        level: 7,
        left: 7,
        sign: b" % ",
    },
    Operator {
        level: 8,
        left: 8,
        sign: b" ^ ",
    },
    Operator {
        level: 4,
        left: 5,
        sign: b" = ",
    },
    Operator {
        level: 4,
        left: 5,
        sign: b" <> ",
    },
    Operator {
        level: 4,
        left: 5,
        sign: b" < ",
    },
    Operator {
        level: 4,
        left: 5,
        sign: b" <= ",
    },
    Operator {
        level: 4,
        left: 5,
        sign: b" > ",
    },
    Operator {
        level: 4,
        left: 5,
        sign: b" >= ",
    },
    Operator {
        level: 2,
        left: 2,
        sign: b" AND ",
    },
    Operator {
        level: 0,
        left: 0,
        sign: b" OR ",
    },
    Operator {
        level: 1,
        left: 1,
        sign: b" XOR ",
    },
    Operator {
        level: 5,
        left: 5,
        sign: b" STARTS WITH ",
    },
    Operator {
        level: 5,
        left: 5,
        sign: b" ENDS WITH ",
    },
    Operator {
        level: 5,
        left: 5,
        sign: b" CONTAINS ",
    },
    Operator {
        level: 5,
        left: 5,
        sign: b" =~ ",
    },
    Operator {
        level: 6,
        left: 6,
        sign: b" || ",
    },
];

// The level of a binary operator, and of a unary one.
pub fn binary_level(operator: usize) -> usize
    ensures { result ≡ binary_level operator }
{
    OPERATORS.get(operator).map_or(0, |o| o.level)
}

pub fn unary_level(operator: usize) -> usize
    ensures { result ≡ unary_level operator }
{
    match operator {
        MINUS => 9,
        NOT => NOT_LEVEL,
        _ => 0,
    }
}

// The least level of a bare left operand.
pub fn left_level(operator: usize) -> usize
    ensures { result ≡ left_level operator }
{
    OPERATORS.get(operator).map_or(0, |o| o.left)
}

// The sign of a binary operator with its blanks, and of a unary one.
pub fn binary_sign(operator: usize) -> &'static [u8]
    ensures { result.now ≡ binary_sign operator }
{
    OPERATORS.get(operator).map_or(b"", |o| o.sign)
}

pub fn unary_sign(operator: usize) -> &'static [u8]
    ensures { result.now ≡ unary_sign operator }
{
    match operator {
        MINUS => b"- ",
        NOT => b"NOT ",
        _ => b"",
    }
}

// What stands to the right of a position: an operand is wanted; there is one; there is one that begins with NOT; or nothing can stand here.
#[derive(Clone, Copy, Debug, PartialEq, Eq)]
pub enum Mode {
    Wanted,
    There,
    Negated,
    Wrong,
}

impl Mode {
    // Whether an operand is wanted, or there is one.
    pub fn is_wanted(self) -> bool
        ensures { result ≡ is_wanted self }
    {
        matches!(self, Mode::Wanted)
    }

    pub fn is_there(self) -> bool
        ensures { result ≡ is_there self }
    {
        matches!(self, Mode::There | Mode::Negated)
    }

    // The mode before a unary operator.
    pub fn before_unary(self, operator: usize) -> Mode
        ensures { result ≡ unary_mode self operator }
    {
        match self {
            Mode::There if operator != NOT => Mode::There,
            Mode::There | Mode::Negated if operator == NOT => Mode::Negated,
            _ => Mode::Wrong,
        }
    }

    // Whether a binary operator of this level can stand before an operand.
    pub fn may_join(self, level: usize) -> bool
        ensures { result ≡ may_join self level }
    {
        match self {
            Mode::There => true,
            Mode::Negated => level < NOT_LEVEL,
            Mode::Wanted | Mode::Wrong => false,
        }
    }
}
