// The heads of expressions and of a pattern's parts and elements, read in place: what a word must be, and which words belong to a
// head. A section is a part of a sheet that ends where its words do; a position in it is a word's number. What reads takes a position and
// answers what it read and the next position, each within the words, and shares no cursor: after a refusal there is no next one, and readers in a row are a row of
// `let (x, at)`.
#![tactic(auto, using(crate::proofs::Reading::steps), unfolding(crate::proofs::Reading::readers))]

mod item;

ghost use Rattle.std.specs.Prelude.{◌≡◌, Bool, ℕ, ◌+◌, ◌<◌, ◌≤◌, length, drop};
ghost use Rattle.words.specs.Words.{words};
ghost use Rattle.refusal.specs.Number.{number_of};
ghost use Rattle.heads.specs.Got.{word_in, any_word, flag};
ghost use Rattle.heads.specs.Form.{shape_of, limit_of, form_none, form_one, case_rest, comp_rest, rest_of, read_form, kids_of, items_of, has_pattern};
ghost use Rattle.heads.specs.Head.{read_maybe, read_part, read_elem, mark_low, mark_high, mark_kids, deep_cause};
ghost use Rattle.heads.specs.Answer.{Takes, one_on, longer, words_of, is_in, row_ids, kind_of};

pub use item::{Item, counted, read_many};
use refusal::Refusal;
use words::{count, word};

// The head of an expression, as the definition's tree: its numbers are those that were read, and any number may stand there.
#[derive(Clone, Copy)]
pub enum Form {
    Leaf(u32),
    Var(u32),
    Unresolved(u32),
    Prop(u32),
    Two(u32),
    Slice(u32),
    Many(u32, u32),
    BinOp(u32),
    UnaryOp(u32),
    Case(u32, u32),
    IsNull,
    PatternPredicate,
    ListComprehension(u32),
    PatternComprehension(u32, u32, u32),
    ListPredicate(u32),
    MapProjection(u32),
}

// A part of a pattern: its path variable, and how many elements it has; in the tree of the definition any number may stand there.
#[derive(Clone, Copy)]
pub struct Part {
    pub path: Option<u32>,
    pub count: u32,
}

// An element of a pattern: 1 Node or 2 Rel, its span, its variable, and 1 where a property expression follows. Kind and property stay
// numbers: contracts use it as the definition's tree itself, in which any number may stand.
#[derive(Clone, Copy)]
pub struct Elem {
    pub kind: u32,
    pub start: u32,
    pub end: u32,
    pub variable: Option<u32>,
    pub property: u32,
}

// A section, how many names the sheet has, and the word from which on its bindings stand.
#[derive(Clone, Copy)]
pub struct Section<'a> {
    pub bytes: &'a [u8],
    pub names: u32,
    pub rows: usize,
}

// By code: 1 where no word follows, 2 where one does, 3 Case, 4 PatternComprehension, 0 no code. They are numbers, as the definition's table has
// them.
const SHAPE: [u8; 26] = [
    0, 1, 1, 1, 1, 1, 1, 2, 2, 2, 1, 2, 2, 2, 2, 2, 2, 3, 1, 1, 1, 2, 4, 2, 2, 1,
];

// By code: the limit of the one word that follows; of a name it is the number of names.
const LIMIT: [u64; 26] = [
    0, 0, 0, 0, 0, 0, 0, 4294967296, 0, 0, 0, 4, 4294967296, 4294967296, 4294967296, 20, 2, 0, 0,
    0, 0, 2, 0, 2, 4294967296, 0,
];

#[tactic(auto, unfolding(crate::specs::Form::shape_of))]
pub fn shape_of(code: u32) -> u8
    ensures { result ≡ shape_of code }
{
    SHAPE.get(code as usize).copied().unwrap_or(0)
}

#[tactic(auto, using(crate::proofs::Reading::tests), unfolding(crate::specs::Form::limit_of))]
pub fn limit_of(code: u32, names: u32) -> u64
    ensures { result ≡ limit_of names code }
{
    if code == 8 {
        return names as u64;
    }
    if code == 9 {
        return names as u64;
    }
    LIMIT.get(code as usize).copied().unwrap_or(0)
}

// The head with the code and no word after it.
#[tactic(auto, using(crate::proofs::Reading::tests), unfolding(crate::specs::Form::form_none))]
pub fn form_none(code: u32) -> Form
    ensures { result ≡ form_none code }
{
    match code {
        10 => Form::Two(10),
        18 => Form::IsNull,
        19 => Form::Two(19),
        20 => Form::PatternPredicate,
        _ => Form::Leaf(code),
    }
}

// The head with the code and the word a after it.
#[tactic(auto, using(crate::proofs::Reading::tests), unfolding(crate::specs::Form::form_one))]
pub fn form_one(code: u32, a: u32) -> Form
    ensures { result ≡ form_one code a }
{
    match code {
        7 => Form::Var(a),
        8 => Form::Unresolved(a),
        9 => Form::Prop(a),
        11 => Form::Slice(a),
        15 => Form::BinOp(a),
        16 => Form::UnaryOp(a),
        21 => Form::ListComprehension(a),
        23 => Form::ListPredicate(a),
        24 => Form::MapProjection(a),
        _ => Form::Many(code, a),
    }
}

impl Section<'_> {
    // The word at `at`, if it is there, at least lo and below hi.
    #[tactic(auto, using(crate::proofs::Reading::from_there), unfolding(crate::specs::Got::word_in))]
    pub fn word_in(&self, at: usize, lo: u32, hi: u64) -> Result<(u32, usize), Refusal>
        requires { at ≤ length (words_of self.now) }
        ensures one { one_on at result }
        ensures takes { Takes (words_of self.now) at (word_in lo hi) result }
    {
        if at < count(self.bytes) {
            let w = word(self.bytes, at);
            if lo <= w && (w as u64) < hi {
                return Ok((w, at + 1));
            }
        }
        Err(Refusal::Word)
    }

    // Any word. A span is any word and then one no less, at each place: with one reader for both, the search finds no proof of a binding's.
    pub fn any_word(&self, at: usize) -> Result<(u32, usize), Refusal>
        requires { at ≤ length (words_of self.now) }
        ensures one { one_on at result }
        ensures takes { Takes (words_of self.now) at any_word result }
    {
        self.word_in(at, 0, 4294967296)
    }

    // 0 or 1.
    pub fn flag(&self, at: usize) -> Result<(u32, usize), Refusal>
        requires { at ≤ length (words_of self.now) }
        ensures { Takes (words_of self.now) at flag result }
    {
        self.word_in(at, 0, 2)
    }

    // What follows Case: bits and the number of its pairs.
    fn read_case(&self, at: usize) -> Result<(Form, usize), Refusal>
        requires { at ≤ length (words_of self.now) }
        ensures { Takes (words_of self.now) at case_rest result }
    {
        let (bits, at) = self.word_in(at, 0, 4)?;
        let (pairs, at) = self.any_word(at)?;
        Ok((Form::Case(bits, pairs), at))
    }

    // What follows PatternComprehension: a span and a flag.
    fn read_comp(&self, at: usize) -> Result<(Form, usize), Refusal>
        requires { at ≤ length (words_of self.now) }
        ensures { Takes (words_of self.now) at comp_rest result }
    {
        let (from, at) = self.any_word(at)?;
        let (to, at) = self.word_in(at, from, 4294967296)?;
        let (filtered, at) = self.flag(at)?;
        Ok((Form::PatternComprehension(from, to, filtered), at))
    }

    // What follows a code.
    #[tactic(auto, using(crate::proofs::Reading::steps, crate::proofs::Reading::tests), unfolding(crate::specs::Form::rest_of))]
    fn read_rest(&self, code: u32, at: usize) -> Result<(Form, usize), Refusal>
        requires { at ≤ length (words_of self.now) }
        ensures { Takes (words_of self.now) at (rest_of self.now.names code) result }
    {
        match shape_of(code) {
            1 => Ok((form_none(code), at)),
            2 => {
                let (a, at) = self.word_in(at, 0, limit_of(code, self.names))?;
                Ok((form_one(code, a), at))
            }
            3 => self.read_case(at),
            4 => self.read_comp(at),
            _ => Err(Refusal::Word),
        }
    }

    // The head of an expression.
    pub fn read_form(&self, at: usize) -> Result<(Form, usize), Refusal>
        requires { at ≤ length (words_of self.now) }
        ensures longer { longer at result }
        ensures takes { Takes (words_of self.now) at (read_form self.now.names) result }
    {
        let (code, at) = self.any_word(at)?;
        self.read_rest(code, at)
    }

    // A flag, and a variable if it is 1.
    pub fn read_maybe(&self, at: usize) -> Result<(Option<u32>, usize), Refusal>
        requires { at ≤ length (words_of self.now) }
        ensures { Takes (words_of self.now) at read_maybe result }
    {
        let (g, at) = self.flag(at)?;
        if g == 1 {
            let (v, at) = self.any_word(at)?;
            Ok((Some(v), at))
        } else {
            Ok((None, at))
        }
    }

    // The head of a part of a pattern.
    pub fn read_part(&self, at: usize) -> Result<(Part, usize), Refusal>
        requires { at ≤ length (words_of self.now) }
        ensures { Takes (words_of self.now) at read_part result }
    {
        let (path, at) = self.read_maybe(at)?;
        let (count, at) = self.any_word(at)?;
        Ok((Part { path, count }, at))
    }

    // The head of an element of a pattern.
    pub fn read_elem(&self, at: usize) -> Result<(Elem, usize), Refusal>
        requires { at ≤ length (words_of self.now) }
        ensures { Takes (words_of self.now) at read_elem result }
    {
        let (kind, at) = self.word_in(at, 1, 3)?;
        let (start, at) = self.any_word(at)?;
        let (end, at) = self.word_in(at, start, 4294967296)?;
        let (variable, at) = self.read_maybe(at)?;
        let (property, at) = self.flag(at)?;
        let elem = Elem {
            kind,
            start,
            end,
            variable,
            property,
        };
        Ok((elem, at))
    }

    // Whether one of the first n bindings has the variable v. A loop: tried `step_by(5)`, `take(n)` and `any`, which promise the runs of one another,
    // and the proof didn't close.
    pub fn has_row(&self, n: usize, v: u32) -> bool
        ensures { result ≡ is_in v (row_ids n (drop self.now.rows (words_of self.now))) }
    {
        let mut at = self.rows;
        for i in 0..n {
            if count(self.bytes) <= at {
                return false;
            }
            if word(self.bytes, at) == v {
                return true;
            }
            at += 5;
        }
        false
    }

    // The refusal where no room is left: a word there is too deep, and a missing one is missing.
    #[tactic(auto, using(crate::proofs::Reading::from_there), unfolding(crate::specs::Head::deep_cause))]
    pub fn too_deep(&self, at: usize) -> Refusal
        ensures { number_of result ≡ deep_cause (drop at (words_of self.now)) }
    {
        if at < count(self.bytes) {
            Refusal::Depth
        } else {
            Refusal::Word
        }
    }
}

impl Form {
    // How many expressions stand in the head's own list.
    pub fn kids(self) -> usize
        ensures { result ≡ kids_of self }
    {
        match self {
            Form::Many(_, n) => n as usize,
            Form::Prop(_) | Form::UnaryOp(_) | Form::IsNull | Form::MapProjection(_) => 1,
            Form::Two(_) | Form::BinOp(_) => 2,
            Form::Slice(bits) => 1 + (bits % 2) as usize + (bits / 2) as usize,
            Form::Case(bits, n) => (n as usize) * 2 + (bits % 2) as usize + (bits / 2) as usize,
            Form::ListComprehension(g) => 2 + g as usize,
            Form::PatternComprehension(_, _, g) | Form::ListPredicate(g) => 1 + g as usize,
            Form::Leaf(_) | Form::Var(_) | Form::Unresolved(_) | Form::PatternPredicate => 0,
        }
    }

    // How many items follow these.
    pub fn items(self) -> u32
        ensures { result ≡ items_of self }
    {
        match self {
            Form::MapProjection(n) => n,
            _ => 0,
        }
    }

    // Whether a pattern stands between the head and its expressions.
    pub fn has_pattern(self) -> bool
        ensures { result ≡ has_pattern self }
    {
        matches!(
            self,
            Form::PatternPredicate | Form::PatternComprehension(_, _, _)
        )
    }
}

// What a row of marks is of: a MapProjection's items, a Set's or a Remove's. A mark is a word, and expressions follow it.
#[derive(Clone, Copy)]
pub enum MarkKind {
    Item,
    Set,
    Remove,
}

impl MarkKind {
    // The least that a mark may be.
    pub fn low(self) -> u32
        ensures { result ≡ mark_low (kind_of self) }
    {
        match self {
            MarkKind::Item => 0,
            _ => 1,
        }
    }

    // What a mark is below.
    pub fn high(self) -> u64
        ensures { result ≡ mark_high (kind_of self) }
    {
        match self {
            MarkKind::Item => 2,
            MarkKind::Set => 4,
            MarkKind::Remove => 3,
        }
    }

    // How many expressions follow the mark w.
    pub fn kids(self, w: u32) -> usize
        ensures { result ≡ mark_kids (kind_of self) w }
    {
        match (self, w) {
            (MarkKind::Item, _) => w as usize,
            (MarkKind::Set, 1) => 2,
            (MarkKind::Set, 2) => 0,
            (MarkKind::Set, _) => 1,
            (MarkKind::Remove, 1) => 1,
            (MarkKind::Remove, _) => 0,
        }
    }
}
