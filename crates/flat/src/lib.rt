// Rows of expressions without a call for each: most heads are plain, at most one word and then their parts, so that these can be counted
// with the row that the head stands in. A position is a word's number.
#![tactic(auto)]

mod code;

ghost use Rattle.std.specs.Prelude.{◌≡◌, ℕ, ◌<◌, ◌≤◌, length, drop};
ghost use Rattle.heads.specs.Answer.{Reads, words_of};
ghost use Rattle.expr.specs.Read.{reader_of, no_more, times};
ghost use Rattle.flat.specs.Plain.{PlainAt};
ghost use Rattle.flat.specs.Skim.{Skims};

use code::Code;
use heads::Section;
use refusal::Refusal;
use words::{count, word};

// A row that is read flat has no more expressions than this.
const MAX_ROW: usize = 8192;

// Any other head at `at`, read whole: where expressions follow it and nothing else, where they begin and how many there are.
fn read_other(section: &Section, at: usize) -> Result<Option<(usize, usize)>, Refusal>
    requires { at ≤ length (words_of section.now) }
    ensures { PlainAt (words_of section.now) section.now.names at result }
{
    let (form, at) = section.read_form(at)?;
    if form.has_pattern() {
        return Ok(None);
    }
    if form.items() == 0 {
        return Ok(Some((at, form.kids())));
    }
    Ok(None)
}

// A head at `at` after which expressions follow and nothing else, with the ranges of its words: where they begin and how many there are.
fn read_plain(section: &Section, at: usize) -> Result<Option<(usize, usize)>, Refusal>
    requires { at ≤ length (words_of section.now) }
    ensures { PlainAt (words_of section.now) section.now.names at result }
{
    let Some(code) = Code::plain(word(section.bytes, at)) else {
        return read_other(section, at);
    };
    let p = at + 1;
    let a = word(section.bytes, p);
    let q = p + code.words();
    if count(section.bytes) < q {
        return Err(Refusal::Word);
    }
    if code.is_out(section.names, a) {
        return Err(Refusal::Word);
    }
    Ok(Some((q, code.parts(a))))
}

// n expressions in a row, with the parts of plain heads counted with them: room falls with each head that has parts, so that it is too
// small rather than too large, and Depth says only that it ran out.
fn skim(section: &Section, at: usize, room: u32, n: usize) -> Result<usize, Refusal>
    requires { at ≤ length (words_of section.now) }
    ensures { Skims (words_of section.now) at (times n (reader_of section.now room) no_more) result }
{
    let mut p = at;
    let mut left = n;
    let mut d = room;
    // A `while`: the row grows while it is read, so how many turns are left is not known before.
    while 0 < left {
        if d == 0 || MAX_ROW < left {
            return Err(Refusal::Depth);
        }
        match read_plain(section, p)? {
            Some((q, m)) => {
                p = q;
                left = left - 1 + m;
                if 0 < m {
                    d -= 1;
                }
            }
            None => {
                p = expr::read_expr(section, p, d)?;
                left -= 1;
            }
        }
    }
    Ok(p)
}

// n expressions in a row, as expr's: flat where that tells.
pub fn read_kids(section: &Section, at: usize, room: u32, n: usize) -> Result<usize, Refusal>
    requires { at ≤ length (words_of section.now) }
    ensures { Reads (words_of section.now) at (times n (reader_of section.now room) no_more) result }
{
    let told = skim(section, at, room, n);
    if told == Err(Refusal::Depth) {
        return expr::read_kids(section, at, room, n);
    }
    told
}

// An expression, as expr's: a row of one.
pub fn read_expr(section: &Section, at: usize, room: u32) -> Result<usize, Refusal>
    requires { at ≤ length (words_of section.now) }
    ensures { Reads (words_of section.now) at (reader_of section.now room) result }
{
    read_kids(section, at, room, 1)
}
