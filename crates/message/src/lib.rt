// The message call: the text of a finding at the front of lent bytes, or a refusal (1 to 3, 9, 10), which alters none of them. A host may ask
// with any numbers.
#![tactic(auto)]

mod pushes;

ghost use Rattle.std.specs.Prelude.{◌≡◌, cond, eqb};
ghost use Rattle.refusal.specs.Number.{number_of};
ghost use Rattle.texts.specs.Codes.{text_for};
ghost use Rattle.texts.specs.Page.{Writes};
ghost use Rattle.message.specs.Message.{starred, Cites, is_cited, text_in, text_if, message};

use pushes::push_of;
use refusal::Refusal;
use sheet::text_at;
use tables::VarName;
use texts::{text_for, text_len, write_text};

// The mark of a generated name, and the code of the one finding that can have such a name.
const GENERATED: u32 = 1;

const SHADOWS: u32 = 1002;

// A name that is cited and that the table has not is no question that can be asked.
fn cited(refusal: Refusal) -> Refusal
    ensures { number_of result ≡ cond (eqb (number_of refusal) 5) 9 (number_of refusal) }
{
    match refusal {
        Refusal::Word => Refusal::Asked,
        other => other,
    }
}

// The text of the name that is cited as its index + 1, or none for 0: there, that the table has no name is no cause.
fn find_text(s: &[u8], name: u32) -> Result<Option<&[u8]>, Refusal>
    ensures { Cites s.now name result }
{
    match name.checked_sub(1) {
        Some(i) => text_at(s, i).map(Some).map_err(cited),
        // Two matches: a nested pattern `Err(Refusal::Word)` tells the next arm nothing.
        None => match text_at(s, 0) {
            Ok(_) => Ok(None),
            Err(refusal) => match refusal {
                Refusal::Word => Ok(None),
                other => Err(other),
            },
        },
    }
}

// Whether E1001 is said of the name `*`.
fn is_starred(code: u32, x: &[u8]) -> bool
    ensures { result ≡ starred code x.now }
{
    (code == 1001) & (x == b"*".as_slice())
}

// What a message is asked for: a finding's code, its name's index + 1 or 0, its two details, and the name's mark; with the mark 1 the name is the
// id of a variable.
#[derive(Clone, Copy, Debug, PartialEq, Eq)]
pub struct Question {
    pub code: u32,
    pub name: u32,
    pub one: u32,
    pub two: u32,
    pub mark: u32,
}

// The text of a finding, and of a name if one is cited, into the page.
fn say(a: Question, name: Option<&[u8]>, page: &mut [u8]) -> Result<usize, Refusal>
    ensures { Writes (text_if (text_for a.code a.one) (is_cited name.entry) a.code (text_in name.entry) a.two) page.old page.new result }
{
    let Some(text) = text_for(a.code, a.one) else {
        return Err(Refusal::Asked);
    };
    if !push_of(text).allows(name.is_some(), a.two) {
        return Err(Refusal::Asked);
    }
    let x = name.unwrap_or_default();
    if is_starred(a.code, x) {
        return Err(Refusal::Asked);
    }
    if page.len() < text_len(text, x, a.two) {
        return Err(Refusal::Page);
    }
    Ok(write_text(text, x, a.two, page))
}

// The message of a finding.
pub fn message(s: &[u8], a: Question, page: &mut [u8]) -> Result<usize, Refusal>
    ensures { Writes (message s.now a.code a.name a.one a.two a.mark) page.old page.new result }
{
    if a.mark == 0 {
        let text = find_text(s, a.name)?;
        return say(a, text, page);
    }
    find_text(s, 0)?;
    if a.mark != GENERATED || a.code != SHADOWS {
        return Err(Refusal::Asked);
    }
    let name = VarName::new(a.name);
    say(a, Some(name.text()), page)
}
