// The trailer: where the sections of a sheet stand. Causes 1 and 2.
ghost use Rattle.std.specs.Prelude.{◌≡◌, Bool, true, ℕ, ◌+◌, ◌*◌, ◌≤◌, length};
ghost use Rattle.words.specs.Words.{words};
ghost use Rattle.sheet.specs.Trailer.{sized, in_place, places_of};
ghost use Rattle.sheet.specs.Read.{locate};
ghost use Rattle.sheet.specs.Answer.{sheet_of, Part};

use heads::Section;
use refusal::Refusal;
use words::{count, word};

// Where the sections of a sheet stand: how many names, bindings, clauses and arms there are; the first word of the bindings, the head,
// the arms and the trailer; the statement's span. No struct of a sheet's bytes and its places: the walks go by the places alone, and calls
// take them after the bytes. That the sections lie within the bytes (InPlaces) is a fact between the two, and asked by whoever reads both.
#[derive(Clone, Copy)]
pub struct Places {
    pub names: u32,
    pub bindings: u32,
    pub clauses: u32,
    pub arms: u32,
    pub rows: usize,
    pub head: usize,
    pub tail: usize,
    pub trailer: usize,
    pub start: u32,
    pub end: u32,
}

impl Places {
    // The words of a sheet before `to`.
    pub fn section<'a>(self, s: &'a [u8], to: usize) -> Section<'a>
        requires { to * 4 ≤ length s.now }
        ensures { Part s.now self to result }
    {
        Section {
            bytes: &s[..to * 4],
            names: self.names,
            rows: self.rows,
        }
    }
}

const MIN_BYTES: usize = 40;

pub const MAX_BYTES: usize = 8192;

#[tactic(auto, unfolding(crate::specs::Trailer::sized))]
fn is_sized(s: &[u8]) -> bool
    ensures { result ≡ sized s.now }
{
    (s.len() % 4 == 0) & ((MIN_BYTES <= s.len()) & (s.len() <= MAX_BYTES))
}

// Whether each section begins no earlier than the one before it, the first at word 0, and the span is not reversed; t is the trailer's
// first word.
#[tactic(auto, using(crate::proofs::Placing::lengths), unfolding(crate::specs::Trailer::in_place))]
fn is_in_place(s: &[u8], t: usize) -> bool
    requires { t + 10 ≡ length (words s.now) }
    ensures { result ≡ in_place (words s.now) }
{
    let names = word(s, t);
    let rows = word(s, t + 2);
    let head = word(s, t + 4);
    let arms = word(s, t + 6);
    let start = word(s, t + 8);
    let end = word(s, t + 9);
    (names as usize == t) & ((rows <= names) & ((head <= rows) & ((arms <= head) & (start <= end))))
}

#[tactic(auto, using(crate::proofs::Placing::lengths), unfolding(crate::specs::Trailer::places_of))]
fn read_places(s: &[u8], t: usize) -> Places
    requires { (t + 10 ≡ length (words s.now)) × (in_place (words s.now) ≡ true) }
    ensures { result ≡ places_of (words s.now) }
{
    Places {
        names: word(s, t + 1),
        bindings: word(s, t + 3),
        clauses: word(s, t + 5),
        arms: word(s, t + 7),
        rows: t - word(s, t + 2) as usize,
        head: t - word(s, t + 4) as usize,
        tail: t - word(s, t + 6) as usize,
        trailer: t,
        start: word(s, t + 8),
        end: word(s, t + 9),
    }
}

// Where the sections stand, by the trailer alone.
#[tactic(auto, using(crate::proofs::Placing::lengths), unfolding(crate::specs::Read::locate))]
pub fn find_places(s: &[u8]) -> Result<Places, Refusal>
    ensures { sheet_of result ≡ locate s.now }
{
    if !is_sized(s) {
        return Err(Refusal::Size);
    }
    let t = count(s) - 10;
    if !is_in_place(s, t) {
        return Err(Refusal::Places);
    }
    Ok(read_places(s, t))
}
