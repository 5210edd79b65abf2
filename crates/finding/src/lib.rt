// Finding records, and how they go into a lent list and come from one. The code is any number, since a lent list's words may be no finding's.
#![tactic(auto)]

ghost use Rattle.std.specs.Prelude.{◌≡◌, ◌+◌, ◌*◌, ◌≤◌, length};
ghost use Rattle.std.proofs.lemmas.List.Edits.{sets};
ghost use Rattle.scope.specs.Answer.{name_of};
ghost use Rattle.finding.specs.Flat.{finding_width};
ghost use Rattle.finding.specs.Records.{six_at, record_at, words_of, finding_by, into, out_of};
ghost use Rattle.finding.specs.Logged.{logged_in, shadow_words, Cites};

use scope::{FINDING_WIDTH, LOGGED_WIDTH, Name};

// Code, span, name + 1 or 0, two details, the name's mark: the words as a list has them. With the mark 1 the name is the id of a variable.
#[derive(Clone, Copy, Debug, PartialEq, Eq)]
pub struct Finding {
    pub code: u32,
    pub start: u32,
    pub end: u32,
    pub name: u32,
    pub one: u32,
    pub two: u32,
    pub mark: u32,
}

// In a log, where findings have six words, the code of E1002 of a generated name: its id and the span follow.
const SHADOW: u32 = 6;

// The six words of a finding in a log.
impl From<[u32; LOGGED_WIDTH]> for Finding {
    ghost from_gives = { λ words finding. finding_by finding ≡ logged_in words };

    fn from(words: [u32; LOGGED_WIDTH]) -> Finding {
        let [code, a, b, c, d, e] = words;
        if code == SHADOW {
            return Finding {
                code: 1002,
                start: b,
                end: c,
                name: a,
                one: 0,
                two: 0,
                mark: 1,
            };
        }
        Finding {
            code,
            start: a,
            end: b,
            name: c,
            one: d,
            two: e,
            mark: 0,
        }
    }
}

// E1002 of a name in a log.
pub fn shadow(name: Name, start: u32, end: u32) -> [u32; LOGGED_WIDTH]
    requires { Cites name }
    ensures { result ≡ shadow_words (name_of name) start end }
{
    match name.mark {
        0 => [1002, start, end, name.word + 1, 0, 0],
        _ => [SHADOW, name.word, start, end, 0, 0],
    }
}

impl From<Finding> for [u32; FINDING_WIDTH] {
    ghost from_gives = { λ finding words. words ≡ words_of finding };

    fn from(f: Finding) -> [u32; FINDING_WIDTH] {
        [f.code, f.start, f.end, f.name, f.one, f.two, f.mark]
    }
}

// The six words of a log from p on.
pub fn six_at(words: &[u32], p: usize) -> [u32; LOGGED_WIDTH]
    requires { p + 6 ≤ length words.now }
    ensures { result ≡ six_at words.now p }
{
    *words[p..].first_chunk().unwrap()
}

// The record at place i of a flat list, seven words a record.
pub fn record_at(flat: &[u32], i: usize) -> Finding
    requires { (i + 1) * finding_width ≤ length flat.now }
    ensures { result ≡ record_at flat.now i }
{
    let at = i * FINDING_WIDTH;
    Finding {
        code: flat[at],
        start: flat[at + 1],
        end: flat[at + 2],
        name: flat[at + 3],
        one: flat[at + 4],
        two: flat[at + 5],
        mark: flat[at + 6],
    }
}

// A record's seven words, stored at place i of a flat list.
pub fn words_at(flat: &mut [u32], i: usize, f: Finding)
    requires { (i + 1) * finding_width ≤ length flat.old }
    ensures { flat.new ≡ sets flat.old (i * finding_width) (words_of f) }
{
    let at = i * FINDING_WIDTH;
    let words: [u32; FINDING_WIDTH] = f.into();
    flat[at..at + FINDING_WIDTH].copy_from_slice(&words);
}

// The first `count` entries become the flat list's records, and the rest is left as it was.
#[tactic(auto, unfolding(crate::specs::Records::into))]
pub fn store_all(list: &mut [Finding], flat: &[u32], count: usize)
    requires { (count ≤ length list.old) × (count * finding_width ≤ length flat.now) }
    ensures { list.new ≡ into list.old flat.now count }
{
    for (i, record) in list[..count].iter_mut().enumerate() {
        *record = record_at(flat, i);
    }
}

// The other way: the flat list's first `count` records become those of the list. By place: a record's words are stored by theirs.
#[tactic(auto, unfolding(crate::specs::Records::out_of))]
pub fn load_all(flat: &mut [u32], list: &[Finding], count: usize)
    requires { (count * finding_width ≤ length flat.old) × (count ≤ length list.now) }
    ensures { flat.new ≡ out_of flat.old list.now count }
{
    for i in 0..count {
        words_at(flat, i, list[i]);
    }
}
