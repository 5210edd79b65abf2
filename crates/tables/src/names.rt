// Names: byte length, UTF-8 bytes, zero padding. A position is a byte's number in the names section. Names go by their numbers: each is sought
// among those before it.
ghost use Rattle.std.specs.Prelude.{◌≡◌, map, ◌+◌, ◌≤◌, length, drop};
ghost use Rattle.words.specs.Fnv.{use_id};
ghost use Rattle.heads.specs.Answer.{Ans, read_end, is_in};
ghost use Rattle.tables.specs.Distinct.{name_in, distinct};
ghost use Rattle.tables.specs.Index.{number_of, index_of};
ghost use Rattle.tables.specs.Name.{all_zero, length_at, name_body, read_name, text_at, name_at};
ghost use Rattle.tables.specs.Answer.{body_ends, text_got, ending, Names, name_ends, name_got, names_at, Roomy, Scanned, ReadWhole};

use refusal::Refusal;
use words::{join, name_id, use_id};

// The longest name.
const MAX_NAME: u32 = 255;

// Whether the bytes of s are zero.
fn all_zero(s: &[u8]) -> bool
    ensures { result ≡ all_zero s.now }
{
    s.iter().all(|byte| *byte == 0)
}

// The n bytes of a name from at on, then its padding: where that ends, and the name's use id.
fn read_body(s: &[u8], at: usize, n: u32) -> Result<(usize, u32), Refusal>
    requires { at ≤ length s.now }
    ensures ends { body_ends s.now at n (ending result) }
    ensures names { Names (text_at s.now at n) result }
    ensures ans { Ans s.now at (name_body n (drop at s.now)) (text_got s.now at n (ending result)) (read_end s.now (ending result)) }
{
    if MAX_NAME < n {
        return Err(Refusal::Names);
    }
    let len = n as usize;
    let p = (len + 3) / 4 * 4;
    if s.len() - at < p {
        return Err(Refusal::Names);
    }
    let e = at + len;
    let q = at + p;
    if !all_zero(&s[e..q]) {
        return Err(Refusal::Names);
    }
    match name_id(&s[at..e]) {
        Some(id) => Ok((q, id)),
        None => Err(Refusal::Names),
    }
}

// The length of the name that stands at the byte p: a word, by its four bytes as the definition has it.
fn length_at(s: &[u8], p: usize) -> u32
    requires { p + 4 ≤ length s.now }
    ensures { result ≡ length_at s.now p }
{
    join(s[p], s[p + 1], s[p + 2], s[p + 3])
}

// The name whose length stands at the byte at: where it ends, and its use id.
pub fn read_name(s: &[u8], at: usize) -> Result<(usize, u32), Refusal>
    requires { at ≤ length s.now }
    ensures ends { name_ends s.now at (ending result) }
    ensures names { Names (name_at s.now at) result }
    ensures ans { Ans s.now at (read_name (drop at s.now)) (name_got s.now at (ending result)) (read_end s.now (ending result)) }
{
    if s.len() - at < 4 {
        return Err(Refusal::Names);
    }
    read_body(s, at + 4, length_at(s, at))
}

// The text of the name whose length stands at the byte p: a part of s, empty where it doesn't end within s.
pub fn name_at(s: &[u8], p: usize) -> &[u8]
    ensures { result.now ≡ name_at s.now p }
{
    let Some(from) = s.get(p..) else {
        return &[];
    };
    let Some((length, rest)) = from.split_first_chunk::<4>() else {
        return &[];
    };
    rest.get(..u32::from_le_bytes(*length) as usize)
        .unwrap_or_default()
}

// Reads n names from the front of s: tab gets the byte where each stands, ids its use id. That both have a place for each word of s (Roomy) is
// asked by whoever writes them.
pub fn scan_names(s: &[u8], n: u32, tab: &mut [u32], ids: &mut [u32]) -> Result<usize, Refusal>
    requires { Roomy s.now tab.old ids.old }
    ensures { Scanned s.now n tab.new ids.new result }
{
    let mut p = 0;
    // By index: n may be more than the tables hold; then reading a name fails before.
    for i in 0..n as usize {
        let (q, id) = read_name(s, p)?;
        tab[i] = p as u32;
        ids[i] = id;
        p = q;
    }
    Ok(p)
}

// Whether the bytes of s are n names and nothing else: tab gets the byte where each stands, ids its use id.
pub fn are_read(s: &[u8], n: u32, tab: &mut [u32], ids: &mut [u32]) -> bool
    requires { Roomy s.now tab.old ids.old }
    ensures { ReadWhole s.now n tab.new ids.new result }
{
    scan_names(s, n, tab, ids) == Ok(s.len())
}

// Whether an id is among these. It looks at all of them, without a way out, so that several are compared at a time; `any` and `contains` stop at the
// first.
fn has_id(ids: &[u32], id: u32) -> bool
    ensures { result ≡ is_in id ids.now }
{
    let mut hit = false;
    for other in ids {
        hit |= *other == id;
    }
    hit
}

// The index of the first of the names with these places and use ids whose text is x: it has the id of x, so most sheets without x are told by the
// ids.
pub fn index_of(s: &[u8], places: &[u32], ids: &[u32], x: &[u8]) -> Option<u32>
    requires few { length places.now ≤ 8192 }
    requires used { ids.now ≡ map use_id (names_at s.now places.now) }
    ensures { number_of result ≡ index_of x.now (names_at s.now places.now) }
{
    if !has_id(ids, use_id(x)) {
        return None;
    }
    let i = places
        .iter()
        .position(|place| x == name_at(s, *place as usize))?;
    Some(i as u32)
}

// Whether no two of the names with these places and use ids are the same: equal names have equal ids, so most are told apart by these. Two lists,
// since a search among ids looks at these alone.
pub fn distinct_names(s: &[u8], places: &[u32], ids: &[u32]) -> bool
    requires { ids.now ≡ map use_id (names_at s.now places.now) }
    ensures { result ≡ distinct name_in (names_at s.now places.now) }
{
    // By index: each name is sought among the i before it.
    for i in 0..places.len() {
        if has_id(&ids[..i], ids[i]) {
            let x = name_at(s, places[i] as usize);
            if places[..i]
                .iter()
                .any(|place| x == name_at(s, *place as usize))
            {
                return false;
            }
        }
    }
    true
}
