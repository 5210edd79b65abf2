// Whether names are distinct, by chains: names whose texts have the same slot hang together, and a name is compared only with those of its
// chain. The lent words hold for each slot its newest name (its number + 1, or 0), then for each name the one before it in its chain: numbers + 1 are what
// is stored, since these are lent words and no heap. The
// slot is a hash of the text with a multiplier made from the section, so which names share one differs from sheet to sheet. Only the time
// rests on it, never the answer.
#![tactic(auto)]

ghost use Rattle.std.specs.Prelude.{◌≡◌, ◌+◌, ◌/◌, ◌<◌, ◌≤◌, length};
ghost use Rattle.tables.specs.Distinct.{name_in, distinct};
ghost use Rattle.tables.specs.Answer.{names_at, Roomy};
ghost use Rattle.sheet.specs.Answer.{Tabled};
ghost use Rattle.name_chains.specs.Slot.{folded, hash_of, slot_of};
ghost use Rattle.name_chains.specs.Hung.{text_in, Hung};

use rows::{empty, hang, multiplier, newest_in};
use tables::{are_read, distinct_names, name_at};
use words::{count, word};

// So few names are compared each with all before it, by their use ids first.
const FEW: u32 = 8;

// The product of two numbers, its upper half folded into its lower.
#[tactic(auto, unfolding(crate::specs::Slot::folded))]
fn fold(a: u32, b: u32) -> u32
    ensures { result ≡ folded a b }
{
    let product = u64::from(a) * u64::from(b);
    ((product / 4294967296) as u32) ^ ((product % 4294967296) as u32)
}

// The hash of a text: of its whole words, then of the bytes after them.
#[tactic(auto, using(crate::proofs::Laws::hashing), unfolding(crate::specs::Slot::hash_from, crate::specs::Slot::hash_of))]
fn hash(text: &[u8], mult: u32) -> u32
    ensures { result ≡ hash_of mult text.now }
{
    let (whole, rest) = text.as_chunks::<4>();
    let mut hash = mult;
    for bytes in whole {
        hash = fold(hash ^ u32::from_le_bytes(*bytes), mult);
    }
    for byte in rest {
        hash = fold(hash ^ u32::from(*byte), mult);
    }
    hash
}

// How texts spread over slots, of which there are so many.
#[derive(Clone, Copy)]
struct Slots {
    mult: u32,
    count: usize,
    ghost some: { 0 < count },
    ghost few: { count < 4294967296 },
}

impl Slots {
    // The slot of a text.
    #[tactic(auto, unfolding(crate::specs::Slot::slot_of))]
    fn of(self, text: &[u8]) -> usize
        ensures slot { result ≡ slot_of self.mult self.count text.now }
        ensures below { result < self.count }
    {
        (u64::from(hash(text, self.mult)) * self.count as u64 / 4294967296) as usize
    }
}

// The names of a section, by the bytes where they stand.
#[derive(Clone, Copy)]
struct Names<'a> {
    bytes: &'a [u8],
    places: &'a [u32],
}

impl Names<'_> {
    // The text of a name.
    fn text(&self, name: usize) -> &[u8]
        requires { name < length self.now.places.now }
        ensures { result.now ≡ text_in self.now.bytes.now self.now.places.now name }
    {
        name_at(self.bytes, self.places[name] as usize)
    }

    // Whether a text, by its slot, is one of the names, which hang in chains.
    fn contains(&self, slots: Slots, chains: &[u32], text: &[u8], slot: usize) -> bool
        requires hung { Hung (slot_of slots.mult slots.count) self.now.bytes.now self.now.places.now slots.count (length self.now.places.now) chains.now }
        requires here { slot ≡ slot_of slots.mult slots.count text.now }
        ensures { result ≡ name_in text.now (names_at self.now.bytes.now self.now.places.now) }
    {
        let is = |name| text == self.text(name as usize);
        newest_in(chains, slots.count, slot, is).is_some()
    }

    // Whether no two of the names are the same, over slots that are all empty.
    #[tactic(auto, using(crate::proofs::Laws::adding), unfolding(tables::specs::Distinct::distinct, tables::specs::Distinct::fresh_after))]
    fn distinct(&self, slots: Slots, chains: &mut [u32]) -> bool
        requires few { length self.now.places.now < 4294967295 }
        requires room { slots.count + length self.now.places.now ≤ length chains.old }
        requires empty { Hung (slot_of slots.mult slots.count) self.now.bytes.now self.now.places.now slots.count 0 chains.old }
        ensures { result ≡ distinct name_in (names_at self.now.bytes.now self.now.places.now) }
    {
        // By index: each name is sought among the i before it.
        for i in 0..self.places.len() {
            let before = Names {
                bytes: self.bytes,
                places: &self.places[..i],
            };
            let text = self.text(i);
            let slot = slots.of(text);
            if before.contains(slots, chains, text, slot) {
                return false;
            }
            hang(chains, slots.count, slot, i as u32);
        }
        true
    }
}

// Whether no two of the names that stand at the places are the same. The lent words need one more than there are names, and hold anything at
// first.
pub fn distinct_by_chains(s: &[u8], places: &[u32], chains: &mut [u32]) -> bool
    requires { (length places.now < 4294967295) × (length places.now < length chains.old) }
    ensures { result ≡ distinct name_in (names_at s.now places.now) }
{
    let n = places.len();
    // The multiplier is made from all the words of the section, where there are so many names that one is worth it.
    let words = if n <= 16 {
        0
    } else {
        count(s).min(u32::MAX as usize) as u32
    };
    let slots = Slots {
        mult: multiplier(words, |i| word(s, i as usize)),
        count: empty(chains, n),
    };
    let names = Names { bytes: s, places };
    names.distinct(slots, chains)
}

// Whether the bytes of s are n names, no two the same, as sheet::are_names says: tab gets the byte where each stands, ids its use id.
pub fn are_names(s: &[u8], n: u32, tab: &mut [u32], ids: &mut [u32], chains: &mut [u32]) -> bool
    requires { Roomy s.now tab.old ids.old × (length s.now / 4 < length chains.old) }
    ensures { Tabled n s.now tab.new ids.new result }
{
    if !are_read(s, n, tab, ids) {
        return false;
    }
    let places = &tab[..n as usize];
    if n <= FEW {
        return distinct_names(s, places, &ids[..n as usize]);
    }
    distinct_by_chains(s, places, chains)
}
