// The row of a variable in the binding table, by chains: rows whose variables have the same slot hang together. The lent words hold for each
// slot its newest row (its number + 1, or 0), then for each row the one before it in its chain. The slot is a mixed hash with a multiplier
// that the caller gives: which variables share a slot differs with it. Only the time rests on it, never the answer. Other keys hang in chains by
// the same functions.
#![tactic(auto)]

ghost use Rattle.std.specs.Prelude.{ℕ, ◌≡◌, ◌+◌, ◌*◌, ◌%◌, ◌<◌, ◌≤◌, length};
ghost use Rattle.words.specs.Words.{words};
ghost use Rattle.rows.specs.Slot.{slot_of};
ghost use Rattle.semantics.specs.World.{row_kind};
ghost use Rattle.tables.specs.Index.{number_of};
ghost use Rattle.rows.specs.Rows.{id_at, seek, shown, Hung, Hangs, Asks, Newest, Empty, Cleared, Emptied};
ghost use Rattle.rows.specs.Table.{row_in, Standing, Indexed};

use tables::VarKind;
use words::word;

// The slot of a key, one of m.
#[tactic(auto, unfolding(crate::specs::Slot::slot_of))]
pub fn slot(v: u32, m: usize, mult: u32) -> usize
    requires { (0 < m) × (m < 4294967296) }
    ensures slot { result ≡ slot_of mult m v }
    ensures below { result < m }
{
    let product = v.wrapping_mul(mult);
    let mixed = (product ^ (product >> 15)).wrapping_mul(2654435769);
    (u64::from(mixed) * m as u64 / 4294967296) as usize
}

// Clears slots for n keys at the front of lent words, four for each key or as many as there is room for, and no more than a slot's number can be
// one of; how many they are.
pub fn empty(chains: &mut [u32], n: usize) -> usize
    requires { (n < 4294967295) × (n < length chains.old) }
    ensures { Emptied n chains.old chains.new result }
{
    let m = (n * 4).min(u32::MAX as usize).clamp(1, chains.len() - n);
    clear(chains, m);
    m
}

// The first m words are cleared.
fn clear(chains: &mut [u32], m: usize)
    requires { m ≤ length chains.old }
    ensures { Cleared m chains.old chains.new }
{
    chains[..m].fill(0);
}

// The key n is hung up in its slot, one of m, after the n before it. The words and m stand beside each other, here and below: hanging up needs the
// words `&mut`, seeking `&`.
pub fn hang(chains: &mut [u32], m: usize, slot: usize, n: u32)
    requires { (slot < m) × ((m + n < length chains.old) × (n < 4294967295)) }
    ensures { Hangs m slot n chains.old chains.new }
{
    let before = chains[slot];
    chains[m + n as usize] = before;
    chains[slot] = n + 1;
}

// The newest key in the chain of a slot, one of m, for which `is` holds.
pub fn newest_in<F: Fn(u32) -> bool>(chains: &[u32], m: usize, slot: usize, is: F) -> Option<u32>
    requires { Asks (F.pre is) m slot chains.now }
    ensures { Newest (F.post is) m slot chains.now result }
{
    let mut next = chains[slot];
    // Along the chain: each turn says where the next begins. 0 ends it, as the lent words have it.
    while 0 < next {
        if is(next - 1) {
            return Some(next - 1);
        }
        next = chains[m + (next - 1) as usize];
    }
    None
}

// A run of rows of five words each, of which the first is the variable.
#[derive(Clone, Copy)]
struct Run<'a> {
    bytes: &'a [u8],
    first: usize,
    count: u32,
    ghost within: { first + count * 5 ≤ length (words bytes.now) },
}

impl Run<'_> {
    // The variable of a row.
    #[tactic(auto, using(words::proofs::Words::word_laws))]
    fn variable(&self, row: u32) -> u32
        requires { row < self.now.count }
        ensures { result ≡ id_at (words self.now.bytes.now) self.now.first row }
    {
        word(self.bytes, self.first + row as usize * 5)
    }

    // The newest row of a variable, in chains over m slots.
    fn find(&self, m: usize, mult: u32, chains: &[u32], variable: u32) -> Option<u32>
        requires { Hung mult m self.now.count (id_at (words self.now.bytes.now) self.now.first) chains.now }
        ensures { number_of result ≡ seek (id_at (words self.now.bytes.now) self.now.first) variable self.now.count }
    {
        let is = |row| self.variable(row) == variable;
        newest_in(chains, m, slot(variable, m, mult), is)
    }
}

// An odd multiplier, made from the n words that `word` gives: few need none of their own. Whoever writes all of them can still choose it.
pub fn multiplier<F: Fn(u32) -> u32>(n: u32, word: F) -> u32
    requires { (i : ℕ) → i < n → F.pre word i }
    ensures { result % 2 ≡ 1 }
{
    if n <= 16 {
        return 2654435769;
    }
    // Two hashes, each of every other word: neither waits for the other's product.
    let mut even: u32 = 2166136261;
    let mut odd: u32 = 16777619;
    for i in 0..n / 2 {
        even = (even ^ word(i * 2)).wrapping_mul(16777619);
        odd = (odd ^ word(i * 2 + 1)).wrapping_mul(16777619);
    }
    let last = if n % 2 == 1 { word(n - 1) } else { 0 };
    let hash = (even ^ last).wrapping_mul(16777619) ^ odd;
    hash / 2 * 2 + 1
}

// Where the rows stand in the words of a sheet, how many they are, and how they spread over slots: by a multiplier, over so many.
#[derive(Clone, Copy, Debug, PartialEq, Eq)]
pub struct Index {
    pub first: usize,
    pub count: u32,
    pub mult: u32,
    pub slots: usize,
}

impl Index {
    // The first so many of the rows.
    fn run(self, bytes: &[u8], count: u32) -> Run
        requires { self.first + count * 5 ≤ length (words bytes.now) }
        ensures bytes { result.bytes.now ≡ bytes.now }
        ensures first { result.first ≡ self.first }
        ensures count { result.count ≡ count }
    {
        Run {
            bytes,
            first: self.first,
            count,
        }
    }

    // Hangs up all the rows, where no two have the same variable; whether that is so.
    pub fn hang_rows(&self, bytes: &[u8], chains: &mut [u32]) -> bool
        requires { (self.now.first + self.now.count * 5 ≤ length (words bytes.now)) × Empty self.now.slots self.now.count chains.old }
        ensures { Indexed self.now (words bytes.now) chains.old chains.new result }
    {
        let all = self.run(bytes, self.count);
        // By index: each row is sought among the i before it.
        for i in 0..self.count {
            let before = self.run(bytes, i);
            let variable = all.variable(i);
            if before
                .find(self.slots, self.mult, chains, variable)
                .is_some()
            {
                return false;
            }
            hang(chains, self.slots, slot(variable, self.slots, self.mult), i);
        }
        true
    }
}

// The rows of a sheet, hung up.
#[derive(Clone, Copy)]
pub struct Rows<'a> {
    pub bytes: &'a [u8],
    pub chains: &'a [u32],
    pub index: Index,
}

impl Rows<'_> {
    // The name and the kind of a variable's row; the kind is a number, since the sheet's words have it.
    #[tactic(auto, using(words::proofs::Words::word_laws, crate::proofs::Chains::sought_within))]
    pub fn row(&self, v: u32) -> Option<(u32, u32)>
        requires { Standing self.now }
        ensures { result ≡ shown (row_in self.now v) }
    {
        let run = self.index.run(self.bytes, self.index.count);
        let i = run.find(self.index.slots, self.index.mult, self.chains, v)?;
        let p = self.index.first + i as usize * 5;
        Some((word(self.bytes, p + 1), word(self.bytes, p + 2)))
    }

    // "the table's, Value if it has none"
    #[tactic(auto, unfolding(semantics::specs::World::row_kind))]
    pub fn kind(&self, v: u32) -> u32
        requires { Standing self.now }
        ensures { result ≡ row_kind (row_in self.now v) }
    {
        self.row(v).map_or(VarKind::Value as u32, |(_, kind)| kind)
    }
}
