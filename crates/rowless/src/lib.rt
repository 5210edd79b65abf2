// The places of names in the words of a walk: the sheet's names by their indices, then a place for each variable that has no row in the binding
// table and whose name is none of the sheet's. Such variables are found by chains, as rows are: the lent words hold for each slot its newest entry
// (its number + 1, or 0), then for each entry the one before it in its chain; an entry is a variable and the place of its name.
// Which variables share a slot follows from their ids and a multiplier, which the first entry brings: it is made from all words that there are,
// so it differs from sheet to sheet. Only the time rests on it, never the answer.
#![tactic(auto)]

ghost use Rattle.std.specs.Prelude.{◌≡◌, ◌+◌, ◌*◌, ◌/◌, ◌^◌, ◌<◌, ◌≤◌, length};
ghost use Rattle.words.specs.Words.{words};
ghost use Rattle.scope.specs.Answer.{name_of};
ghost use Rattle.tables.specs.Answer.{names_at};
ghost use Rattle.rowless.specs.Rowless.{named, places, most, Sound, Finds, Room, Chosen, Adds, Places, Fresh, Begins};

use rows::{hang, multiplier, newest_in, slot};
use scope::Name;
use tables::var_at;
use words::{count, word};

// The entries in lent words, how many there are, and how many names the sheet has.
#[derive(Drop)]
pub struct Rowless<'a> {
    pub chains: &'a mut [u32],
    pub entries: &'a mut [u32],
    pub listed: u32,
    pub count: u32,
    pub mult: u32,
}

impl Rowless<'_> {
    // The entry of a variable.
    fn find(&self, v: u32) -> Option<u32>
        requires { Sound self.now }
        ensures { Finds self.now v result }
    {
        let m = self.chains.len() / 2;
        let is = |i| self.entries[i as usize * 2] == v;
        newest_in(self.chains, m, slot(v, m, self.mult), is)
    }

    // Before the first entry the multiplier is made.
    fn choose(&mut self, bytes: &[u8])
        requires { (length (words bytes.now) < 2 ^ 32) × Sound self.old }
        ensures { Chosen self.old self.new }
    {
        if self.count == 0 {
            self.mult = multiplier(count(bytes) as u32, |i| word(bytes, i as usize));
        }
    }

    // One entry more: the place of a variable's name.
    fn add(&mut self, bytes: &[u8], v: u32, place: u32)
        requires { (length (words bytes.now) < 2 ^ 32) × Room v place self.old }
        ensures { Adds v place self.old self.new }
    {
        self.choose(bytes);
        let m = self.chains.len() / 2;
        hang(self.chains, m, slot(v, m, self.mult), self.count);
        let i = self.count as usize * 2;
        self.entries[i] = v;
        self.entries[i + 1] = place;
        self.count += 1;
    }

    // The place of the name of a variable without a row. The multiplier is made from the bytes.
    pub fn place(&mut self, bytes: &[u8], v: u32) -> u32
        requires { (length (words bytes.now) < 2 ^ 32) × (Sound self.old × ((self.old.count < most self.old) × (places self.old < 4294967295))) }
        ensures { Places v self.old self.new result }
    {
        if let Some(i) = self.find(v) {
            return self.entries[i as usize * 2 + 1];
        }
        let place = self.listed + self.count;
        self.add(bytes, v, place);
        place
    }

    // The name at a place.
    pub fn name(&self, x: u32) -> Name
        requires { (x < places self.now) × Sound self.now }
        ensures name { name_of result ≡ named self.now x }
        ensures marked { (result.mark ≤ 1) × (result.mark < 1 → result.word < self.now.listed) }
    {
        if x < self.listed {
            return Name { mark: 0, word: x };
        }
        let i = (x - self.listed) as usize;
        Name {
            mark: 1,
            word: self.entries[i * 2],
        }
    }

    // Begins with the sheet's names, whose texts stand at these places of a section: those that have the text of a variable are its name.
    pub fn restart(&mut self, section: &[u8], names: &[u32])
        requires { ((length (words section.now) < 2 ^ 32) × (length names.now < 4294967296)) × Fresh (names_at section.now names.now) self.old }
        ensures { Begins (names_at section.now names.now) self.old self.new }
    {
        self.listed = names.len() as u32;
        self.count = 0;
        // By index: a name is given by its number.
        for i in 0..names.len() {
            if let Some(v) = var_at(section, names[i]) {
                self.add(section, v, i as u32);
            }
        }
    }
}
