// One entry more in a lent flat list: a carried name as the last, and a binding or an answer where the first making gives the place and the
// last one the value. The place of a binding is found by stamps or a search, that of an answer along a chain of use ids. Kinds are numbers, as the
// lists have them. Where a list needs nothing beside it, the list and its number of entries are two parameters, as in crate lists_fill, which says why.
#![tactic(auto)]

ghost use Rattle.std.specs.Prelude.{◌≡◌, true, [], ◌∷◌, ◌+◌, ◌*◌, ◌<◌, ◌≤◌, length, map};
ghost use Rattle.std.proofs.lemmas.List.Edits.{sets};
ghost use Rattle.scope.specs.Flat.{binding_width, binding_of};
ghost use Rattle.scope.specs.Graph.{carried};
ghost use Rattle.scope.specs.Answer.{name_of};
ghost use Rattle.semantics.specs.Log.{write};
ghost use Rattle.semantics.specs.Lists.{note};
ghost use Rattle.entries.specs.Filled.{recorded_words};
ghost use Rattle.entries.specs.Adding.{last_place, is_binding, answer};
ghost use Rattle.entries.specs.Stamps.{stamp_of, Knows, Marks, Finds, Stores, Makes, Carries, Fits, IsStill, bound_of, kept};
ghost use Rattle.entries.specs.Chains.{Sound, Room, Places, Notes};

use rows::{hang, newest_in, slot};
use scope::{BINDING_WIDTH, CARRIED_WIDTH, Name, RECORDED_WIDTH};

// A binding of a name in a scope.
#[derive(Clone, Copy, Debug, PartialEq, Eq)]
pub struct Binding {
    pub scope: u32,
    pub name: Name,
    pub variable: u32,
    pub kind: u32,
}

// A variable that a use has, its kind, and via_projection, 1 if its name came over a WITH and else 0.
#[derive(Clone, Copy, Debug, PartialEq, Eq)]
pub struct Found {
    pub variable: u32,
    pub kind: u32,
    pub via: u32,
}

// A lent list of bindings, how many are made in it, and the stamps that know of them: word 0 is the highest scope that binds + 1, or 0, and
// the word in the place of a name is the same number where that scope binds the name. Numbers + 1, 0 for none, since they are lent words that are zero
// at first.
#[derive(Drop)]
pub struct Bindings<'a> {
    pub list: &'a mut [u32],
    pub made: usize,
    pub stamps: &'a mut [u32],
}

// A lent list of recorded uses, how many are made in it, and the chains in which their ids hang, over so many slots. A multiplier tells which ids
// share a slot; only the time rests on it, never the answer.
#[derive(Drop)]
pub struct Recorded<'a> {
    pub list: &'a mut [u32],
    pub made: u32,
    pub chains: &'a mut [u32],
    pub slots: usize,
    pub mult: u32,
}

// An entry's words as the entry numbered i. Crates finding and steps store theirs by themselves: neither names this crate, the one stands below
// it and the other beside it.
pub fn set_entry<const W: usize>(out: &mut [u32], i: usize, entry: [u32; W])
    requires { (i + 1) * W ≤ length out.old }
    ensures { out.new ≡ sets out.old (i * W) entry.entry }
{
    let p = i * W;
    out[p..p + W].copy_from_slice(&entry);
}

// A carried name as the entry numbered n, where the list has room for it.
pub fn put_carried(out: &mut [u32], n: u32, barrier: u32, name: Name, v: u32)
    ensures { Carries (carried barrier (name_of name) v) out.old out.new n }
{
    let i = n as usize;
    if out.len() < (i + 1) * CARRIED_WIDTH {
        return;
    }
    set_entry(out, i, [barrier, name.word, v, name.mark]);
}

// The place of a scope's binding of a name, or how many there are. From the back, since what is replaced is among the last.
fn place_of_name(bindings: &[[u32; BINDING_WIDTH]], scope: u32, name: Name) -> usize
    ensures { result ≡ last_place (is_binding scope (name_of name)) (map binding_of bindings.now) }
{
    let Name { mark, word } = name;
    for i in (0..bindings.len()).rev() {
        let [of, called, _, _, _, _, marked] = bindings[i];
        if scope == of && (mark == marked && word == called) {
            return i;
        }
    }
    bindings.len()
}

// The place of a name among so many stamps: an index has the word of its number + 1, an id one in the upper half. Two names may have one place.
fn stamp_of(name: Name, len: usize) -> usize
    ensures { result ≡ stamp_of len (name_of name) }
{
    if name.mark == 0 {
        return name.word as usize + 1;
    }
    let half = (len / 2).min(u32::MAX as usize);
    len - half + slot(name.word, half.max(1), 1)
}

// Whether the stamps tell that a scope doesn't bind a name: it is higher than any that binds, or the highest and the name's stamp is another.
fn is_new(stamps: &[u32], scope: u32, name: Name) -> bool
    requires { 1 ≤ length stamps.now }
    ensures { result ≡ true → Knows stamps.now scope (name_of name) → ⊥ }
{
    let Some(stamp) = scope.checked_add(1) else {
        return false;
    };
    if stamp != stamps[0] {
        return stamps[0] < stamp;
    }
    stamps
        .get(stamp_of(name, stamps.len()))
        .is_some_and(|s| *s != stamp)
}

// The place of a binding among m, by the stamps or by a search.
fn place_for(out: &[u32], m: usize, stamps: &[u32], scope: u32, name: Name) -> usize
    requires { (m * binding_width ≤ length out.now) × (1 ≤ length stamps.now) }
    ensures { Finds scope (name_of name) out.now stamps.now m result }
{
    if is_new(stamps, scope, name) {
        return m;
    }
    let (all, _) = out.as_chunks::<BINDING_WIDTH>();
    place_of_name(&all[..m], scope, name)
}

// The stamps with a scope's name. By a test and not by `get_mut`: tried, and the proof didn't close.
fn mark(stamps: &mut [u32], scope: u32, name: Name)
    requires { 1 ≤ length stamps.old }
    ensures { Marks scope (name_of name) stamps.old stamps.new }
{
    let Some(stamp) = scope.checked_add(1) else {
        return;
    };
    if stamp < stamps[0] {
        return;
    }
    stamps[0] = stamp;
    let i = stamp_of(name, stamps.len());
    if i < stamps.len() {
        stamps[i] = stamp;
    }
}

// A binding in its place i among m, where the list has room for it.
fn store_binding(out: &mut [u32], m: usize, i: usize, b: Binding) -> usize
    requires { (i ≤ m) × (m * binding_width ≤ length out.old) }
    ensures { Stores b i out.old out.new m result }
{
    let Name { mark, word } = b.name;
    if i < m {
        let replaced = out[i * BINDING_WIDTH + 2];
        set_entry(
            out,
            i,
            [b.scope, word, b.variable, b.kind, 1, replaced, mark],
        );
        return m;
    }
    if out.len() < (m + 1) * BINDING_WIDTH {
        return m;
    }
    set_entry(out, m, [b.scope, word, b.variable, b.kind, 0, 0, mark]);
    m + 1
}

impl Bindings<'_> {
    // A binding put into the list, where it has room for it. IsStill says that list and stamps are the lent ones still: a callee may exchange a field
    // that is a `&mut`.
    pub fn put(&mut self, b: Binding)
        requires { Fits (kept self.old) }
        ensures still { IsStill self.old self.new }
        ensures makes { Makes (bound_of b ∷ []) (kept self.old) (kept self.new) }
    {
        let list = &mut *self.list;
        let stamps = &mut *self.stamps;
        let i = place_for(list, self.made, stamps, b.scope, b.name);
        mark(stamps, b.scope, b.name);
        self.made = store_binding(list, self.made, i, b);
    }
}

// The words of an answer to a use.
#[tactic(auto, unfolding(crate::specs::Filled::recorded_words))]
fn answer_entry(id: u32, found: Option<Found>) -> [u32; RECORDED_WIDTH]
    ensures { result ≡ recorded_words (write id (answer found)) }
{
    match found {
        Some(f) => [id, 1, f.variable, f.kind, f.via],
        None => [id, 0, 0, 0, 0],
    }
}

impl Recorded<'_> {
    // The place of the entry with a use id, or where a new one goes.
    fn place(&self, id: u32) -> u32
        requires { Sound self.now }
        ensures { Places self.now id result }
    {
        let is = |i| self.list[i as usize * RECORDED_WIDTH] == id;
        newest_in(self.chains, self.slots, slot(id, self.slots, self.mult), is).unwrap_or(self.made)
    }

    // An answer put into the list.
    pub fn put(&mut self, id: u32, found: Option<Found>)
        requires { Room 1 self.old }
        ensures { Notes 1 (note (write id (answer found))) self.old self.new }
    {
        let i = self.place(id);
        set_entry(self.list, i as usize, answer_entry(id, found));
        if i == self.made {
            hang(self.chains, self.slots, slot(id, self.slots, self.mult), i);
            self.made += 1;
        }
    }
}
