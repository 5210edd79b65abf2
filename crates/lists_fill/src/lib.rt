// Four of the five lists, filled from the log that both walks left and from the carried list: scopes and findings as they come, bindings and
// recorded uses with the first making giving the place and the last one the value. Each list has a loop and an adder of its own, as it has a
// definition and a law of its own; kinds are numbers, as the lists have them. Loops go by index and not over chunks: tried, and it cost a law and
// an answer file more. A list and its number of entries are two parameters: of a struct with both, each adder, each loop and each filler would have
// to say besides that the list is the lent one still, as those of Bindings and Recorded do, which have more beside their lists.
#![tactic(auto)]

ghost use Rattle.std.specs.Prelude.{◌≡◌, [], ◌++◌, ℕ, ◌+◌, ◌*◌, ◌≤◌, length};
ghost use Rattle.scope.specs.Flat.{scope_width, parent_of};
ghost use Rattle.semantics.specs.Log.{scope_of, bind_of, answer_of, find_of, scopes_in, answers_in, finds_in};
ghost use Rattle.semantics.specs.Lists.{notes};
ghost use Rattle.steps.specs.Said.{answered, event_at};
ghost use Rattle.finding.specs.Flat.{finding_width, finding_words};
ghost use Rattle.entries.specs.Filled.{scope_words, recorded_words};
ghost use Rattle.entries.specs.Adding.{Holds, Becomes, after, answer};
ghost use Rattle.entries.specs.Stamps.{Makes, Fits, IsStill, kept};
ghost use Rattle.entries.specs.Chains.{Room, Notes};
ghost use Rattle.lists_fill.specs.Said.{id_in, events_in, told_in, all_in, all_told, Recordable};
ghost use Rattle.lists_fill.specs.Adding.{said};
ghost use Rattle.lists_fill.specs.Weaving.{barrier_in, Ready, Adopts, Weaves, bound_in, Weavable, Makings};

use entries::{Binding, Bindings, Found, Recorded, set_entry};
use finding::{Finding, six_at, words_at};
use rows::{Rows, empty};
use scope::{CARRIED_WIDTH, LOGGED_WIDTH, Name, ScopeKind};
use steps::{Log, Sort};

// The use id of no bytes.
const NO_NAME: u32 = 4276314682;

// What the name walk left: a scope that it opened, a binding that it made, the use of a variable or of a name that it recorded, or a finding. A
// binding's flag, whether it replaces another, is the event's; no list is filled by it, since `put` sees for itself what it replaces.
#[derive(Clone, Copy)]
enum Logged {
    Scope(u32, u32, u32, u32),
    Binding(bool, Binding),
    Variable(Found),
    Name(u32, Option<Found>),
    Finding(Finding),
}

// A use that is found, where the flag is not 0.
fn found_if(flag: u32, variable: u32, kind: u32, via: u32) -> Option<Found>
    ensures { answer result ≡ answered flag variable kind via }
{
    if flag == 0 {
        return None;
    }
    Some(Found {
        variable,
        kind,
        via,
    })
}

impl From<[u32; LOGGED_WIDTH]> for Logged {
    ghost from_gives = { λ words logged. (id : ℕ → ℕ) → said id logged ≡ event_at id words 0 };

    fn from(words: [u32; LOGGED_WIDTH]) -> Logged {
        let [sort, a, b, c, d, e] = words;
        let binding = Binding {
            scope: a,
            name: Name { mark: e, word: b },
            variable: c,
            kind: d,
        };
        match Sort::try_from(sort) {
            Ok(Sort::Scope) => Logged::Scope(a, b, c, d),
            Ok(Sort::Binding) => Logged::Binding(false, binding),
            Ok(Sort::Rebinding) => Logged::Binding(true, binding),
            Ok(Sort::Variable) => Logged::Variable(Found {
                variable: a,
                kind: b,
                via: 0,
            }),
            Ok(Sort::Name) => Logged::Name(a, found_if(b, c, d, e)),
            Err(_) => Logged::Finding(Finding::from(words)),
        }
    }
}

// What was left as the event numbered i.
fn logged_at(found: &[u32], i: usize) -> Logged
    requires { (i + 1) * 6 ≤ length found.now }
    ensures { (id : ℕ → ℕ) → said id result ≡ event_at id found.now (i * 6) }
{
    Logged::from(six_at(found, i * LOGGED_WIDTH))
}

// The scope that an event opens, after m others; how many there are then.
fn add_scope(out: &mut [u32], m: usize, e: Logged) -> usize
    requires { (m + 1) * scope_width ≤ length out.old }
    ensures { (id : ℕ → ℕ) → Becomes 1 scope_words (after (scope_of (said id e))) out.old out.new m result }
{
    match e {
        Logged::Scope(kind, parent, start, end) => {
            set_entry(out, m, [kind, parent, start, end]);
            m + 1
        }
        _ => m,
    }
}

// The scopes of all events; how many there are.
pub fn fill_scopes(log: &Log, out: &mut [u32]) -> usize
    requires { (log.now.said * 6 ≤ length log.now.words.now) × (log.now.said * scope_width ≤ length out.old) }
    ensures { (id : ℕ → ℕ) → Holds scope_words out.old out.new result (scopes_in (all_in id log.now)) }
{
    let mut m = 0;
    for i in 0..log.said as usize {
        m = add_scope(out, m, logged_at(log.words, i));
    }
    m
}

// The finding that an event is, where it is of none of the other sorts, after m others.
fn add_finding(out: &mut [u32], m: usize, e: Logged) -> usize
    requires { (m + 1) * finding_width ≤ length out.old }
    ensures { (id : ℕ → ℕ) → Becomes 1 finding_words (after (find_of (said id e))) out.old out.new m result }
{
    match e {
        Logged::Finding(f) => {
            words_at(out, m, f);
            m + 1
        }
        _ => m,
    }
}

// The findings of n events.
fn fill_findings(found: &[u32], n: usize, out: &mut [u32]) -> usize
    requires { (n * 6 ≤ length found.now) × (n * finding_width ≤ length out.old) }
    ensures { (result ≤ n) × ((id : ℕ → ℕ) → Holds finding_words out.old out.new result (finds_in (events_in id n found.now))) }
{
    let mut m = 0;
    for i in 0..n {
        m = add_finding(out, m, logged_at(found, i));
    }
    m
}

// The parent's word of a Root that an event opens: the number + 1 of the WITH's barrier above it, or 0. That is the Root's own number too, since
// a Root is opened right after its barrier. It stays the list's word, of which the definition takes parent_of.
fn root_of(e: Logged) -> u32
    ensures { (id : ℕ → ℕ) → parent_of result ≡ barrier_in (said id e) }
{
    match e {
        Logged::Scope(kind, parent, _, _) => {
            if kind == ScopeKind::Root as u32 {
                return parent;
            }
            0
        }
        _ => 0,
    }
}

// The carried list of a sheet with its rows, and how many entries it has. Ready is a fact of it, of how many entries are met and of the bindings
// together, and no invariant of one.
#[derive(Clone, Copy)]
pub struct Carried<'a> {
    pub rows: Rows<'a>,
    pub list: &'a [u32],
    pub taken: usize,
}

impl Carried<'_> {
    // What the barrier above a Root carries, of the entries from c on, bound in the Root; nothing where there is none. How many are met then.
    fn adopt(self, c: usize, root: u32, bindings: &mut Bindings) -> usize
        requires { Ready self c (kept bindings.old) }
        ensures still { IsStill bindings.old bindings.new }
        ensures adopts { Adopts self.entry c root (kept bindings.old) (kept bindings.new) result }
    {
        if root == 0 {
            return c;
        }
        for p in c..self.taken {
            let q = p * CARRIED_WIDTH;
            if self.list[q] != root - 1 {
                return p;
            }
            let variable = self.list[q + 2];
            bindings.put(Binding {
                scope: root,
                name: Name {
                    mark: self.list[q + 3],
                    word: self.list[q + 1],
                },
                variable,
                kind: self.rows.kind(variable),
            });
        }
        self.taken
    }

    // All that an event binds: what is carried over its barrier, or its own.
    fn weave(self, c: usize, e: Logged, bindings: &mut Bindings) -> usize
        requires { Ready self c (kept bindings.old) }
        ensures still { IsStill bindings.old bindings.new }
        ensures weaves { Weaves self.entry c e (kept bindings.old) (kept bindings.new) result }
    {
        let met = self.adopt(c, root_of(e), bindings);
        add_binding(e, bindings);
        met
    }

    // All that n events bind.
    fn weave_all(self, found: &[u32], n: usize, bindings: &mut Bindings)
        requires told { n * 6 ≤ length found.now }
        requires ready { Ready self 0 (kept bindings.old) }
        ensures still { IsStill bindings.old bindings.new }
        ensures makes { (id : ℕ → ℕ) → Makes (bound_in self.entry n found.now id) (kept bindings.old) (kept bindings.new) }
    {
        let mut c = 0;
        for i in 0..n {
            c = self.weave(c, logged_at(found, i), bindings);
        }
    }
}

// The binding that an event makes.
fn add_binding(e: Logged, bindings: &mut Bindings)
    requires { Fits (kept bindings.old) }
    ensures still { IsStill bindings.old bindings.new }
    ensures makes { (id : ℕ → ℕ) → Makes (bind_of (said id e)) (kept bindings.old) (kept bindings.new) }
{
    match e {
        Logged::Binding(_, b) => bindings.put(b),
        _ => (),
    }
}

// The bindings of all events, with what WITHs carry, where the list has room for them.
pub fn fill_bindings(carried: Carried, log: &Log, stamps: &mut [u32], out: &mut [u32]) -> usize
    requires { Weavable carried log.now stamps.old }
    ensures { Makings carried.entry log.now out.old out.new result }
{
    stamps[0] = 0;
    let mut bindings = Bindings {
        list: out,
        made: 0,
        stamps,
    };
    carried.weave_all(log.words, log.said as usize, &mut bindings);
    bindings.made
}

// The use id of a name.
fn use_of(uses: &[u32], name: u32) -> u32
    ensures { result ≡ id_in uses.now name }
{
    uses.get(name as usize).copied().unwrap_or(NO_NAME)
}

// The answer that an event records, where a name's use id is known.
fn add_answer(uses: &[u32], e: Logged, recorded: &mut Recorded)
    requires { Room 1 recorded.old }
    ensures { Notes 1 (notes (answer_of (said (id_in uses.now) e))) recorded.old recorded.new }
{
    match e {
        Logged::Variable(f) => recorded.put(f.variable, Some(f)),
        Logged::Name(name, found) => recorded.put(use_of(uses, name), found),
        _ => (),
    }
}

// The answers that n events record.
fn add_answers(found: &[u32], n: usize, uses: &[u32], recorded: &mut Recorded)
    requires { (n * 6 ≤ length found.now) × Room n recorded.old }
    ensures { Notes n (notes (answers_in (events_in (id_in uses.now) n found.now))) recorded.old recorded.new }
{
    for i in 0..n {
        add_answer(uses, logged_at(found, i), recorded);
    }
}

// The recorded uses of all events, with chains in lent words and a multiplier for their ids.
pub fn fill_recorded(
    log: &Log,
    uses: &[u32],
    chains: &mut [u32],
    mult: u32,
    out: &mut [u32],
) -> usize
    requires { Recordable log.now chains.old out.old }
    ensures { Holds recorded_words out.old out.new result (notes (answers_in (all_in (id_in uses.now) log.now)) []) }
{
    let n = log.said as usize;
    let slots = empty(chains, n);
    let mut recorded = Recorded {
        list: out,
        made: 0,
        chains,
        slots,
        mult,
    };
    add_answers(log.words, n, uses, &mut recorded);
    recorded.made as usize
}

// k findings of the kind walk, which stand at the back, after m that there are; how many there are then. From
// the back as in lines::Found, which stands above the log and counts both ends as one row.
fn append_findings(found: &[u32], k: usize, out: &mut [u32], m: usize) -> usize
    requires { (k * 6 ≤ length found.now) × ((m + k) * finding_width ≤ length out.old) }
    ensures { Becomes k finding_words (after (told_in k found.now)) out.old out.new m result }
{
    for i in 0..k {
        let told = Finding::from(six_at(found, found.len() - (i + 1) * LOGGED_WIDTH));
        words_at(out, m + i, told);
    }
    m + k
}

// The findings of all events, and after them those of the kind walk.
pub fn fill_all_findings(log: &Log, out: &mut [u32]) -> usize
    requires { ((log.now.said + log.now.told) * 6 ≤ length log.now.words.now) × ((log.now.said + log.now.told) * finding_width ≤ length out.old) }
    ensures { (id : ℕ → ℕ) → Holds finding_words out.old out.new result (finds_in (all_in id log.now) ++ all_told log.now) }
{
    let m = fill_findings(log.words, log.said as usize, out);
    append_findings(log.words, log.told as usize, out, m)
}
