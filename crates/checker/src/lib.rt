// The check call: a sheet's scopes, bindings, carried names, recorded uses and findings, into lists that are lent; or a refusal (1 to 6, 8),
// which alters none of them. Lists are flat words, an entry each: scopes 4 (kind, parent + 1 or 0, start, end), bindings 7 (scope, name,
// variable, kind, 1 if it replaced one, the variable replaced or 0, the name's mark), carried 4 (barrier, name, variable, mark), recorded 5 (use id, 1
// found or 0 unresolved, variable, kind, via_projection), findings 7 (code, start, end, name + 1 or 0, two details, mark). A name is an index of the
// sheet with the mark 0, or the id of a variable with the mark 1.
#![tactic(auto)]

ghost use Rattle.std.specs.Prelude.{◌≡◌, true, ◌+◌, ◌*◌, ◌/◌, ◌<◌, ◌≤◌, length, take, IfOk, IfErr};
ghost use Rattle.words.specs.Words.{words};
ghost use Rattle.refusal.specs.Number.{number_of};
ghost use Rattle.sheet.specs.Read.{read_sheet, refused};
ghost use Rattle.sheet_walk.specs.Runs.{Clean, Still};
ghost use Rattle.entries.specs.Filled.{filled};
ghost use Rattle.checker.specs.Room.{enough};
ghost use Rattle.checker.specs.Filling.{fitting, Heard, Bindable, Bound, Fitting, Filling, Again};
ghost use Rattle.checker.specs.Checked.{lent, IsStill, roomy, each, Answers, answered, answer_in, left_in, findings_in};

use lists_fill::{Carried, fill_all_findings, fill_bindings, fill_recorded, fill_scopes};
use refusal::Refusal;
use rows::{Index, Rows, multiplier};
use scope::{BINDING_WIDTH, CARRIED_WIDTH, FINDING_WIDTH, RECORDED_WIDTH, SCOPE_WIDTH};
use sheet_walk::{Choice, Scratch, run};
use steps::{Log, Walk};
use words::{count, word};

// How many entries the lists have.
#[derive(Clone, Copy, Debug, PartialEq, Eq)]
pub struct Counts {
    pub scopes: usize,
    pub bindings: usize,
    pub carried: usize,
    pub recorded: usize,
    pub findings: usize,
}

// The five lent lists; findings are flat words, or finding records. Each function that fills them says anew that they are the lent ones still
// (IsStill), since a callee may exchange a field that is a `&mut`.
#[derive(Drop)]
pub struct Lists<'a, F> {
    pub scopes: &'a mut [u32],
    pub bindings: &'a mut [u32],
    pub carried: &'a mut [u32],
    pub recorded: &'a mut [u32],
    pub findings: &'a mut [F],
}

// Whether a list of so many flat words has room for n entries of a width; cause 8 where one has not.
#[tactic(auto, unfolding(crate::specs::Room::enough))]
pub fn has_room(n: usize, len: usize, width: usize) -> bool
    ensures { result ≡ enough n len width }
{
    len.checked_div(width).is_some_and(|room| n <= room)
}

// The first n words of a list, copied to the front of another: of a slice of a struct's list alone it is not known what was copied.
fn copy(from: &[u32], n: usize, to: &mut [u32])
    requires { (n ≤ length from.now) × (n ≤ length to.old) }
    ensures { to.new ≡ filled to.old (take n from.now) }
{
    to[..n].copy_from_slice(&from[..n]);
}

// The bindings of a log and a carried list. A function of its own, since the language has one lifetime for all that a struct lends: tried in `fill`,
// and what the carried list has afterwards was not known.
fn bind(
    rows: Rows,
    list: &[u32],
    taken: u32,
    log: &Log,
    stamps: &mut [u32],
    out: &mut [u32],
) -> usize
    requires { Bindable rows list.now taken log.now stamps.old }
    ensures { Bound rows.entry list.now taken log.now out.old out.new result }
{
    let carried = Carried {
        rows,
        list,
        taken: taken as usize,
    };
    fill_bindings(carried, log, stamps, out)
}

impl Lists<'_, u32> {
    // Whether all five lists have room for n entries each.
    fn have_room(&self, n: usize) -> bool
        ensures { result ≡ roomy (each n) (lent self.now) }
    {
        let a = has_room(n, self.scopes.len(), SCOPE_WIDTH);
        let b = has_room(n, self.bindings.len(), BINDING_WIDTH);
        let c = has_room(n, self.carried.len(), CARRIED_WIDTH);
        let d = has_room(n, self.recorded.len(), RECORDED_WIDTH);
        let e = has_room(n, self.findings.len(), FINDING_WIDTH);
        a & (b & (c & (d & e)))
    }

    // Whether they have room for the answer on a sheet of n words. Scopes, recorded uses and findings never need more than an entry a word.
    fn fit(&self, n: usize, made: u32, taken: u32, room: usize) -> bool
        ensures { result ≡ fitting n made taken (lent self.now) room }
    {
        let a = self.have_room(n);
        let b = n <= room;
        let c = has_room(made as usize, self.bindings.len(), BINDING_WIDTH);
        let d = has_room(taken as usize, self.carried.len(), CARRIED_WIDTH);
        (a & b) & (c & d)
    }

    // All but the carried list, from what a run left and that list; the names' use ids stand in `ids`, and `held` is for stamps and then for chains.
    fn fill(&mut self, s: &[u8], index: Index, scratch: &mut Scratch) -> Counts
        requires { Fitting (words s.now) index scratch.old (lent self.old) }
        ensures still { IsStill self.old self.new }
        ensures fills { Filling (words s.now) index scratch.old (lent self.old) result (lent self.new) }
    {
        let taken = scratch.walk.taken;
        let stamps = &mut *scratch.held;
        let chains = &mut *scratch.chains;
        let ids = &mut *scratch.ids;
        let list = &mut *self.carried;
        let log = &mut scratch.walk.log;
        let scopes = fill_scopes(log, self.scopes);
        let rows = Rows {
            bytes: s,
            chains,
            index,
        };
        let bindings = bind(rows, list, taken, log, stamps, self.bindings);
        let names = word(s, count(s) - 9);
        let uses = &ids[0..names as usize];
        // The multiplier is made from all ids that there are: those of the rows, and the names' use ids.
        let mult = index
            .mult
            .wrapping_mul(multiplier(names, |i| uses[i as usize]));
        let recorded = fill_recorded(log, uses, stamps, mult, self.recorded);
        let findings = fill_all_findings(log, self.findings);
        Counts {
            scopes,
            bindings,
            carried: taken as usize,
            recorded,
            findings,
        }
    }
}

// How many findings a check answers; none where the sheet is refused.
pub fn findings_in(answer: Result<Counts, Refusal>) -> usize
    ensures { result ≡ findings_in (answered answer) }
{
    answer.map_or(0, |counts| counts.findings)
}

// What both walks say of a sheet, every event, and what they carry into a list.
fn listen(
    s: &[u8],
    warns: bool,
    scratch: &mut Scratch,
    carried: &mut [u32],
) -> Result<Index, Refusal>
    requires { Clean (length (words s.now)) scratch.old }
    ensures sized { Still scratch.old scratch.new }
    ensures kept { length carried.new ≡ length carried.old }
    ensures heard { IfOk result (λ x. Heard warns s.now scratch.new carried.old carried.new x) }
    ensures refused { IfErr result (λ refusal. read_sheet s.now ≡ refused (number_of refusal)) }
{
    run(s, Choice { warns, wants: true }, scratch, carried)
}

// The lists, which have room, of a sheet that was run and is accepted: it is run again, into the carried list that is lent.
fn check_again(
    s: &[u8],
    warns: bool,
    scratch: &mut Scratch,
    lists: &mut Lists<u32>,
    room: usize,
) -> Result<Counts, Refusal>
    requires { Again warns s.now scratch.old (lent lists.old) room }
    ensures still { IsStill lists.old lists.new }
    ensures answers { Answers warns s.now (lent lists.old) room result (lent lists.new) }
{
    scratch.chains.fill(0);
    scratch.walk.visible.words.fill(0);
    scratch.walk.rowless.chains.fill(0);
    let index = listen(s, warns, scratch, lists.carried)?;
    Ok(lists.fill(s, index, scratch))
}

// The answer and the lists, with scratch for the sheet's words: its refusal; 8 where one of the lists is short; or they are filled. What is
// carried goes into `kept`, since a sheet that is refused may have carried something; where that is too short, the sheet is run again. Sheet,
// choice, lists and room go from the call down as they came: a struct of them would be taken apart in each.
fn check_in(
    s: &[u8],
    warns: bool,
    scratch: &mut Scratch,
    kept: &mut [u32],
    lists: &mut Lists<u32>,
    room: usize,
) -> Result<Counts, Refusal>
    requires { Clean (length (words s.now)) scratch.old }
    ensures still { IsStill lists.old lists.new }
    ensures answers { Answers warns s.now (lent lists.old) room result (lent lists.new) }
{
    let index = listen(s, warns, scratch, kept)?;
    if !lists.fit(count(s), scratch.walk.made, scratch.walk.taken, room) {
        return Err(Refusal::Entries);
    }
    let n = scratch.walk.taken as usize * CARRIED_WIDTH;
    if kept.len() < n {
        return check_again(s, warns, scratch, lists, room);
    }
    copy(kept, n, lists.carried);
    Ok(lists.fill(s, index, scratch))
}

// With scratch for sheets of up to N words: V, F, H, B and K are the lengths that follow from N, which the language doesn't compute of it. What is
// kept has an entry for three words. No heap: scratch is arrays. One array, cut as crate listing cuts its own, would need one length, but laws of
// the zeros in each part, which are those of listing once more.
fn check_sized<
    const N: usize,
    const V: usize,
    const F: usize,
    const H: usize,
    const B: usize,
    const K: usize,
>(s: &[u8], warns: bool, lists: &mut Lists<u32>, room: usize) -> Result<Counts, Refusal>
    requires few { (length (words s.now) ≤ N) × (N ≤ 2048) }
    requires vis { V ≡ 4 * (N + 2) + B / 2 }
    requires found { F ≡ N * 6 }
    requires held { H ≡ 2 * N }
    requires binders { (N < 3 * (B / 2)) × (B ≤ 4096) }
    requires kept { K ≡ N / 3 * 4 }
    ensures still { IsStill lists.old lists.new }
    ensures answers { Answers warns s.now (lent lists.old) room result (lent lists.new) }
{
    let mut places = [0u32; N];
    let mut ids = [0u32; N];
    let mut chains = [0u32; N];
    let mut marks = [0u32; N];
    let mut held = [0u32; H];
    let mut visible = [0u32; V];
    let mut said = [0u32; F];
    let mut slots = [0u32; B];
    let mut entries = [0u32; B];
    let mut kept = [0u32; K];
    let mut scratch = Scratch {
        places: &mut places,
        ids: &mut ids,
        chains: &mut chains,
        marks: &mut marks,
        held: &mut held,
        walk: Walk::new(&mut visible, &mut said, &mut slots, &mut entries),
    };
    check_in(s, warns, &mut scratch, &mut kept, lists, room)
}

// A sheet of any size, with scratch for 1,024 words at least. Its frame is that of the largest scratch, and is touched page by page.
#[inline(never)]
fn check_large(
    s: &[u8],
    warns: bool,
    lists: &mut Lists<u32>,
    room: usize,
) -> Result<Counts, Refusal>
    ensures still { IsStill lists.old lists.new }
    ensures answers { Answers warns s.now (lent lists.old) room result (lent lists.new) }
{
    match s.len() {
        0..=4096 => check_sized::<1024, 4446, 6144, 2048, 684, 1364>(s, warns, lists, room),
        4097..=8192 => check_sized::<2048, 8883, 12288, 4096, 1366, 2728>(s, warns, lists, room),
        _ => Err(Refusal::Size),
    }
}

// The check call, warnings on or off. Its findings are flat words, for a list of finding records that has room for so many. Scratch is
// sized to the sheet, since clearing it costs a small sheet more than its check.
pub fn check_words(
    s: &[u8],
    warns: bool,
    lists: &mut Lists<u32>,
    room: usize,
) -> Result<Counts, Refusal>
    ensures still { IsStill lists.old lists.new }
    ensures answers { answered result ≡ answer_in warns s.now (lent lists.old) room }
    ensures leaves { lent lists.new ≡ left_in warns s.now (lent lists.old) room }
{
    match s.len() {
        0..=256 => check_sized::<64, 286, 384, 128, 44, 84>(s, warns, lists, room),
        257..=1024 => check_sized::<256, 1118, 1536, 512, 172, 340>(s, warns, lists, room),
        _ => check_large(s, warns, lists, room),
    }
}
