// A sheet on standard input, and the check call that fills a list of finding records, warnings on. Of a list of 2,048 marker records
// the call is lent as many as the sheet has words, and then one fewer. Each time: the records, or the refusal, and how many entries past
// their count are still the marker. No heap: what is read and written goes through arrays of the largest size.
#![tactic(auto)]

ghost use Rattle.std.specs.Prelude.{◌≡◌, true, ◌≤◌, length};
ghost use Rattle.checker.specs.Checked.{lent, IsStill, answered};
ghost use Rattle.records.specs.Checked.{answer_for, left_for};
ghost use Rattle.checked.specs.Ran.{lent_with, marked, Ran};

use checker::{Counts, Lists, findings_in};
use finding::{Finding, load_all};
use records::check;
use refusal::Refusal;
use scope::{BINDING_WIDTH, CARRIED_WIDTH, FINDING_WIDTH, RECORDED_WIDTH, SCOPE_WIDTH};
use show::show_records;
use std::io;
use std::io::Write;

// A word of the marker record, which is no finding's code.
const MARK: u32 = 7;

const MARKER: Finding = Finding {
    code: MARK,
    start: MARK,
    end: MARK,
    name: MARK,
    one: MARK,
    two: MARK,
    mark: MARK,
};

// The check call with a list of records in place of the flat findings, which stay as they are.
fn check_into(s: &[u8], lists: &mut Lists<u32>, records: &mut [Finding]) -> Result<Counts, Refusal>
    ensures still { IsStill lists.old lists.new }
    ensures flat { lists.new.findings.now ≡ lists.old.findings.now }
    ensures answers { answered result ≡ answer_for true s.now (lent_with (lent lists.old) records.old) }
    ensures leaves { records.new ≡ (left_for true s.now (lent_with (lent lists.old) records.old)).findings }
{
    // Field by field: what a method's result borrows from a field isn't known afterwards.
    let mut with_records = Lists {
        scopes: lists.scopes,
        bindings: lists.bindings,
        carried: lists.carried,
        recorded: lists.recorded,
        findings: records,
    };
    check(s, true, &mut with_records)
}

// The check call with the first n entries of a list of 2,048 records f; then all 2,048 of them, as flat findings.
fn run(s: &[u8], n: usize, f: Finding, lists: &mut Lists<u32>) -> Result<Counts, Refusal>
    requires few { n ≤ 2048 }
    requires room { 14336 ≤ length lists.old.findings.now }
    ensures still { IsStill lists.old lists.new }
    ensures ran { Ran s.now (marked (lent lists.old) n f) n f result lists.old.findings.now lists.new.findings.now }
{
    let mut list = [f; 2048];
    let answer = check_into(s, lists, &mut list[0..n]);
    load_all(lists.findings, &list, 2048);
    answer
}

// How many of the entries from a place on are the marker.
fn markers(flat: &[u32], from: usize) -> usize {
    let (entries, _) = flat.as_chunks::<FINDING_WIDTH>();
    entries
        .iter()
        .skip(from)
        .filter(|entry| **entry == [MARK; FINDING_WIDTH])
        .count()
}

// A check call with a list of n records. (`show` makes the same five arrays: a struct that owned them would lend them by a method, and
// what a method's result borrows from a field isn't known afterwards.)
fn report<W: Write>(out: &mut W, s: &[u8], n: usize) -> io::Result<()>
    requires { n ≤ 2048 }
{
    let mut scopes = [0u32; 2048 * SCOPE_WIDTH];
    let mut bindings = [0u32; 2048 * BINDING_WIDTH];
    let mut carried = [0u32; 2048 * CARRIED_WIDTH];
    let mut recorded = [0u32; 2048 * RECORDED_WIDTH];
    let mut findings = [0u32; 2048 * FINDING_WIDTH];
    let mut lists = Lists {
        scopes: &mut scopes,
        bindings: &mut bindings,
        carried: &mut carried,
        recorded: &mut recorded,
        findings: &mut findings,
    };
    let answer = run(s, n, MARKER, &mut lists);
    match answer {
        Ok(counts) => show_records(out, &findings, counts.findings)?,
        Err(refusal) => writeln!(out, "{refusal}")?,
    }
    let untouched = markers(&findings, findings_in(answer));
    writeln!(out, "untouched {untouched}")
}

fn main(rt: HostRuntime) -> io::Result<()> {
    let mut room = [0u8; 8193];
    let n = streams::read_full(&mut rt.stdin(), &mut room)?;
    let mut out = rt.stdout();
    report(&mut out, &room[0..n], n / 4)?;
    if n < 4 {
        return Ok(());
    }
    report(&mut out, &room[0..n], n / 4 - 1)
}
