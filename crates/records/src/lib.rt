// The check call with its findings in a lent list of finding records: the core's flat findings are stored one by one. No heap: they stand in an
// array of the largest size.
#![tactic(auto)]

ghost use Rattle.std.specs.Prelude.{◌≡◌};
ghost use Rattle.checker.specs.Checked.{lent, IsStill, answered};
ghost use Rattle.records.specs.Checked.{answer_for, left_for};

use checker::{Counts, Lists, check_words, findings_in};
use finding::{Finding, store_all};
use refusal::Refusal;
use scope::FINDING_WIDTH;

// Flat words for as many findings as the largest sheet has words.
const FLAT: usize = 2048 * FINDING_WIDTH;

// The check call, warnings on or off: the lists' counts, or a refusal, 1 to 6 and 8, which alters none of them.
pub fn check(s: &[u8], warns: bool, lists: &mut Lists<Finding>) -> Result<Counts, Refusal>
    ensures still { IsStill lists.old lists.new }
    ensures answers { answered result ≡ answer_for warns s.now (lent lists.old) }
    ensures leaves { lent lists.new ≡ left_for warns s.now (lent lists.old) }
{
    let mut flat = [0u32; FLAT];
    // Field by field: what a method's result borrows from a field isn't known afterwards.
    let mut core = Lists {
        scopes: lists.scopes,
        bindings: lists.bindings,
        carried: lists.carried,
        recorded: lists.recorded,
        findings: &mut flat,
    };
    let answer = check_words(s, warns, &mut core, lists.findings.len());
    store_all(lists.findings, &flat, findings_in(answer));
    answer
}
