// The reader of a condition's text.
//
// A text is read from its end: an operator whose sign stands before its operand is then met when the operand is done, and entries in prefix
// order are written from the last to the first.
#![tactic(auto)]

mod judging;
mod machine;
mod window;

ghost use Rattle.condition_reader.specs.Fill.{Fillable, Filled};
ghost use Rattle.condition_reader.specs.Read.{Counts, ReadAs};

use condition_lexer::last_token;
use judging::judge;
use machine::Machine;
use refusal::Refusal;
use window::LEVELS;

// The number of entries of a text that reads: every level of brackets is looked at in some pass.
fn count(text: &[u8]) -> Option<usize>
    ensures { Counts text.now result }
{
    let mut low: usize = 0;
    // A pass for as many levels as the window has, until all were looked at.
    loop {
        let judged = judge(text, low)?;
        if judged.deepest - low < LEVELS {
            return Some(judged.entries);
        }
        low += LEVELS;
    }
}

// The entries of a text that reads, at the front of a list.
fn fill(text: &[u8], entries: usize, list: &mut [u64])
    requires { Fillable text.now entries list.old }
    ensures { Filled text.now entries list.old list.new }
{
    let mut machine = Machine::new(list, entries);
    let mut rest = text;
    // Token by token from the end: each turn says where the next begins.
    while let Some((token, before)) = last_token(rest) {
        machine.take(token);
        rest = before;
    }
    machine.unwind(0);
}

// Reads a condition's text into the front of a lent list, two words an entry, and answers how many entries there are, or none where the text
// doesn't read. A list with fewer entries than the text has bytes is refused. It is flat lent words, as other lists are: no heap.
pub fn read_condition(text: &[u8], list: &mut [u64]) -> Result<Option<usize>, Refusal>
    ensures { ReadAs text.now list.old list.new result }
{
    if list.len() / 2 < text.len() {
        return Err(Refusal::Room);
    }
    let Some(entries) = count(text) else {
        return Ok(None);
    };
    fill(text, entries, list);
    Ok(Some(entries))
}
