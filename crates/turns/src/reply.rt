// A line of output: what a line of input does, and the text that says so, in lent bytes. The definition is specs/Reply.antt.
ghost use Rattle.std.specs.Prelude.{◌≡◌, ◌+◌, ◌≤◌, ◌++◌, length};
ghost use Rattle.dispatcher.specs.Words.{state_of};
ghost use Rattle.turns.specs.Command.{command_of};
ghost use Rattle.turns.specs.Reply.{field, added_text, taken_text, does};

use crate::PAGE;
use crate::line::{Command, read};
use crate::text::Text;
use dispatcher::{AddError, Served, Taken, add, take};
use words::put_decimal;

// Puts a number and the byte after it. Its digits are those of `words`: the library's printing into fixed bytes promises no text.
fn put_field(page: &mut Text<PAGE>, n: u32, after: u8)
    requires { length page.old + 11 ≤ 4096 }
    ensures text { page.new ≡ page.old ++ field n after }
    ensures most { length page.new ≤ length page.old + 11 }
{
    let mut digits = [0; 10];
    let k = put_decimal(n, &mut digits);
    page.put(&digits[..k]);
    page.put(&[after]);
}

fn put_added(page: &mut Text<PAGE>, answer: Result<(), AddError>)
    requires { length page.old + 19 ≤ 4096 }
    ensures { page.new ≡ page.old ++ added_text answer }
{
    match answer {
        Ok(()) => page.put(b"ok\n"),
        Err(cause) => {
            page.put(b"refused ");
            put_field(page, u32::from(cause), b'\n');
        }
    }
}

fn put_taken(page: &mut Text<PAGE>, answer: Taken)
    requires { length page.old + 40 ≤ 4096 }
    ensures { page.new ≡ page.old ++ taken_text answer }
{
    match answer.served {
        Some(Served { queue, item }) => {
            page.put(b"served ");
            put_field(page, queue, b' ');
            put_field(page, item, b' ');
        }
        None => page.put(b"none "),
    }
    put_field(page, answer.steps, b'\n');
}

// Does what a line asks, and puts the line that answers it.
pub fn reply(line: &[u8], words: &mut [u32; 577], page: &mut Text<PAGE>)
    requires { length page.old + 40 ≤ 4096 }
    ensures text { page.new ≡ page.old ++ (does (command_of line.now) (state_of words.old)).0 }
    ensures state { state_of words.new ≡ (does (command_of line.now) (state_of words.old)).1 }
{
    match read(line) {
        Some(Command::Add(queue, item)) => put_added(page, add(words, queue, item)),
        Some(Command::Take) => put_taken(page, take(words)),
        None => page.put(b"unread\n"),
    }
}
