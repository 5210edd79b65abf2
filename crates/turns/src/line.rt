// A line of input: what it asks. The definition is specs/Command.antt.
ghost use Rattle.std.specs.Prelude.{◌≡◌, ◌==◌, position};
ghost use Rattle.turns.specs.Command.{digits_from, number_of, pair_of, command_of};

// What a line asks.
#[derive(Clone, Copy, Debug, PartialEq, Eq)]
pub enum Command {
    Add(u32, u32),
    Take,
}

// The number that digits write. By hand: the library's `parse` reads a str and takes a plus sign before the digits.
fn value(digits: &[u8]) -> Option<u32>
    ensures { result ≡ digits_from 0 digits.now }
{
    let mut value: u32 = 0;
    for digit in digits {
        if !digit.is_ascii_digit() {
            return None;
        }
        value = value
            .checked_mul(10)?
            .checked_add(u32::from(*digit - b'0'))?;
    }
    Some(value)
}

// The number that a text writes: digits without a zero before others.
fn number(text: &[u8]) -> Option<u32>
    ensures { result ≡ number_of text.now }
{
    let (first, others) = text.split_first()?;
    if *first != b'0' {
        return value(text);
    }
    others.is_empty().then_some(0)
}

// Where the first blank stands.
fn first_blank(text: &[u8]) -> Option<usize>
    ensures { result ≡ position (λ byte. byte == 32) text.now }
{
    text.iter().position(|byte| *byte == b' ')
}

// A queue's number, a blank and an item.
fn pair(text: &[u8]) -> Option<Command>
    ensures { result ≡ pair_of text.now }
{
    let blank = first_blank(text)?;
    let queue = number(&text[..blank])?;
    let item = number(&text[blank + 1..])?;
    Some(Command::Add(queue, item))
}

// What a line asks; None where it is no command.
pub fn read(line: &[u8]) -> Option<Command>
    ensures { result ≡ command_of line.now }
{
    if line == b"take".as_slice() {
        return Some(Command::Take);
    }
    pair(line.strip_prefix(b"add ")?)
}
