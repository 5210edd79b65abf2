// How long a line is, before it is laid.
ghost use Rattle.std.specs.Prelude.{◌≡◌, ◌+◌, ◌≤◌, length};
ghost use Rattle.words.specs.Decimal.{width};
ghost use Rattle.texts.specs.Codes.{text_for};
ghost use Rattle.lines.specs.Lines.{said_text, line_for, old_line};

use finding::Finding;
use texts::{text_for, text_len};
use words::decimal_width;

// The length of the code's digits and the message. A code that has a text has four digits.
fn said_len(f: Finding, x: &[u8]) -> usize
    requires { length x.now ≤ 8192 }
    ensures { result ≡ width f.code + length (said_text (text_for f.code f.one) x.now f.two) }
{
    match text_for(f.code, f.one) {
        Some(t) => 4 + text_len(t, x, f.two),
        None => decimal_width(f.code),
    }
}

// `E`, three blanks and a line feed, and what stands between them.
#[tactic(auto, using(crate::proofs::Sizes::widths))]
pub fn line_len(f: Finding, x: &[u8]) -> usize
    requires { length x.now ≤ 8192 }
    ensures { result ≡ length (line_for f.code f.start f.end f.one f.two x.now) }
{
    5 + decimal_width(f.start) + decimal_width(f.end) + said_len(f, x)
}

// `old exists `, a line feed, and the number between them; nothing for 0.
pub fn old_len(n: u32) -> usize
    ensures { result ≡ length (old_line n) }
{
    if n == 0 {
        return 0;
    }
    12 + decimal_width(n)
}
