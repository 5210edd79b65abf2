// A line, laid piece by piece. A code is a number, since a list's words may be no finding's. A place and the lent bytes go from piece to piece,
// as in `texts`, and no struct of them: a fixed piece is then a few stores, and a struct's end would be memory.
ghost use Rattle.std.specs.Prelude.{◌≡◌, [], ◌∷◌, ◌++◌, ◌+◌, ◌≤◌, length, IfSome};
ghost use Rattle.words.specs.Decimal.{decimal};
ghost use Rattle.texts.specs.Bytes.{bytes};
ghost use Rattle.texts.specs.Laid.{Lays};
ghost use Rattle.texts.specs.Codes.{text_for};
ghost use Rattle.lines.specs.Lines.{said_text, front, line_for, old_line};

use finding::Finding;
use texts::{lay, text_for, write_text};
use words::put_decimal;

// The digits of n; one alone is no division.
fn lay_digits(n: u32, at: usize, out: &mut [u8]) -> usize
    requires { at + length (decimal n) ≤ length out.old }
    ensures { Lays (decimal n) out.old at out.new result }
{
    if n < 10 {
        return lay(&[b'0' + n as u8], at, out);
    }
    at + put_decimal(n, &mut out[at..])
}

// A number and a byte after it.
pub fn lay_number(n: u32, end: u8, at: usize, out: &mut [u8]) -> usize
    requires { at + (length (decimal n) + 1) ≤ length out.old }
    ensures { Lays (decimal n ++ end ∷ []) out.old at out.new result }
{
    let p = lay_digits(n, at, out);
    lay(&[end], p, out)
}

// `E`, the code and a blank, for the codes that there are: their digits then take no division.
fn known_code(code: u32) -> Option<[u8; 6]>
    ensures { IfSome result (λ text. text ≡ bytes "E" ++ (decimal code ++ bytes " ")) }
{
    match code {
        1001 => Some(*b"E1001 "),
        1002 => Some(*b"E1002 "),
        2007 => Some(*b"E2007 "),
        2008 => Some(*b"E2008 "),
        2011 => Some(*b"E2011 "),
        5010 => Some(*b"E5010 "),
        5011 => Some(*b"E5011 "),
        _ => None,
    }
}

// `E`, the code and a blank.
fn lay_code(code: u32, out: &mut [u8]) -> usize
    requires { 2 + length (decimal code) ≤ length out.old }
    ensures { Lays (bytes "E" ++ (decimal code ++ bytes " ")) out.old 0 out.new result }
{
    if let Some(text) = known_code(code) {
        return lay(&text, 0, out);
    }
    let p = lay(b"E", 0, out);
    lay_number(code, b' ', p, out)
}

// `E` and the code, start, end, and a blank after each.
#[tactic(auto, using(crate::proofs::Sizes::sizes))]
fn lay_front(f: Finding, out: &mut [u8]) -> usize
    requires { length (front f.code f.start f.end) ≤ length out.old }
    ensures { Lays (front f.code f.start f.end) out.old 0 out.new result }
{
    let a = lay_code(f.code, out);
    let b = lay_number(f.start, b' ', a, out);
    lay_number(f.end, b' ', b, out)
}

// The message of a finding whose name is x.
fn lay_said(f: Finding, x: &[u8], out: &mut [u8]) -> usize
    requires { length (said_text (text_for f.code f.one) x.now f.two) ≤ length out.old }
    ensures { Lays (said_text (text_for f.code f.one) x.now f.two) out.old 0 out.new result }
{
    match text_for(f.code, f.one) {
        Some(t) => write_text(t, x, f.two, out),
        None => 0,
    }
}

#[tactic(auto, using(crate::proofs::Sizes::sizes))]
pub fn lay_line(f: Finding, x: &[u8], out: &mut [u8]) -> usize
    requires { length (line_for f.code f.start f.end f.one f.two x.now) ≤ length out.old }
    ensures { Lays (line_for f.code f.start f.end f.one f.two x.now) out.old 0 out.new result }
{
    let a = lay_front(f, out);
    let b = a + lay_said(f, x, &mut out[a..]);
    lay(b"\n", b, out)
}

// The first line, `findings` and their number.
pub fn lay_head(n: u32, page: &mut [u8]) -> usize
    requires { 10 + length (decimal n) ≤ length page.old }
    ensures { Lays (bytes "findings " ++ (decimal n ++ bytes "\n")) page.old 0 page.new result }
{
    let a = lay(b"findings ", 0, page);
    lay_number(n, b'\n', a, page)
}

// The last line, `old exists` and how many of them there are: none for 0.
pub fn lay_old(n: u32, out: &mut [u8]) -> usize
    requires { length (old_line n) ≤ length out.old }
    ensures { Lays (old_line n) out.old 0 out.new result }
{
    if n == 0 {
        return 0;
    }
    let a = lay(b"old exists ", 0, out);
    lay_number(n, b'\n', a, out)
}
