// Strict UTF-8, a byte at a time: the definition is the Unicode table, and the library's reading has a definition of its own.
ghost use Rattle.std.specs.Prelude.{◌≡◌, [], Some, None, cond};
ghost use Rattle.std.proofs.Math.Option.{some};
ghost use Rattle.words.specs.Fnv.{use_id};
ghost use Rattle.words.specs.Utf8.{is_utf8, ranges, step, to, waiting};

use crate::fnv::{OFFSET_BASIS, fnv_step, id_of};

// What is still to come of a sequence: `left` bytes, of which the next lies in lo to hi and any other in 0x80 to 0xBF.
#[derive(Drop)]
pub struct Pending {
    pub left: u8,
    pub lo: u8,
    pub hi: u8,
}

// The answer that `left` bytes are to come, the next in lo to hi.
fn to_come(left: u8, lo: u8, hi: u8) -> Option<Pending>
    ensures { to result ≡ some (ranges left lo hi) }
{
    Some(Pending { left, lo, hi })
}

// A sequence's first byte, by table 3-7: what is to come after it, if it begins one.
#[tactic(auto, using(std::proofs::lemmas::Bool::Decides::nat_tests), unfolding(crate::specs::Utf8::step, crate::specs::Utf8::after))]
fn begin(b: u8) -> Option<Pending>
    ensures { to result ≡ step [] b }
{
    match b {
        0x00..=0x7F => to_come(0, 0x80, 0xBF),
        0xC2..=0xDF => to_come(1, 0x80, 0xBF),
        0xE0 => to_come(2, 0xA0, 0xBF),
        0xE1..=0xEC => to_come(2, 0x80, 0xBF),
        0xED => to_come(2, 0x80, 0x9F),
        0xEE..=0xEF => to_come(2, 0x80, 0xBF),
        0xF0 => to_come(3, 0x90, 0xBF),
        0xF1..=0xF3 => to_come(3, 0x80, 0xBF),
        0xF4 => to_come(3, 0x80, 0x8F),
        _ => None,
    }
}

// The next byte: what is to come after it, if it may stand there.
fn next(p: Pending, b: u8) -> Option<Pending>
    ensures { to result ≡ step (waiting p) b }
{
    let left = p.left;
    if left == 0 {
        return begin(b);
    }
    if b < p.lo || p.hi < b {
        return None;
    }
    to_come(left - 1, 0x80, 0xBF)
}

// The use id of a name, where its bytes are well-formed UTF-8. Both in one loop: names are short, and the end of a loop over each is
// mispredicted.
pub fn name_id(s: &[u8]) -> Option<u32>
    ensures { result ≡ cond (is_utf8 s.now) (Some (use_id s.now)) None }
{
    let mut p = Pending {
        left: 0,
        lo: 0x80,
        hi: 0xBF,
    };
    let mut hash = OFFSET_BASIS;
    for b in s {
        hash = fnv_step(hash, *b);
        // Most bytes stand alone: after one, as before it, nothing is to come.
        if *b < 0x80 && p.left == 0 {
            continue;
        }
        let Some(q) = next(p, *b) else {
            return None;
        };
        p = q;
    }
    if p.left == 0 { Some(id_of(hash)) } else { None }
}

// Whether s is well-formed UTF-8.
pub fn is_utf8(s: &[u8]) -> bool
    ensures { result ≡ is_utf8 s.now }
{
    name_id(s).is_some()
}
