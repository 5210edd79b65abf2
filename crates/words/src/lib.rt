// Bytes and words: little-endian words read in place, FNV-1 and the use id, strict UTF-8, decimal digits.
//
// No function here has a `requires`.
#![tactic(auto)]

mod decimal;
mod fnv;
mod utf8;

ghost use Rattle.std.specs.Prelude.{◌≡◌, length, get_or};
ghost use Rattle.words.specs.Words.{words, le32};

pub use decimal::{decimal_width, put_decimal};
pub use fnv::{fnv1, use_id};
pub use utf8::{is_utf8, name_id};

// The little-endian word of four bytes.
pub fn join(a: u8, b: u8, c: u8, d: u8) -> u32
    ensures { result ≡ le32 a b c d }
{
    u32::from_le_bytes([a, b, c, d])
}

// How many whole words s has.
#[tactic(auto, using(crate::proofs::Words::word_laws))]
pub fn count(s: &[u8]) -> usize
    ensures { result ≡ length (words s.now) }
{
    s.len() / 4
}

// The word number at of s; 0 past the last.
#[tactic(auto, using(crate::proofs::Words::word_laws))]
pub fn word(s: &[u8], at: usize) -> u32
    ensures { result ≡ get_or (words s.now) at 0 }
{
    s.as_chunks::<4>()
        .0
        .get(at)
        .map_or(0, |bytes| u32::from_le_bytes(*bytes))
}
