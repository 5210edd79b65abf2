// A number in decimal, without leading zeros.
ghost use Rattle.std.specs.Prelude.{◌≡◌};
ghost use Rattle.words.specs.Decimal.{decimal, width};
ghost use Rattle.words.specs.Front.{put_front, put_length};

// How many digits n has.
pub fn decimal_width(n: u32) -> usize
    ensures { result ≡ width n }
{
    n.checked_ilog10().map_or(1, |k| k as usize + 1)
}

// Writes the digits of n at the front of out and answers how many; 0, and out as it was, where they don't fit: callers go on from there, and
// no number has 0 digits. By hand, from the last digit back: the library's printing into fixed bytes promises no text.
#[tactic(auto, using(std::proofs::lemmas::Bool::Decides::nat_tests, crate::proofs::Digits::written), unfolding(crate::specs::Front::put_front, crate::specs::Front::put_length))]
pub fn put_decimal(n: u32, out: &mut [u8]) -> usize
    ensures { (result ≡ put_length (decimal n) out.old) × (out.new ≡ put_front (decimal n) out.old) }
{
    let k = decimal_width(n);
    if out.len() < k {
        return 0;
    }
    let mut m = n;
    for i in (0..k).rev() {
        out[i] = b'0' + (m % 10) as u8;
        m /= 10;
    }
    k
}
