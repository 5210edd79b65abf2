// The findings of a sheet, as a run over it leaves them.
ghost use Rattle.std.specs.Prelude.{ℕ, ◌*◌, ◌^◌, ◌<◌, ◌≤◌, length, get_or};

use finding::{Finding, six_at};
use scope::LOGGED_WIDTH;

// So many findings, no more than a sheet has words, as flat words, six each (finding/specs/Logged): the first ones stand from the front of the words on, the others
// from their end back. The words are the log's, which are lent (no heap), so front and count stand beside them; and so does how many expressions
// 25 the sheet has.
#[derive(Clone, Copy)]
pub struct Found<'a> {
    pub words: &'a [u32],
    pub front: usize,
    pub count: usize,
    pub olds: u32,
    pub ghost few: { count ≤ 2048 },
    pub ghost flat: { count * 6 ≤ length words.now },
    pub ghost small: { (i : ℕ) → get_or words.now i 0 < 2 ^ 32 },
}

impl<'a> Found<'a> {
    ghost use Rattle.std.specs.Prelude.{◌≡◌, ◌+◌};
    ghost use Rattle.finding.specs.Records.{finding_by};
    ghost use Rattle.lines.specs.Given.{word_of, nth};

    // The word where the finding numbered i begins.
    fn word_of(&self, i: usize) -> usize
        requires { i < self.now.count }
        ensures within { result + 6 ≤ length self.now.words.now }
        ensures value { result ≡ word_of self.now.front self.now.words.now i }
    {
        if i < self.front {
            return i * LOGGED_WIDTH;
        }
        self.words.len() - (i - self.front + 1) * LOGGED_WIDTH
    }

    pub fn nth(&self, i: usize) -> Finding
        requires { i < self.now.count }
        ensures { finding_by result ≡ nth self.now i }
    {
        let at = self.word_of(i);
        Finding::from(six_at(self.words, at))
    }
}
