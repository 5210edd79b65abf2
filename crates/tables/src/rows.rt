// Bindings: variable id, name, kind, start, end, five words each.
ghost use Rattle.std.specs.Prelude.{◌≡◌, ℕ, ◌+◌, ◌*◌, ◌≤◌, length, drop};
ghost use Rattle.words.specs.Words.{words};
ghost use Rattle.heads.specs.Answer.{words_of, is_in, row_ids};
ghost use Rattle.tables.specs.Distinct.{distinct};
ghost use Rattle.tables.specs.Row as tree;
ghost use Rattle.tables.specs.Row.{read_row};

use crate::kind::VarKind;
use heads::{Item, Section};
use refusal::Refusal;
use words::word;

// A binding.
pub struct Row;

impl Item for Row {
    ghost Tree = { tree.Row };

    ghost one = { read_row };

    #[tactic(auto, using(heads::proofs::Reading::steps), unfolding(crate::specs::Row::read_row))]
    fn read(section: &Section, at: usize) -> Result<usize, Refusal> {
        let (_, at) = section.any_word(at)?;
        let (_, at) = section.word_in(at, 0, section.names as u64)?;
        let (_, at) = section.word_in(at, VarKind::Node as u32, VarKind::Value as u64 + 1)?;
        let (start, at) = section.any_word(at)?;
        let (_, at) = section.word_in(at, start, 4294967296)?;
        Ok(at)
    }
}

// Whether no two of the section's first n bindings have the same variable.
#[tactic(auto, using(crate::proofs::Ids::lengths))]
pub fn distinct_ids(section: &Section, n: usize) -> bool
    requires { section.now.rows + n * 5 ≤ length (words_of section.now) }
    ensures { result ≡ distinct is_in (row_ids n (drop section.now.rows (words_of section.now))) }
{
    // By index: each variable is sought among the i bindings before it.
    for i in 0..n {
        if section.has_row(i, word(section.bytes, section.rows + i * 5)) {
            return false;
        }
    }
    true
}
