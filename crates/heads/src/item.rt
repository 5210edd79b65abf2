// What a section has many of, one after the other: n of a kind, or a count and as many. The kinds are of the crates above, each with its
// reader.
ghost use Rattle.std.specs.Prelude.{ℕ, List, ◌≤◌, length, drop};
ghost use Rattle.heads.specs.Got.{Got, many, counted};
ghost use Rattle.heads.specs.Answer.{Reads, words_of};

use crate::Section;
use refusal::Refusal;

// One of a kind.
pub trait Item {
    // one of them as a tree
    ghost Tree: { Type 0 };

    // how the definition reads one, where there are so many names
    ghost one: { ℕ → List ℕ → Got Tree };

    // Reads one.
    fn read(section: &Section, at: usize) -> Result<usize, Refusal>
        requires { at ≤ length (words_of section.now) }
        ensures { Reads (words_of section.now) at (one section.now.names) result };
}

// n items of a kind.
pub fn read_many<I: Item>(section: &Section, at: usize, n: u32) -> Result<usize, Refusal>
    requires { at ≤ length (words_of section.now) }
    ensures { Reads (words_of section.now) at (many (I.one section.now.names) n) result }
{
    let mut p = at;
    for _ in 0..n {
        p = I::read(section, p)?;
    }
    Ok(p)
}

// A count, and as many items of a kind.
pub fn counted<I: Item>(section: &Section, at: usize) -> Result<usize, Refusal>
    requires { at ≤ length (words_of section.now) }
    ensures { Reads (words_of section.now) at (counted (I.one section.now.names)) result }
{
    let (n, at) = section.any_word(at)?;
    read_many::<I>(section, at, n)
}
