// Of each level of brackets that one pass looks at, whether a comparison stands in its row so far.
ghost use Rattle.std.specs.Prelude.{◌≡◌};

use condition::{COMPARISON, NOT_LEVEL};

// How many levels a pass looks at. Their flags stand eight to a byte: to clear them is most of what reading a short text takes.
pub const LEVELS: usize = 8 * BYTES;

const BYTES: usize = 65536;

// The levels from `low` on.
#[derive(Drop)]
pub struct Window {
    pub low: usize,
    pub flags: [u8; BYTES],
}

impl Window {
    ghost use Rattle.std.specs.Prelude.{◌&&◌, eqb};
    ghost use Rattle.condition.specs.Judge.{flag_after};
    ghost use Rattle.condition_reader.specs.Window.{place_of, marked, Clear, Changes};

    pub fn new(low: usize) -> Self
        ensures { Clear low result }
    {
        Window {
            low,
            flags: [0; BYTES],
        }
    }

    // Where a level's flag stands.
    fn place(&self, depth: usize) -> Option<usize>
        ensures { result ≡ place_of self.now.low depth }
    {
        depth.checked_sub(self.low).filter(|place| *place < LEVELS)
    }

    pub fn is_marked(&self, depth: usize) -> bool
        ensures { result ≡ marked self.now depth }
    {
        self.place(depth)
            .is_some_and(|place| (self.flags[place / 8] >> (place % 8)) & 1 == 1)
    }

    // Whether an operator of this level would be the second comparison in its row.
    pub fn chains(&self, depth: usize, level: usize) -> bool
        ensures { result ≡ (eqb level 4 && marked self.now depth) }
    {
        level == COMPARISON && self.is_marked(depth)
    }

    #[tactic(auto, using(crate::proofs::Flags::unseen))]
    pub fn mark(&mut self, depth: usize, compared: bool)
        ensures { Changes depth (λ f. compared) self.old self.new }
    {
        let Some(place) = self.place(depth) else {
            return;
        };
        let bit = 1 << (place % 8);
        if compared {
            self.flags[place / 8] |= bit;
        } else {
            self.flags[place / 8] &= !bit;
        }
    }

    // After an operator: a loose one begins a row anew, and a comparison stands in it.
    #[tactic(auto, using(crate::proofs::Flags::loose, crate::proofs::Flags::compared, crate::proofs::Flags::tight))]
    pub fn pass(&mut self, depth: usize, level: usize)
        ensures { Changes depth (flag_after level) self.old self.new }
    {
        match level {
            0..NOT_LEVEL => self.mark(depth, false),
            COMPARISON => self.mark(depth, true),
            _ => {}
        }
    }
}
