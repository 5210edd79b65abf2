// What the walks say: the name walk's events from the front of the words, the kind walk's findings from their back, six words each.
ghost use Rattle.std.specs.Prelude.{◌≡◌, ℕ, ◌+◌, ◌≤◌, length};
ghost use Rattle.steps.specs.Said.{Sorts, Roomy, Put, Says, Tells};

use scope::LOGGED_WIDTH;

// The sorts of events by their first words; any other first word is a finding's code.
#[derive(Clone, Copy, Debug, PartialEq, Eq)]
pub enum Sort {
    Scope = 1,
    Binding = 2,
    Rebinding = 3,
    Variable = 4,
    Name = 5,
}

impl TryFrom<u32> for Sort {
    type Error = ();

    ghost try_from_gives = { Sorts };

    fn try_from(word: u32) -> Result<Sort, ()> {
        match word {
            1 => Ok(Sort::Scope),
            2 => Ok(Sort::Binding),
            3 => Ok(Sort::Rebinding),
            4 => Ok(Sort::Variable),
            5 => Ok(Sort::Name),
            _ => Err(()),
        }
    }
}

// `said` events and `told` findings. Lent words with two counts, since there is no heap: events and findings share one run, of which each takes
// what it needs.
#[derive(Drop)]
pub struct Log<'a> {
    pub words: &'a mut [u32],
    pub said: u32,
    pub told: u32,
}

fn put(words: &mut [u32], k: usize, entry: [u32; LOGGED_WIDTH])
    requires { k + 6 ≤ length words.old }
    ensures { Put k entry words.old words.new }
{
    words[k..k + LOGGED_WIDTH].copy_from_slice(&entry);
}

impl Log<'_> {
    // An event, or a finding of the name walk.
    pub fn say(&mut self, event: [u32; LOGGED_WIDTH])
        requires { Roomy self.old }
        ensures { Says event self.old self.new }
    {
        let k = self.said as usize * LOGGED_WIDTH;
        put(self.words, k, event);
        self.said += 1;
    }

    // A finding of the kind walk.
    pub fn tell(&mut self, finding: [u32; LOGGED_WIDTH])
        requires { Roomy self.old }
        ensures { Tells finding self.old self.new }
    {
        let k = self.words.len() - (self.told as usize + 1) * LOGGED_WIDTH;
        put(self.words, k, finding);
        self.told += 1;
    }
}
