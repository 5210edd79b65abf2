// Turns among 32 queues of up to 16 items each. A state is 577 words that the caller lends; 577 zeros are the empty one, and any words are
// some state (specs/Words.antt).
//
// No public function here has a `requires`.
#![tactic(auto)]

mod error;
mod exports;

ghost use Rattle.std.specs.Prelude.{◌+◌, ◌<◌, get_or};
ghost use Rattle.dispatcher.specs.Words.{Adds, Takes, Serves};

pub use error::AddError;
pub use exports::{cenguatu_add, cenguatu_take};

// Where the words of a state begin, after 16 items for each queue: the place of each queue's oldest item, how many wait in each, and the
// queue served last, as its number + 1 or 0 before any is served.
const FIRSTS: usize = 512;

const COUNTS: usize = 544;

const LAST: usize = 576;

// A queue that was served, and its oldest item.
#[derive(Clone, Copy, Debug, PartialEq, Eq)]
pub struct Served {
    pub queue: u32,
    pub item: u32,
}

// What a take answers: what was served, if any queue waits, and how many queues were looked at, the served one included.
#[derive(Clone, Copy, Debug, PartialEq, Eq)]
pub struct Taken {
    pub served: Option<Served>,
    pub steps: u32,
}

// Puts an item behind those that wait in a queue.
pub fn add(words: &mut [u32; 577], queue: u32, item: u32) -> Result<(), AddError>
    ensures { Adds queue item words.old words.new result }
{
    if 31 < queue {
        return Err(AddError::NoQueue);
    }
    let q = queue as usize;
    let n = words[COUNTS + q];
    if 16 <= n {
        return Err(AddError::Full);
    }
    let place = (words[FIRSTS + q] % 16 + n) % 16;
    words[q * 16 + place as usize] = item;
    words[COUNTS + q] = n + 1;
    Ok(())
}

// Takes the oldest item of a queue out, which is then the one served last.
fn serve(words: &mut [u32; 577], q: usize) -> u32
    requires { (q < 32) × (0 < get_or words.old (544 + q) 0) }
    ensures { Serves q words.old words.new result }
{
    let count = words[COUNTS + q].min(16);
    let first = words[FIRSTS + q] % 16;
    words[FIRSTS + q] = first + 1;
    words[COUNTS + q] = count - 1;
    words[LAST] = q as u32 + 1;
    words[q * 16 + first as usize]
}

// Serves the next waiting queue after the one served last, going round. (A loop and no `find`: it turns as the definition does,
// and how many were looked at is answered too.)
pub fn take(words: &mut [u32; 577]) -> Taken
    ensures { Takes words.old words.new result }
{
    let first = words[LAST] % 32;
    for passed in 0..32 {
        let queue = (first + passed) % 32;
        if 0 < words[COUNTS + queue as usize] {
            let item = serve(words, queue as usize);
            return Taken {
                served: Some(Served { queue, item }),
                steps: passed + 1,
            };
        }
    }
    Taken {
        served: None,
        steps: 32,
    }
}
