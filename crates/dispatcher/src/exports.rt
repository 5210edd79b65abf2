// The calls as C functions (include/cenguatu_dispatcher.h).
ghost use Rattle.dispatcher.specs.Numbers.{AddsAs, TakesAs};

use crate::{Served, add, take};

// 0 where the item waits, else the refusal's number.
#[unsafe(no_mangle)]
pub extern "C" fn cenguatu_add(words: &mut [u32; 577], queue: u32, item: u32) -> u32
    ensures { AddsAs queue item words.old words.new result }
{
    add(words, queue, item).err().map_or(0, u32::from)
}

// 1 where a queue is served, and 0 where none waits; the queue, its item and the steps go into got.
#[unsafe(no_mangle)]
pub extern "C" fn cenguatu_take(words: &mut [u32; 577], got: &mut [u32; 3]) -> u32
    ensures { TakesAs words.old words.new got.new result }
{
    let taken = take(words);
    match taken.served {
        Some(Served { queue, item }) => {
            *got = [queue, item, taken.steps];
            1
        }
        None => {
            *got = [0, 0, taken.steps];
            0
        }
    }
}
