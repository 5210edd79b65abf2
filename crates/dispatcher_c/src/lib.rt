// The C functions of the turns among queues (include/cenguatu_dispatcher.h), as an archive, which is a crate: each calls the one of crate `dispatcher`.
#![tactic(auto)]

ghost use Rattle.dispatcher.specs.Numbers.{AddsAs, TakesAs};

// 0 where the item waits, else the refusal's number.
#[unsafe(no_mangle)]
pub extern "C" fn cenguatu_add(words: &mut [u32; 577], queue: u32, item: u32) -> u32
    ensures { AddsAs queue item words.old words.new result }
{
    dispatcher::cenguatu_add(words, queue, item)
}

// 1 where a queue is served, and 0 where none waits; the queue, its item and the steps go into got.
#[unsafe(no_mangle)]
pub extern "C" fn cenguatu_take(words: &mut [u32; 577], got: &mut [u32; 3]) -> u32
    ensures { TakesAs words.old words.new got.new result }
{
    dispatcher::cenguatu_take(words, got)
}
