// The text of a condition with the fewest brackets, written over the sheet's words in place.
#![tactic(auto)]

mod operands;
mod page;
mod writing;

pub use page::Page;
pub use writing::print;
