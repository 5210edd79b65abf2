// The two tables of a sheet: its names, read from bytes, and its bindings, read from words.
#![tactic(auto)]

mod kind;
mod names;
mod rows;
mod var_name;

pub use kind::VarKind;
pub use names::{are_read, distinct_names, index_of, name_at, scan_names};
pub use rows::{Row, distinct_ids};
pub use var_name::{VarName, var_at};
