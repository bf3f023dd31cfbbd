//! Value change dumps as they are read: what is good in a text, its first fault, and its rows as text.
#![tactic(auto)]

mod dump;
mod faults;
mod header;
mod kind;
mod laws;
mod reader;
mod rows;
mod rule;
mod spelling;
pub mod undumps;
mod values;

pub use dump::{Dump, read_dump};
pub use faults::DumpFault;
pub use laws::{
    changes_are_refused, dumps_are_read, headers_are_refused, no_two_dumps, only_dumps_are_read,
    texts_are_read, unchanged_value_is_refused,
};
pub use rows::Rows;
pub use rule::Rule;
