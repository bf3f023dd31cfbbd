//! Value change dumps: what their text is, and how it is written, row by row.
#![tactic(auto)]

mod laws;
mod part;
mod port;
mod put;
mod writer;

pub use laws::{codes_are_spelled, dumps_are_spelled, rows_are_joined, values_are_spelled};
pub use port::DumpPort;
pub use writer::Dumper;
