//! The words and lines of the programs that test row by row.
#![tactic(auto)]

mod equations;
mod lines;
mod ports;
mod words;

pub use equations::fields_of;
pub use lines::{Answers, answer_lines};
pub use ports::push_port;
pub use words::{hex_number, parted, small_number};
