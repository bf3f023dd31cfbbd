//! The words of a script, as the Tcl command language splits them.
#![tactic(auto)]

mod laws;
mod pieces;
mod rule;
mod scan;
mod words;

pub use laws::{
    first_fault_is_read, no_two_first_faults, no_two_readings, refused_texts, spelled_or_faulty,
    spelled_where_no_fault_stands,
};
pub use rule::{Rule, WordsFault};
pub use words::{Commands, Word};
