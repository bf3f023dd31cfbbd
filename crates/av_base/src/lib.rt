//! Values, places, byte lists, lines of bytes, and the fault of memory that was wanted and not had.
#![tactic(auto)]

mod faults;
pub mod lines;
mod lists;
mod value;

pub use faults::{NoMemory, Place};
pub use lists::{Bytes, List, Text};
pub use value::Val;
