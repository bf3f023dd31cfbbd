//! The outside: shelves of files that are read, and sinks that are written.
#![tactic(auto)]

mod edge;
mod faults;
mod memory;
mod outside;
mod steady;

pub use edge::{DirShelf, StdSink};
pub use faults::LoadFault;
pub use memory::{MemShelf, MemSink};
pub use outside::{ReadStep, Shelf, Sink, WriteStep, load_all, put_all};
pub use steady::{CountSink, SteadyShelf, counts_of_zero_never_rise};
