//! A module as an ordered list of equations, one for each net, of which each maker appends one.
#![tactic(auto)]

mod builder;
mod fault;
pub mod fed;
mod laws;
mod line;
mod module;
mod names;

pub use builder::Builder;
pub use fault::NetFault;
pub use laws::{agree, goes_on, has_run, has_valuation, keeps, prefix, signals};
pub use line::{Equation, Line, Mem, MemLine, MemWrite, Memory, Net, PortLine};
pub use module::Module;
pub use names::{begins_with_letter, has_name_bytes};
