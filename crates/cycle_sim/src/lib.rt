//! A plain simulator of a module: one cycle at a time. Nets are evaluated in the order of the list, block by block, where one
//! that they read has changed.
#![tactic(auto)]

mod cells;
mod laws;
mod nets;
mod order;
mod put;
pub mod reading;
mod sim;

pub use laws::{follow, one_run};
pub use sim::Sim;
