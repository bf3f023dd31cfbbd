//! A simulator of a module in eight lanes at once: each lane is a plain one, with inputs of its own.
#![tactic(auto)]

mod cells;
mod nets;
mod order;
pub mod planes;
mod put;
mod sim;

pub use sim::Lanes;
