//! What the programs share that step the modules of systems, row by row of the standard input.
#![tactic(auto)]

mod ports;
mod steps;
mod systems;

pub use ports::port_that_ends;
pub use steps::{Bench, Inputs, Outputs, run_cycles};
pub use systems::{System, system_of};
