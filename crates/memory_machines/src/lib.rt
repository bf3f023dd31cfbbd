//! Machines that pass commands on and answers back, the law that each keeps, and whole lines of them.
#![tactic(auto)]

pub mod lines;
pub mod links;
pub mod machines;
pub mod progress;
pub mod settled;
pub mod wires;
