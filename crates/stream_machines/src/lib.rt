//! Machines that pass a stream on, and the law that each keeps.
#![tactic(auto)]

pub mod faults;
pub mod machines;
pub mod stages;
