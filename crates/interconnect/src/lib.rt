//! From an accepted plan to its module.
#![tactic(auto)]

mod agents;
mod going;
mod hosts;
mod memory;
mod outputs;
mod streams;
mod whole;

pub use going::legal_runs_go_on;
pub use port_tables::PortMap;
pub use whole::{Built, build};
