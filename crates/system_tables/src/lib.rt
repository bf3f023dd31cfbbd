//! The tables of a system: its instances with their interfaces, and the connections between them.
#![tactic(auto)]

mod system;
mod tables;

pub use system::{Instance, System};
pub use tables::{Connection, EndId, InterfaceTable, copy_interfaces};
