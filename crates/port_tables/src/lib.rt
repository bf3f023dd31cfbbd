//! The ports of a plan's module: which there are, in which order, where each stands, and which streams between them are wires.
#![tactic(auto)]

mod header;
mod laws;
mod port_map;
mod port_table;
mod roles;
mod wires;

pub use header::start;
pub use laws::ports_are_known;
pub use port_table::PortMap;
pub use roles::PortRole;
pub use wires::is_wire_stream;
