//! Hosts of a simulation: what stands in for a host and works through its statements.

mod laws;
mod levels;
mod stand_in;

pub use laws::{shown_levels, stand_in_hosts_are_legal};
pub use levels::CommandLevels;
pub use stand_in::HostStandIn;
