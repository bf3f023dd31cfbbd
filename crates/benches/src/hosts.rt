//! The hosts of a test bench: each at its ports, with what stands in for it.

mod host;
mod laws;

pub use host::{BenchHost, hosts_of_plan};
pub use laws::{hosts_are_told, hosts_take_part};
