//! Hosts at the ports of a plan's module: where their levels stand in a row of values, and which outputs answer them.

mod laws;
mod places;

pub use laws::{
    driven_levels, hosts_are_answered, hosts_are_shown, inputs_are_driven, shown_hosts_fit,
};
pub use places::{HostPlaces, HostPorts};
