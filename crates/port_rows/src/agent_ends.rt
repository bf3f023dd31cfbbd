//! Agents at the ports of a plan's module: where their levels stand in a row of values, and which outputs command them.

mod laws;
mod places;
mod scripts;

pub use laws::{agents_are_commanded, agents_are_shown, driven_levels, shown_agents_fit};
pub use places::{AgentLevels, AgentPlaces, AgentPorts};
pub use scripts::script_holds_bytes;
