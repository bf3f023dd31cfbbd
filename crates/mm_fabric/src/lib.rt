//! What stands between the hosts and agents of a plan where an agent may have several hosts: each agent stands behind its
//! arbiter.
#![tactic(auto)]

mod agents;
mod asks;
mod begun;
mod bounds;
mod fabric;
mod finished;
mod hosts;
mod joined;
mod laws;
mod parts;
mod rows;
mod served;
mod stages;
mod tells;
mod trunk;
mod wide;

pub use asks::AgentEnd;
pub use begun::{BegunHost, HostEnd, begin_hosts};
pub use fabric::{FabricParts, emit_fabric};
pub use finished::finish_hosts;
pub use joined::join_agents;
pub use laws::links_are_few;
pub use parts::{AgentPart, HostPart, Seat, Way};
pub use served::{
    fabrics_are_linked, fabrics_are_served, fabrics_ignore_words, fabrics_show_views,
};
pub use trunk::Trunk;
