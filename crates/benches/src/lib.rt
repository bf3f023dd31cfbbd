//! Test benches: what their parts share, and the hosts, agents and streams of one.
#![tactic(auto)]

pub mod agents;
pub mod hosts;
pub mod parts;
pub mod streams;
