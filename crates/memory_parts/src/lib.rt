//! Hosts, routes, arbiters and agents as machines: the lines that they keep, and their runs.
#![tactic(auto)]

pub mod joins;
pub mod lines;
pub mod plans;
pub mod runs;
pub mod steps;
pub mod system;
