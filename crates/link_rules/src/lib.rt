//! Which ends may be joined, and the plan of a system that nothing refuses.
#![tactic(auto)]

mod faults;
mod laws;
mod links;
mod pairs;
mod plan;
mod plan_connections;

pub use faults::{LinkRule, PlanFault};
pub use laws::{
    ends_are_known, links_keep_rules, memory_connections_are_numbered, streams_are_numbered,
};
pub use pairs::{check_mm, check_st};
pub use plan::Plan;
pub use plan_connections::{MemoryConnection, StreamConnection};
