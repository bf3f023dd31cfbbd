//! What a scenario states: what hosts and sources do in a simulation, when agents and sinks stall, and what agents hold and
//! answer.
#![tactic(auto)]

mod laws;
mod scenario;
mod scripts;
mod statements;

pub use laws::{agent_statements, host_statements, source_statements};
pub use scenario::Scenario;
pub use scripts::Scripts;
pub use statements::{AgentStatement, HostStatement, Pattern, SourceBeat, SourceStatement};
