//! What stands in for the components of a simulation: hosts, sources, sinks, and agents that act as memory, stall by a pattern
//! and answer with codes.
#![tactic(auto)]

mod burst;
mod codes;
mod delayed;
pub mod hosts;
mod laws;
mod memory;
mod places;
mod script;
mod stand_in;
pub mod streams;
mod waiting;

pub use laws::{
    borne_reads_are_answered, codes_fit_their_port, fixed_words, late_words,
    stand_in_agents_are_legal, stand_ins_stand_for_runs, stated_codes, words_come_in_order,
};
pub use stand_in::AgentStandIn;
