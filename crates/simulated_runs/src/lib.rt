//! What a simulation of a scenario on a plan's module is, that its components keep their rules whatever the module does, and that
//! what stands in for them up to a cycle depends on the cycles up to it alone.
#![tactic(auto)]

mod beginnings;
mod laws;

pub use beginnings::{stand_ins_by_beginnings, states_by_beginnings, taken_by_beginnings};
pub use laws::{earlier_cycles_stay, simulated_runs_are_legal, simulations_go_on};
