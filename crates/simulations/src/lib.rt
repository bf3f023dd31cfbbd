//! Simulations of scenarios on the module of a plan: the bench that drives one, its trace, and its counts; in eight lanes too.
#![tactic(auto)]

mod agreeing;
mod bench;
pub mod campaigns;
mod counting;
mod cycles;
mod noting;
mod rows;
mod simulate;
mod simulation;
mod sound;
mod steps;
mod telling;

pub use agreeing::{one_trace, simulations_agree};
pub use bench::Bench;
pub use counting::counts_go_on;
pub use noting::{HostNotes, note_host};
pub use simulate::{count_module, simulate_module};
pub use steps::{answers_are_evaluated, first_steps_are_shown};
