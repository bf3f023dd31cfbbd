//! The scenario that a generator of numbers draws for a plan.
#![tactic(auto)]

mod agents;
mod generator;
mod hosts;
mod laws;
mod rows;
mod scenario;
mod streams;

pub use laws::drawn_scenarios_fit;
pub use rows::{first_numbers, first_pattern, first_statements, first_words};
pub use scenario::draw_scenario;
