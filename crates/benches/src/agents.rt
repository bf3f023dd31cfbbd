//! The agents of a test bench: each sets what it shows in a row of inputs, tells what it takes, and counts it.

mod agent;
mod all;
mod commands;
mod laws;

pub use agent::BenchAgent;
pub use all::{agents_of_plan, answer_all, any_gives_at_once};
pub use laws::{agents_are_told, agents_show, agents_take_part};
