//! Waves replayed on a module: what stands at its outputs in each cycle.
#![tactic(auto)]

mod faults;
mod laws;
mod traces;
mod whole;

pub use faults::ReplayFault;
pub use laws::{
    no_two_replays, replayed_or_refused, texts_are_replayed_or_refused, traces_are_spelled,
};
pub use whole::{replay, replay_module};
