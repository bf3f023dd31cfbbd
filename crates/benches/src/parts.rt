//! What the parts of a test bench share: what a component of a simulation does in each cycle, and all components of a kind
//! together.

mod all;
mod component;
mod kind;
mod outputs;
mod simulator;

pub use all::{count_all, end_cycle_of_all, show_all, tell_all};
pub use component::Component;
pub use outputs::level_at;
pub use simulator::Simulator;
