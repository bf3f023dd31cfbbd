//! Modules without the nets and memories that no output depends on.
#![tactic(auto)]

mod copies;
mod marking;
mod numbers;
mod pruning;

pub use copies::copied_ports;
pub use pruning::prune;
