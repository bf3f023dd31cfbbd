//! The system that a system file states over the components of a catalog.
#![tactic(auto)]

mod reading;
mod system_draft;

pub use reading::read_system;
