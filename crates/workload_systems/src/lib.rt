//! The scripts of the workload system of a number, and its plan.
#![tactic(auto)]

mod components;
mod files;
mod laws;
mod streams;
mod systems;
mod words;

pub use files::{workload_files, workload_plan};
pub use laws::workloads_are_accepted;
