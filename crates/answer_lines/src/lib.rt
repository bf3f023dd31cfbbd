//! The program's answers: the status with which it ends at each, and the line that it writes.
#![tactic(auto)]

mod exit;

pub use exit::{Exit, StepRule};
