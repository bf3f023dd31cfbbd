//! Modules whose registers and memories leave out bits that are 0 in each cycle of every run.
#![tactic(auto)]

mod bits;
mod copies;
mod gaps;
mod masks;
mod narrowing;
mod passes;
mod rows;

pub use narrowing::narrow;
pub use rows::rows_are_judged;
