//! Modules whose nets that have one value in each cycle of every run are constants.
#![tactic(auto)]

mod copies;
mod giving;
mod rows;
mod settling;
mod values;

pub use rows::rows_are_judged;
pub use settling::settle;
