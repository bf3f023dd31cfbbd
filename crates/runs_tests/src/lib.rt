//! Tests of the definitions of runs, computed.
#![tactic(auto)]

pub mod closed;
pub mod memory;
#[cfg(test)]
mod operations;
#[cfg(test)]
mod symbols;
