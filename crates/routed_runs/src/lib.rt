//! What modules do that lead the beats of streams by their channels: a multiplexer, a demultiplexer and a gatherer, over what
//! their ends show cycle by cycle.
#![tactic(auto)]

pub mod machines;
pub mod rows;
