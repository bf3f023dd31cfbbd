//! Multiplexers and demultiplexers as equations.
//!
//! A multiplexer leads one input at a time to the output, packet by packet and in turn, with its number as the channel; a
//! demultiplexer leads each beat to the output that has the number of its channel.
//!
//! - State: of a multiplexer the input that it led last, and a bit that it has to stay with it; of a demultiplexer none.
//! - Cycles: none are added, and none is lost where the input changes.
//! - Limits: up to 16 inputs or outputs.
#![tactic(auto)]

pub mod demux;
mod first;
pub mod mux;
mod packet;
mod select;
mod split;
mod turns;

pub use demux::{DemultiplexerNets, emit_demultiplexer, shown_on};
pub use mux::{MultiplexerNets, emit_multiplexer};
pub use packet::PacketNets;
pub use select::{half_of, select_bit};
