//! Multiplexers, demultiplexers and gatherers as modules by themselves.
#![tactic(auto)]

mod demux;
mod drivers;
mod ends;
mod gather;
mod header;
mod mux;
mod routed;
mod sizes;

pub use demux::demux_module;
pub use gather::gather_module;
pub use mux::mux_module;
pub use routed::Routed;
