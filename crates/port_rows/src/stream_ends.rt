//! Sources and sinks at the ports of a plan's module: where their levels stand in a row of values, and which outputs answer them.

mod laws;
mod places;

pub use laws::{
    beats_at_ports, shown_beats_fit, shown_ready_fits, sinks_are_answered, sinks_are_shown,
    sources_are_answered, sources_are_shown,
};
pub use places::{SinkPorts, SourcePlaces};
