//! What a simulation puts at the ports of a module in place of sources and sinks.

mod laws;
mod sinks;
mod sources;
mod steps;

pub use laws::{
    allowed_sources, direct_sources, late_sources, one_source_for_each_answer, pattern_sinks,
    sources_keep_enough, stand_in_sources_are_legal,
};
pub use sinks::{is_ready, stalls};
pub use sources::SourceStandIn;
