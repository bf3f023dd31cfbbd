//! The nets at the ends of a stream.

use netlist::Net;
use stage_core::BeatNets;

/// The nets of the ports of a source that the module reads; None where the source has no such port.
#[derive(Clone, Copy)]
pub struct SourceNets {
    pub valid: Net,
    /// `data`.
    pub word: Net,
    pub channel: Option<Net>,
    pub error: Option<Net>,
    pub startofpacket: Option<Net>,
    pub endofpacket: Option<Net>,
    pub empty: Option<Net>,
}

/// The nets that a path gives. One for a port that an end doesn't have drives nothing.
#[derive(Clone, Copy)]
pub struct PathNets {
    /// To the source, one bit.
    pub ready: Net,
    /// To the sink.
    pub beat: BeatNets,
    /// High in a cycle in which a beat is accepted that doesn't reach the sink, one bit.
    pub dropped: Net,
}
