//! The stages of a stream for its channel and its error, as equations with the law that each keeps.
//!
//! `ChannelFilter` passes the beats whose channel the sink takes, with a channel of the sink's width. It accepts the
//! others, and `emit_dropped` tells of each. At ready latency 0 it shows ready while it shows no beat. Between ends of the
//! same channels it is a wire. `ErrorTie` shows an error of 0.
//!
//! - State: none.
//! - Cycles: none are added, and a beat goes in each cycle.
//! - Limits: channels of up to 16 bits, errors of up to 128.
#![tactic(auto)]

pub mod channels;
pub mod error_tie;
pub mod filter;

pub use channels::Channels;
pub use error_tie::ErrorTie;
pub use filter::ChannelFilter;
