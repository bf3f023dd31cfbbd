//! The streams of a test bench: each at the ports of its source and its sink, with what stands in for both.

mod laws;
mod stream;

pub use laws::{streams_are_told, streams_show, streams_take_part};
pub use stream::{BenchStream, streams_of_plan};
