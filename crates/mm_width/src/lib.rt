//! What stands between the words of a host and those of an agent.
//!
//! A chain of links, each only where the pair needs it: a cutter of bursts (`mm_burst`); a lane selector or what gathers
//! reads (`mm_select`, `mm_gather`) behind a narrower host, or a splitter (`mm_split`) behind a wider one; and what drops
//! beats without a lane (`mm_drop`). Where each beat of the host is one of the agent and no burst is cut, it is a wire.
//! State and cycles are those of its links, with room for as many reads as host, agent and stages let be under way.
#![tactic(auto)]

mod links;
mod pairs;
mod width;

pub use links::{KeptByGather, Width, WidthKept, width_of};
pub use pairs::{is_wire_pair, needs_drop};
pub use width::{begin_width, finish_width};
