//! The equations of the part next to a memory-mapped agent: its address, its wait, its bound on unanswered reads, and the code
//! and the tag of each answer.
//!
//! The agent is shown a command in its cycle, at the address in its own span and unit, and a read only while it bears one
//! more. Without `waitrequest` it is known to accept a beat that has stood for its wait time, and without `readdatavalid`
//! to give a word in just the cycle of its latency. Words go up with the code that comes with them and the tag of their
//! read.
//!
//! - State: a count of the unanswered reads, or for several hosts or reads of several words a queue of them
//!   (`read_queues`); at a fixed latency a bit for each of its cycles, one at least, and for several hosts as many tags; at
//!   latency 0 a word and its code; where beats wait without `waitrequest`, how long one stood.
//! - Cycles: none for a command; one for a word at latency 0, and else none.
//! - Limits: 1 to 64 unanswered reads, latencies of 0 to 63 cycles, wait times of 0 to 255.
#![tactic(auto)]

mod agent;
mod answers;
mod fields;
mod nets;
mod reads;
mod waits;

pub use agent::emit_agent;
pub use nets::{AgentMade, AgentNets};
pub use reads::HeldReads;
pub use waits::HeldWait;
