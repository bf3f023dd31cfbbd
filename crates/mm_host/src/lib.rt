//! The equations of the part next to a memory-mapped host: byte addresses, a bound of 16 on unanswered reads, and the end of each
//! command.
//!
//! A command goes on in the cycle in which it is shown: at the byte address of its word, with constants for what the host
//! lacks (all lanes, a count of 1), and with `more` on each beat of a write burst but the last. A word comes up in its
//! cycle; a host without `readdatavalid` waits with its read until then.
//!
//! - State: the unanswered reads, in 5 bits, and of bursts a queue of 16 counts, in a memory, and the words that the oldest
//!   has got; of a host without `readdatavalid` one bit, that its read is taken; the beats that a write burst lacks. Single
//!   reads that what stands below bounds aren't counted.
//! - Cycles: none are added. A seventeenth read waits until the first has all its words.
//! - Limits: words of 8 to 128 bits, a range of 2^32 bytes, bursts of 1,024 beats.
#![tactic(auto)]

mod fields;
mod host;
mod nets;
mod queue;
mod reads;
mod writes;

pub use fields::Fields;
pub use host::{HeldHost, emit_host, finish_host};
pub use nets::{HostAnswer, HostNets};
pub use reads::HeldReads;
pub use writes::HeldWrites;
