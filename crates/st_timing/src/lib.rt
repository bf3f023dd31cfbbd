//! The stages of a stream between two ready latencies, as equations with the law that each keeps.
//!
//! `ReadyDelay` shows ready some cycles late, towards a larger ready latency. `ReadyBuffer`, behind a latency, and
//! `AllowanceBuffer`, behind an allowance above it, hold the beats that still come when ready has fallen, and lead to
//! latency 0. `TieReady` shows ready always, before a sink that is always ready. `timing_of` tells which of the last three
//! a source needs, if any.
//!
//! - State: of a delay a bit of ready for each cycle; of a buffer behind latency L up to L + 1 beats, their count, that of
//!   free places and L bits of ready; behind allowance A up to A + 2 beats and their count. Of a tie none.
//! - Cycles: none for a beat, and a beat goes in each cycle.
//! - Limits: latencies of up to 8 cycles, and allowances of up to 16.
#![tactic(auto)]

pub mod allowance;
mod allowance_nets;
pub mod buffer;
mod buffer_nets;
pub mod delay;
mod laws;
pub mod promises;
pub mod tie;
pub mod timing;
mod transfer;

pub use allowance::AllowanceBuffer;
pub use buffer::ReadyBuffer;
pub use delay::ReadyDelay;
pub use laws::{allowance_buffer_keeps_few_bits, buffer_keeps_few_bits};
pub use tie::TieReady;
pub use timing::{Timing, timing_of};
