//! Stages of a stream as equations: what each one appends, and the law that it keeps.
#![tactic(auto)]

pub mod beat;
pub mod chain;
mod laws;
pub mod makers;
pub mod maybe;
pub mod pass;
pub mod queue;
pub mod queued;
pub mod register;
pub mod stage;
pub mod stored_queue;
pub mod stream;

pub use beat::BeatNets;
pub use chain::Chain;
pub use laws::fifo_keeps_few_bits;
pub use maybe::Maybe;
pub use pass::Pass;
pub use queue::Fifo;
pub use queued::queue_is_between;
pub use register::PipeReg;
pub use stage::Stage;
pub use stream::{StreamNets, emit_stream};
