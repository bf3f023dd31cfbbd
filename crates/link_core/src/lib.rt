//! Links of a command path as equations: what each one appends, and the law that it keeps.
#![tactic(auto)]

pub mod chain;
pub mod delay;
pub mod link;
pub mod maybe;
pub mod pass;
pub mod pipe;
pub mod row;
pub mod stage;
pub mod tags;

pub use chain::Chain;
pub use delay::Delay;
pub use link::Link;
pub use maybe::Maybe;
pub use pass::Pass;
pub use pipe::{Pipe, PipeKept, begin_pipe, finish_pipe, pipe_of};
pub use row::Begun;
pub use stage::PipeStage;
pub use tags::delay_tag;
