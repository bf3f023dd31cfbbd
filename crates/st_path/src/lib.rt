//! What stands between a source and a sink: the stages of a stream, one behind the other, and the law of the whole.
#![tactic(auto)]

pub mod ends;
mod path;
mod stages;

pub use ends::{PathNets, SourceNets};
pub use path::emit_path;
