//! What stands at all ports of a module in the cycles of waves, as a value change dump.
#![tactic(auto)]

mod gathered;
mod laws;
pub mod replayed;
mod rows;
mod traces;

pub use laws::runs_have_one_dump;
pub use traces::dump_run;
