//! What both kinds of script share: their words, numbers and names, what is asked of a command, what refuses a
//! script, and what the words of a system file name.
#![tactic(auto)]

mod faults;
mod judge;
mod names;
mod package;
pub mod places;
mod rule;
pub mod system;
pub mod values;
pub mod words;

pub use faults::{ScriptFault, ScriptRule};
pub use judge::{Check, Refusal};
pub use names::Names;
pub use package::judge_package;
pub use rule::CommandRule;
