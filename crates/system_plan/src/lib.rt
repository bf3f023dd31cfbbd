//! From the bytes of the files of a system to its plan, or to the first rule or limit that refuses them.
#![tactic(auto)]

mod faults;
mod files;
mod laws;

pub use faults::Refusal;
pub use files::plan_of;
pub use laws::accepted_or_refused;
