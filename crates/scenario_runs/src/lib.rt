//! What `simulate`, `workload`, `campaign` and `bridge` do between files and answers: a scenario that is read and a module that
//! is built for it, what is counted of a workload, what is counted of eight scenarios, and the replies to transactions.
#![tactic(auto)]

pub mod bridges;
mod campaign;
mod faults;
mod laws;
mod prepared;
mod read_back;
pub mod transfers;
mod workload;

pub use campaign::{Campaign, campaign_module, prepare_campaign};
pub use faults::SimulateFault;
pub use laws::simulated_or_refused;
pub use prepared::{Prepared, prepare};
pub use workload::workload_text;
