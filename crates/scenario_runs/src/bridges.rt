//! What `bridge` does between files and answers: the transactions of a stream as the commands of host 0, and the replies that
//! their run gives.

mod faults;
mod laws;
mod noted;
mod run;

pub use faults::BridgeFault;
pub use laws::bridged_or_refused;
pub use run::bridge;
