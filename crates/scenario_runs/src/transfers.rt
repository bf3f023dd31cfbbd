//! The transactions of a stream and the scenario that states their commands: its text, read back.

mod hosts;
mod laws;
mod stated;

pub use hosts::{reach, transfer_host};
pub use laws::transfers_are_stated;
pub use stated::{StatedTransfers, stated_transfers};
