//! The nets that let hosts take turns at an agent, as equations.
//!
//! Of the hosts that ask one goes on in its cycle, by weighted round robin over whole commands: the holder of the turn
//! while its command is open, or while it asks and has shares left, and else the next one that asks, in the order of the
//! seats, which then holds the turn. The others wait. A word goes to the host whose tag it bears.
//!
//! - State: a bit for each host, which of them holds the turn (at first the last one), the shares that it has left, in 6
//!   bits, and one bit inside a command. One host alone is a wire, and keeps nothing.
//! - Cycles: none are added, and none is lost where the turn goes on.
//! - Limits: 1 to 128 hosts, each with 1 to 63 shares.
#![tactic(auto)]

mod arbiter;
mod asker;
mod asks;
mod back;
mod choice;
mod first;
mod laws;
mod next;
mod pick;
mod rounds;
mod turns;
mod widen;

pub use arbiter::{HeldArbiter, emit_arbiter, finish_arbiter};
pub use asker::Asker;
pub use back::{BackNets, BelowNets};
pub use choice::ChosenNets;
pub use laws::arbiter_ignores_answers;
pub use rounds::RoundNets;
pub use turns::TurnNets;
pub use widen::widen_command;
