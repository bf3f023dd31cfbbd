//! The part behind a host that sends each command to its agent by address, as equations.
//!
//! A command goes on in its cycle at the place whose footprint holds its address and whose agent has its kind, with the
//! host's number as its tag. Else the default agent takes it, which drops writes and gives words of 0 with code 3. A burst
//! goes whole to the place of its first beat. A read waits while words are owed by another place, so words come up in the
//! order of the reads.
//!
//! - State: the words that are owed, and a bit for each place, which of them owes; behind a host with bursts another bit
//!   for each, which has the command, and one bit inside a command. A route to one agent that has the whole range is a wire
//!   with one bit: that a read was taken.
//! - Cycles: none are added; the default agent's first word comes in the cycle behind its read.
//! - Limits: 1 to 128 routes.
#![tactic(auto)]

mod back;
mod decoder;
mod default_agent;
mod gate;
mod laws;
mod next;
mod registers;
mod route;
mod router;
mod shown;
mod wire;

pub use back::BackNets;
pub use laws::route_ignores_answers;
pub use registers::{LatchNets, RegisterNets};
pub use route::{HeldRoute, emit_route, finish_route, is_lone};
pub use router::HeldRouter;
pub use shown::ShownNets;
pub use wire::HeldWire;
