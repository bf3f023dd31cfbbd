//! The cutter of bursts as equations: the bursts of a host go on as those that an agent takes, or as single beats.
//!
//! A read is accepted with its first burst below, and the cutter shows the others by itself, while what stands above waits.
//! The beats of a write come from above, each in its cycle. Bursts of one command are joined by `more`. Before what gathers
//! (`mm_gather`) a read is cut at the ends of wide words, and a write goes beat by beat. Words are wires.
//!
//! - State: the beats that the burst under way lacks and the address of the next one, a bit that it is a read, and of a
//!   read its byte enables, `more` and tag.
//! - Cycles: one for each further burst of a read.
//! - Limits: counts of 1 to 11 bits, below no wider than above.
#![tactic(auto)]

mod addresses;
mod bits;
mod cutter;
mod pieces;
mod registers;
mod shows;

pub use cutter::{Cutter, CutterKept};
pub use pieces::PieceNets;
pub use registers::CutterRegisters;
