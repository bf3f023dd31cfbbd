//! The link between narrow words and the wide words that hold them, as nets.
//!
//! A beat goes on in its cycle as one of the wide word that holds it, at that word's address: its word stands on each
//! place, and its byte enables on its own. Of each wide word that comes the place of its read goes up, in the same cycle.
//!
//! - State: the place of each read under way, in 1 to 4 bits: a queue (`item_queues`).
//! - Cycles: none are added. A read waits while as many are under way as there is room for.
//! - Limits: commands of one beat, room for 2 to 16 reads, byte enables below.
#![tactic(auto)]

mod places;
mod queue;
mod select;

pub use places::{raise_to, repeat, take_place};
pub use select::{Select, SelectKept, align, asks_now};
