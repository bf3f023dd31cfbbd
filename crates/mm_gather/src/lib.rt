//! The link that reads a wide word once for all narrow words of it that a read burst asks, as nets.
//!
//! A read burst that lies in one wide word goes on in its cycle as a single beat, in the lanes of all its words. The wide
//! word is given out in narrow ones, one a cycle, from the cycle on in which it comes where no other waits before it. Write
//! beats go as through `mm_select`.
//!
//! - State: the place and the count of each read under way, and the wide words that have come, with their codes: two queues
//!   (`item_queues`); and how many narrow words of the oldest are given.
//! - Cycles: none are added. A read waits while as many are under way as there is room for, and the oldest stays under way
//!   until its last narrow word.
//! - Limits: bursts within a wide word, which a cutter above sees to; room for 2 reads at least; byte enables below.
#![tactic(auto)]

mod gather;
mod lanes;
mod reads;

pub use gather::{Gather, GatherKept};
pub use reads::HeldReads;
