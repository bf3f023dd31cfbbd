//! Queues of items with a count: a short one in registers that shift, a longer one in memories, one for each net of an item.
//!
//! An item that comes is taken in, also one that finds none before it and goes in its cycle. That items come only into room
//! is their giver's to see to.
//!
//! - State: a count, and up to three items in registers that shift, the newest first; from four on a memory for each net of
//!   an item, with the place of the oldest and of the next one. What a memory holds at first doesn't matter.
//! - Cycles: none by `show_oldest`, which shows an item that comes where none is held; one by `read_oldest`.
//! - Limits: room for 1 to 255 items.
#![tactic(auto)]

mod bits;
mod count;
mod laws;
mod memories;
mod places;
mod pointers;
mod queue;
mod storage;
mod stored;

pub use bits::{address_bits, count_bits};
pub use count::move_count;
pub use laws::stored_queue_keeps_few_bits;
pub use pointers::{Pointers, move_pointer};
pub use queue::{
    ItemQueue, finish_queue, has_room, hold_items, make_queue, read_oldest, show_oldest,
};
pub use storage::{FEWEST_STORED, Storage};
pub use stored::StoredItems;
