//! Parts that every adapter makes of nets: constants, fitted words, comparisons, counts, registers and rows of places.
#![tactic(auto)]

mod bits;
mod counts;
mod gates;
mod groups;
mod history;
mod makers;
mod places;
mod registers;
mod rows;

pub use bits::{QueueBits, gives_item, has_room, queue_bits};
pub use counts::{add_bit, count_high};
pub use gates::{both, either, turned, unless};
pub use groups::{choose_all, low_registers, set_all_next};
pub use history::{bit_before, make_history, set_history};
pub use makers::{choose, constant, fit_bits, is_above, level, low_register};
pub use places::{PlaceNets, choose_place, load_place, low_place};
pub use registers::{register, take_next};
pub use rows::{fill_places, last_full, make_places, set_places, show_first};
