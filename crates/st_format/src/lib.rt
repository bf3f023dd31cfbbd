//! The stages of a stream between two formats of its beats, as equations with the law that each keeps.
//!
//! `Reorder` turns the symbols of each beat, `Clear` sets empty ones to 0, `Narrow` takes wide beats apart, `Widen` joins
//! narrow ones, and `Resize` is one of these two, a window (`st_windows`) or nothing. `format_of` tells which of them stand
//! between two ends.
//!
//! - State: of `Narrow` a wide beat without its first part, of `Widen` one without its last part and a count of symbols; of
//!   the others none.
//! - Cycles: none are added: a part goes as its wide beat comes, and a wide beat as its last part comes. A narrow beat goes
//!   in each cycle.
//! - Limits: beats of up to 128 bits; `Narrow` and `Widen` have two parts at least, and ready latency 0 at both ends.
#![tactic(auto)]

pub mod clear;
mod counted;
pub mod format;
pub mod laws;
pub mod narrow;
pub mod reorder;
pub mod resize;
pub mod sizes;
pub mod widen;
mod words;

pub use clear::Clear;
pub use format::{Format, Order, format_of};
pub use narrow::Narrow;
pub use reorder::Reorder;
pub use resize::Resize;
pub use sizes::Sizes;
pub use widen::Widen;
