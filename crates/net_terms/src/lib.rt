//! Terms: what nets show in a cycle, put together of operators, and the nets that show it.
#![tactic(auto)]

mod bits;
mod makers;
mod several;
mod terms;
mod words;

pub use bits::{And, Equals, High, IsZero, Less, Low, Mux, NonZero, Not, Or, Wire, Xor};
pub use several::{emit_three, emit_two};
pub use terms::{Bit, Word};
pub use words::{Add, Bus, Concat, Constant, Fit, Flag, MuxWord, Read, Slice, Sub};
