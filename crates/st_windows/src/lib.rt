//! A window of symbols between beats of two sizes, as equations with the law of a stage.
//!
//! Of the symbols that are held and come the first ones go as a beat as soon as they fill one, or as a packet ends, in that
//! cycle. A beat is taken in each cycle in which what is held makes none by itself.
//!
//! - State: the symbols of the larger beat but one, a channel, an error and marks, and a count of symbols.
//! - Cycles: none are added; as many symbols go in a cycle as the smaller beat has.
//! - Limits: beats of up to 128 bits, first symbol in the high-order bits, ready latency 0 at both ends.
#![tactic(auto)]

mod counts;
pub mod laws;
mod rows;
pub mod sizes;
mod symbols;
pub mod window;
mod words;

pub use laws::window_sends_clear_beats;
pub use sizes::WindowSizes;
pub use window::Window;
