//! Gatherers as equations: the beats of each channel come out as wider ones.
//!
//! A word is kept until the last one of its channel's beat comes, and goes out with it, in that cycle. Channels may change
//! from word to word.
//!
//! - State: the counts of the words of all channels in one register, and a memory whose word for a channel has all parts of
//!   a beat but the last. What it holds at first doesn't matter.
//! - Cycles: none are added, and a word is taken in each cycle in which the output is ready.
//! - Limits: up to 16 channels, 2 to 16 parts, beats of up to 128 bits.
#![tactic(auto)]

mod counts;
mod gather;
mod words;

pub use gather::{GathererNets, GathererShape, emit_gatherer};
pub use words::WordNets;
