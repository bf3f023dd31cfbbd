//! The splitter of a command path as equations: wide words above, narrow words below.
//!
//! A beat goes on as one command for each narrow word in which a lane is enabled, the lowest first, joined by `more`;
//! without any it goes as one without a lane, or in the middle of a write not at all. It is accepted with its last piece.
//! The pieces of a read are put together, and go up with the last one in its cycle, with the greatest of their codes. A
//! read begins beside others under way only where it asks for the same pieces.
//!
//! - State: how many pieces have gone, and how many have come; which ones the reads under way ask for, and how many these
//!   are, in 5 bits; the pieces of a word but the last, and their greatest code.
//! - Cycles: one for each further piece of a beat.
//! - Limits: commands of one beat, words of 2 to 16 pieces.
#![tactic(auto)]

mod answer;
mod command;
mod gather;
mod lanes;
mod registers;
mod sizes;
mod split;

pub use split::{Split, SplitKept};
