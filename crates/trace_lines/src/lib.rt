//! The lines that tell of a simulated run, cycle by cycle, and what is counted in it.
#![tactic(auto)]

mod counts;
mod events;
mod laws;
mod lines;
mod spelling;

pub use counts::Counts;
pub use events::{BeatMoved, CommandTaken, EndName, ShownBeat, WordGiven};
pub use laws::{
    agents_are_told_by_their_ports, beats_are_spelled, codes_are_told, counts_grow_by_cycles,
    memory_is_told, stream_is_told,
};
pub use lines::{dropped_line, end_line, get_line, got_line, read_line, sent_line, write_line};
