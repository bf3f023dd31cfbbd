//! What lines say: the inputs of a module, cycle by cycle, as a file states them, and the words of a scenario, with the numbers,
//! flags and patterns that words spell.
#![tactic(auto)]

mod counts;
mod cuts;
mod digits;
mod faults;
mod file_lines;
mod header;
mod hexadecimals;
mod keywords;
mod laws;
mod line_words;
mod marks;
mod patterns;
mod rows;
mod whole;

pub use counts::{count, is_count};
pub use faults::{WavesFault, WavesRule};
pub use file_lines::Lines;
pub use hexadecimals::{are_bytes, bytes, hexadecimal, is_hexadecimal};
pub use keywords::Keyword;
pub use laws::{
    never_both, no_two_first_faults, no_two_readings, read_files, refused_files, rows_or_fault,
};
pub use line_words::{Words, is_clean, is_silent};
pub use marks::Flags;
pub use patterns::{is_pattern, pattern};
pub use whole::Waves;
