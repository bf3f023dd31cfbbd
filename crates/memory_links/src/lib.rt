//! Links as machines: each keeps the whole record of a link, and two in a row keep it as one.
#![tactic(auto)]

pub mod begins;
pub mod bursts;
pub mod drops;
pub mod gathers;
pub mod packs;
pub mod passes;
pub mod pipes;
pub mod rows;
pub mod runs;
pub mod soon;
pub mod widths;
