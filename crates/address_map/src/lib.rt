//! The maps of a system's hosts: which bytes go to which agent.
#![tactic(auto)]

mod ends;
mod faults;
mod footprint;
mod host_map;
mod hosts;
mod laws;
mod maps;

pub use ends::Ends;
pub use faults::MapFault;
pub use footprint::{Footprint, range, span};
pub use host_map::MapEntry;
pub use hosts::mm_ends;
pub use laws::{
    ends_are_joined, ends_have_one_number, entries_are_of_connections, low_bits_are_free,
    places_are_in_footprints,
};
pub use maps::Maps;
