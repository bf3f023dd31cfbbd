//! What stands at the ports of a plan's module, as rows of values: one for each input, in header order.
#![tactic(auto)]

pub mod agent_ends;
mod driven;
pub mod host_ends;
pub mod input_places;
mod laws;
mod places;
mod row;
pub mod stream_ends;

pub use driven::Driven;
pub use laws::{
    inputs_are_those_of_rows, inputs_have_places, levels_stand, outputs_are_those_of_nets,
};
pub use places::{input_number, input_place, port_number};
pub use row::InputRow;
