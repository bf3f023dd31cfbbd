//! Reading the Verilog text of a module back.
#![tactic(auto)]

mod behind_nets;
mod clocked;
mod constants;
mod declared_lines;
mod header_lines;
mod holes;
mod line_kinds;
mod net_lines;
mod operators;
mod parts;
mod reading;
mod right;
mod sections;
mod spot;

pub use reading::{TextFault, read_module};
