//! Scenarios as files state them: what hosts and sources do in a simulation, and when agents and sinks stall.
#![tactic(auto)]

mod agents;
mod commands;
mod faults;
mod files;
mod hosts;
mod interfaces;
mod laws;
mod one_line;
mod ports;
mod rests;
mod so_far;
mod sources;
mod worked;

pub use faults::{ScenarioFault, ScenarioRule};
pub use files::read_scenario;
pub use laws::{
    all_lines_are_stated, first_faults_are_first, never_both, no_two_first_faults,
    no_two_scenarios, scenario_or_fault, stated_scenarios_fit,
};
pub use worked::{
    refused_beginnings, refused_packets, refused_repeats, refused_spellings, refused_transfers,
    refused_values, refused_words, stated_files,
};
