//! Components, those that a system may name, and those that component files state.
#![tactic(auto)]

mod component;
mod component_draft;
mod component_words;
mod settings;
pub mod types;

pub use component::read_component;
