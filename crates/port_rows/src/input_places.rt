//! Inputs of a plan's module that are given by ends and roles have places of their own in a row.

mod laws;

pub use laws::{inputs_given_once_are_apart, inputs_of_ends_are_apart};
