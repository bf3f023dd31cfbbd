//! Eight simulations at once: a bench for each lane of a module.

mod all;
mod counted;
mod evaluated;
mod inputs;
mod lane_bench;

pub use counted::count_lanes;
