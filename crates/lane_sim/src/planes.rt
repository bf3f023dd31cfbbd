//! Values in eight lanes, each a pair of planes of eight 64-bit numbers, and the operators on them.

mod plane;
mod value;

pub use value::LaneVal;
