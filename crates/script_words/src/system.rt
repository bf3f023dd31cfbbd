//! What the words of a system file name: its commands, the parameters of connections, and their ends.

pub mod commands;
pub mod joints;
pub mod links;
mod roots;

pub use roots::Roots;
