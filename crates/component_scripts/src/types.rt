//! Components, and those that a system may name.

mod catalog;
mod component;
mod library;
mod names;

pub use catalog::Catalog;
pub use component::Component;
pub use library::Library;
pub use names::is_name;
