//! The side of a run that the record of a host or of an agent stands for, and the routes of a host to its agents.

mod route;

pub use route::Route;
