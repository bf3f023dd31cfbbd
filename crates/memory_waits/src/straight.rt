//! Plain commands go straight through the parts next to hosts and agents and through routes, and first beats are shown promptly.

pub mod agents;
pub mod examples;
pub mod hosts;
pub mod routes;
pub mod rows;
