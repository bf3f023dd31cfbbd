//! Roles, properties, and one interface of a component.
#![tactic(auto)]

mod interface;
mod kinds;
mod names;
mod properties;
mod records;
mod roles;
mod rules;

pub use interface::Interface;
pub use kinds::{Kind, PortDirection, Side};
pub use properties::{Property, PropertyId, Values, property_of};
pub use records::{
    AgentPort, Finished, HostPort, SinkPort, SourcePort, StreamPort, proper_records_are_bounded,
};
pub use roles::{Role, role_of};
