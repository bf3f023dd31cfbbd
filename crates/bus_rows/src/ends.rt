//! Hosts and agents that keep to what they declare, the rows that tell of them, and what is told of their runs.

mod access;
mod driver;
mod ends;
mod events;
mod memory;
mod row;
mod rules;
mod scripts;
mod signals;

pub use access::Access;
pub use driver::Driver;
pub use ends::{Agent, Codes, Host, Pattern, Shape};
pub use events::{Event, Log, Tally, push_tally};
pub use memory::Memory;
pub use row::{Connection, HostWork, Row};
pub use rules::Rule;
pub use scripts::files_of;
pub use signals::{Answer, Beat, Command};
