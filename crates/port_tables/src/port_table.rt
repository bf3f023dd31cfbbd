ghost use Rattle.std.specs.Prelude.{length, ◌^◌, ◌<◌};

use crate::roles::RolePort;
use av_base::List;
use system_tables::EndId;

/// A port of the module.
#[derive(Clone, Copy)]
pub(crate) struct PortEntry {
    pub end: EndId,
    pub port: RolePort,
    /// Whether the module drives it.
    pub output: bool,
}

/// The numbers of a module's ports, from 0, in the order of its header.
#[derive(Drop)]
pub struct PortMap {
    pub(crate) entries: List<PortEntry>,
    pub(crate) agents: List<EndId>,
    pub(crate) sinks: List<EndId>,
    ghost few: { length entries < 2 ^ 32 },
}
