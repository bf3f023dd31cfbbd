ghost use Rattle.std.specs.Prelude.{◌≡◌, ◌+◌, ◌^◌, ◌<◌, ◌≤◌, length, take, position, IfSome, is_some};
ghost use Rattle.iface_roles.specs.Proper.{range_of, span_of, IsBoundedHost, IsBoundedAgent};
ghost use Rattle.system_tables.specs.Tables.{IsLogic};
ghost use Rattle.address_map.specs.Footprints.{footprint_of, footprint_bytes, footprints, IsFit};
ghost use Rattle.address_map.specs.Maps.{is_mm};
ghost use Rattle.address_map.specs.MapRules.{is_misplaced, overlaps, ends_past_range, overlaps_at};

use iface_roles::{AgentPort, Finished, HostPort, proper_records_are_bounded};
use system_tables::{Connection, EndId, System};

/// The bytes that an agent takes in the map of a host.
#[derive(Clone, Copy, PartialEq, Eq)]
pub struct Footprint {
    pub host: EndId,
    /// How many bytes the host's addresses reach.
    pub range: u64,
    /// The address of the first byte.
    pub base: u64,
    /// How many bytes it has.
    pub bytes: u64,
    /// The agent can be read.
    pub reads: bool,
    /// The agent can be written.
    pub writes: bool,
}

/// How many bytes a host's addresses reach.
pub fn range(host: &HostPort) -> u64
    requires { IsBoundedHost host.now }
    ensures value { result ≡ range_of host.now }
    ensures small { result ≤ 2 ^ 32 }
{
    let addresses = 2u64.pow(u32::from(host.address_bits));
    if host.byte_units {
        addresses
    } else {
        addresses * u64::from(host.word_bytes)
    }
}

/// How many bytes an agent's addresses reach.
pub fn span(agent: &AgentPort) -> u64
    requires { IsBoundedAgent agent.now }
    ensures value { result ≡ span_of agent.now }
    ensures small { result ≤ 2 ^ 32 }
{
    let addresses = 2u64.pow(u32::from(agent.address_bits));
    let word = u64::from(agent.word_bytes);
    if agent.byte_units {
        addresses.max(word)
    } else {
        addresses * word
    }
}

/// The footprint of a connection of a host to an agent; None for a stream.
pub(crate) fn footprint_at(system: &System, connection: Connection) -> Option<Footprint>
    requires { IsLogic system.now connection }
    ensures value { result ≡ footprint_of system.now connection }
    ensures fit { IfSome result IsFit }
    ensures kind { is_some result ≡ is_mm connection.kind }
{
    proper_records_are_bounded();
    let Finished::Host(host) = system.interface(connection.start) else {
        return None;
    };
    let Finished::Agent(agent) = system.interface(connection.end) else {
        return None;
    };
    Some(Footprint {
        host: connection.start,
        range: range(&host),
        base: u64::from(connection.base),
        bytes: span(&agent).max(u64::from(host.word_bytes)),
        reads: agent.reads,
        writes: agent.writes,
    })
}

impl Footprint {
    pub(crate) fn is_misplaced(self) -> bool
        requires { IsFit self }
        ensures { result ≡ is_misplaced self }
    {
        self.base % self.bytes != 0
    }

    pub(crate) fn ends_past_range(self) -> bool
        requires { IsFit self }
        ensures { result ≡ ends_past_range self }
    {
        self.range < self.base + self.bytes
    }

    pub(crate) fn overlaps(self, other: Footprint) -> bool
        requires fit { IsFit self }
        requires other_fit { IsFit other }
        ensures { result ≡ overlaps self other }
    {
        other.host == self.host
            && self.base < other.base + other.bytes
            && other.base < self.base + self.bytes
    }
}
