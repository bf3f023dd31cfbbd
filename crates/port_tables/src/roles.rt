ghost use Rattle.std.specs.Prelude.{◌≡◌, ◌*◌, ◌≤◌};
ghost use Rattle.port_tables.specs.Ports.{role_word, is_forward, is_output, port_of, bits_if, host_ports, agent_ports, stream_ports};
ghost use Rattle.st_timing.specs.Ends.{declared};

use iface_roles::{AgentPort, HostPort, SinkPort, SourcePort};

/// What a port of the module is for. The order is that of ports in a header.
#[derive(Clone, Copy, PartialEq, Eq)]
pub enum PortRole {
    Address,
    Read,
    Write,
    WriteData,
    ByteEnable,
    BurstCount,
    WaitRequest,
    ReadData,
    ReadDataValid,
    Response,
    /// The host whose beat an agent accepts.
    Grant,
    Ready,
    Valid,
    Data,
    Channel,
    Error,
    StartOfPacket,
    EndOfPacket,
    Empty,
    /// A beat that doesn't reach its sink.
    Dropped,
}

/// A port that an end may have: its role, and its width in bits, 0 where it isn't there.
#[derive(Clone, Copy)]
pub(crate) struct RolePort {
    pub role: PortRole,
    pub width: u8,
}

impl PortRole {
    pub(crate) fn word<'a>(self) -> &'a str
        ensures { result.now ≡ role_word self }
    {
        match self {
            PortRole::Address => "address",
            PortRole::Read => "read",
            PortRole::Write => "write",
            PortRole::WriteData => "writedata",
            PortRole::ByteEnable => "byteenable",
            PortRole::BurstCount => "burstcount",
            PortRole::WaitRequest => "waitrequest",
            PortRole::ReadData => "readdata",
            PortRole::ReadDataValid => "readdatavalid",
            PortRole::Response => "response",
            PortRole::Grant => "grant",
            PortRole::Ready => "ready",
            PortRole::Valid => "valid",
            PortRole::Data => "data",
            PortRole::Channel => "channel",
            PortRole::Error => "error",
            PortRole::StartOfPacket => "startofpacket",
            PortRole::EndOfPacket => "endofpacket",
            PortRole::Empty => "empty",
            PortRole::Dropped => "dropped",
        }
    }

    /// Whether the signal goes the way of the connection: from a host or a source.
    pub fn is_forward(self) -> bool
        ensures { result ≡ is_forward self }
    {
        !matches!(
            self,
            PortRole::WaitRequest
                | PortRole::ReadData
                | PortRole::ReadDataValid
                | PortRole::Response
                | PortRole::Ready
        )
    }

    /// Whether the module drives the port where a connection starts, or where it ends.
    pub(crate) fn is_output(self, starts: bool) -> bool
        ensures { result ≡ is_output starts self }
    {
        if starts {
            !self.is_forward()
        } else {
            self.is_forward()
        }
    }
}

pub(crate) const fn port(role: PortRole, width: u8) -> RolePort
    ensures { result ≡ port_of role width }
{
    RolePort { role, width }
}

/// So many bits where the port is there, and else none.
fn bits_if(present: bool, bits: u8) -> u8
    ensures { result ≡ bits_if present bits }
{
    if present { bits } else { 0 }
}

/// The ports that a host may have.
pub(crate) fn host_ports(host: &HostPort) -> [RolePort; 10]
    requires { host.now.word_bytes ≤ 16 }
    ensures { result ≡ host_ports host.now }
{
    let word = 8 * host.word_bytes;
    [
        port(PortRole::Address, host.address_bits),
        port(PortRole::Read, bits_if(host.reads, 1)),
        port(PortRole::Write, bits_if(host.writes, 1)),
        port(PortRole::WriteData, bits_if(host.writes, word)),
        port(PortRole::ByteEnable, bits_if(host.enables, host.word_bytes)),
        port(PortRole::BurstCount, host.burst_bits),
        port(PortRole::WaitRequest, bits_if(host.waitrequest, 1)),
        port(PortRole::ReadData, bits_if(host.reads, word)),
        port(PortRole::ReadDataValid, bits_if(host.readdatavalid, 1)),
        port(PortRole::Response, bits_if(host.response, 2)),
    ]
}

/// The ports that an agent may have, and `grant`.
pub(crate) fn agent_ports(agent: &AgentPort) -> [RolePort; 11]
    requires { agent.now.word_bytes ≤ 16 }
    ensures { result ≡ agent_ports agent.now }
{
    let word = 8 * agent.word_bytes;
    [
        port(PortRole::Address, agent.address_bits),
        port(PortRole::Read, bits_if(agent.reads, 1)),
        port(PortRole::Write, bits_if(agent.writes, 1)),
        port(PortRole::WriteData, bits_if(agent.writes, word)),
        port(
            PortRole::ByteEnable,
            bits_if(agent.enables, agent.word_bytes),
        ),
        port(PortRole::BurstCount, agent.burst_bits),
        port(PortRole::WaitRequest, bits_if(agent.waitrequest, 1)),
        port(PortRole::ReadData, bits_if(agent.reads, word)),
        port(PortRole::ReadDataValid, bits_if(agent.readdatavalid, 1)),
        port(PortRole::Response, bits_if(agent.response, 2)),
        port(PortRole::Grant, 4),
    ]
}

/// The ports that a source may have.
pub(crate) fn source_ports(source: &SourcePort) -> [RolePort; 8]
    requires { source.now.symbols * source.now.symbol_bits ≤ 128 }
    ensures { result ≡ stream_ports (declared source.now) }
{
    [
        port(PortRole::Ready, bits_if(source.ready, 1)),
        port(PortRole::Valid, 1),
        port(
            PortRole::Data,
            (u16::from(source.symbols) * source.symbol_bits) as u8,
        ),
        port(PortRole::Channel, source.channel_bits),
        port(PortRole::Error, source.error_bits),
        port(PortRole::StartOfPacket, bits_if(source.packets, 1)),
        port(PortRole::EndOfPacket, bits_if(source.packets, 1)),
        port(PortRole::Empty, source.empty_bits),
    ]
}

/// The ports that a sink may have, but for `dropped`.
pub(crate) fn sink_ports(sink: &SinkPort) -> [RolePort; 8]
    requires { sink.now.symbols * sink.now.symbol_bits ≤ 128 }
    ensures { result ≡ stream_ports (declared sink.now) }
{
    [
        port(PortRole::Ready, bits_if(sink.ready, 1)),
        port(PortRole::Valid, 1),
        port(
            PortRole::Data,
            (u16::from(sink.symbols) * sink.symbol_bits) as u8,
        ),
        port(PortRole::Channel, sink.channel_bits),
        port(PortRole::Error, sink.error_bits),
        port(PortRole::StartOfPacket, bits_if(sink.packets, 1)),
        port(PortRole::EndOfPacket, bits_if(sink.packets, 1)),
        port(PortRole::Empty, sink.empty_bits),
    ]
}
