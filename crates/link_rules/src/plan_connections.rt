ghost use Rattle.std.specs.Prelude.{◌≡◌, ℕ, ◌^◌, ◌≤◌, length, slice_get, Some, IfOk};
ghost use Rattle.system_tables.specs.Tables.{IsLogic};
ghost use Rattle.address_map.specs.Maps.{hosts_of, agents_of};
ghost use Rattle.link_rules.specs.PlanConnections.{stream_connection, stream_connections, number_in, memory_connection, memory_connections};

use address_map::{Ends, ends_have_one_number};
use av_base::{List, NoMemory};
use iface_roles::{AgentPort, Finished, HostPort, SinkPort, SourcePort};
use std::alloc::Global;
use system_tables::{Connection, EndId, System};

/// A source joined to a sink, with the records of both.
#[derive(Clone, Copy)]
pub struct StreamConnection {
    /// The number of the connection.
    pub connection: u32,
    pub source_end: EndId,
    pub sink_end: EndId,
    pub source: SourcePort,
    pub sink: SinkPort,
    /// The places of the queue before the sink, 0 to 64.
    pub fifo: u8,
}

/// A host joined to an agent, with the records of both.
#[derive(Clone, Copy)]
pub struct MemoryConnection {
    /// The number of the connection.
    pub connection: u32,
    pub host_number: u8,
    pub agent_number: u8,
    pub host: HostPort,
    pub agent: AgentPort,
    /// The address of the agent's first byte in the host's map.
    pub base: u32,
    /// The host's shares of the agent, 1 to 63.
    pub shares: u8,
}

/// The link of a connection, where it joins a source to a sink.
fn stream_connection(
    system: &System,
    number: u32,
    connection: Connection,
) -> Option<StreamConnection>
    requires { IsLogic system.now connection }
    ensures { result ≡ stream_connection system.now (number, connection) }
{
    let start = system.interface(connection.start);
    let end = system.interface(connection.end);
    match (start, end) {
        (Finished::Source(source), Finished::Sink(sink)) => Some(StreamConnection {
            connection: number,
            source_end: connection.start,
            sink_end: connection.end,
            source,
            sink,
            fifo: connection.fifo,
        }),
        _ => None,
    }
}

/// The links of the streams, in the order of their connections.
pub(crate) fn stream_connections(
    alloc: Global,
    system: &System,
) -> Result<List<StreamConnection>, NoMemory>
    requires { length system.now.connections ≤ 2 ^ 32 }
    ensures { IfOk result (λ links. links ≡ stream_connections system.now) }
{
    system.well_made();
    let connections = system.connections();
    let mut links = List::new(alloc);
    for k in 0..connections.len() {
        if let Some(link) = stream_connection(system, k as u32, connections[k]) {
            links.push(link)?;
        }
    }
    Ok(links)
}

/// The number of an end among others.
fn number_in(ends: &Ends, end: EndId) -> u8
    requires few { length ends.now ≤ 32 }
    requires there { (number : ℕ) × (slice_get ends.now number ≡ Some end) }
    ensures { result ≡ number_in ends.now end }
{
    ends.place(end).unwrap() as u8
}

/// The link of a connection, where it joins a host to an agent.
fn memory_connection(
    system: &System,
    hosts: &Ends,
    agents: &Ends,
    number: u32,
    connection: Connection,
) -> Option<MemoryConnection>
    requires is { slice_get system.now.connections number ≡ Some connection }
    requires hosts { hosts.now ≡ hosts_of system.now }
    requires agents { agents.now ≡ agents_of system.now }
    requires few_hosts { length hosts.now ≤ 16 }
    requires few_agents { length agents.now ≤ 32 }
    ensures { result ≡ memory_connection system.now (number, connection) }
{
    system.well_made();
    ends_have_one_number();
    let start = system.interface(connection.start);
    let end = system.interface(connection.end);
    match (start, end) {
        (Finished::Host(host), Finished::Agent(agent)) => Some(MemoryConnection {
            connection: number,
            host_number: number_in(hosts, connection.start),
            agent_number: number_in(agents, connection.end),
            host,
            agent,
            base: connection.base,
            shares: connection.shares,
        }),
        _ => None,
    }
}

/// The links of hosts to agents, in the order of their connections.
pub(crate) fn memory_connections(
    alloc: Global,
    system: &System,
    hosts: &Ends,
    agents: &Ends,
) -> Result<List<MemoryConnection>, NoMemory>
    requires numbers { length system.now.connections ≤ 2 ^ 32 }
    requires hosts { hosts.now ≡ hosts_of system.now }
    requires agents { agents.now ≡ agents_of system.now }
    requires few_hosts { length hosts.now ≤ 16 }
    requires few_agents { length agents.now ≤ 32 }
    ensures { IfOk result (λ links. links ≡ memory_connections system.now) }
{
    let connections = system.connections();
    let mut links = List::new(alloc);
    for k in 0..connections.len() {
        if let Some(link) = memory_connection(system, hosts, agents, k as u32, connections[k]) {
            links.push(link)?;
        }
    }
    Ok(links)
}
