//! Whether the agent of a host bounds its reads, so that nothing next to the host has to.

ghost use Rattle.std.specs.Prelude.{◌≡◌, ℕ, ◌^◌};
ghost use Rattle.iface_roles.specs.Proper.{IsBoundedHost, range_of};
ghost use Rattle.mm_fabric.specs.Bounds.{reads_at, bears_few, bears_link, first_link, first_bears_few, needs_no_count};

use command_nets::lane_bits;
use iface_roles::{AgentPort, HostPort};
use link_rules::{MemoryConnection, Plan};
use memory_runs::sides::Route;
use mm_route::is_lone;
use mm_width::is_wire_pair;

/// The bits of a host's addresses where these count bytes.
fn byte_address_bits(port: &HostPort) -> u8
    requires { IsBoundedHost port.now }
    ensures { 2 ^ result ≡ range_of port.now }
{
    if port.byte_units {
        port.address_bits
    } else {
        port.address_bits + lane_bits(port.word_bytes)
    }
}

/// How many reads at most an agent has unanswered, where each is of one word.
fn reads_at(port: &AgentPort) -> u8
    ensures { result ≡ reads_at port.now }
{
    if port.readdatavalid {
        if port.pending == 0 { 1 } else { port.pending }
    } else if port.read_latency == 0 {
        1
    } else {
        port.read_latency
    }
}

/// Whether an agent reads and behind so many stages never has 16 reads unanswered, each of one word.
fn bears_few(port: &AgentPort, stages: u8) -> bool
    ensures { result ≡ bears_few stages port.now }
{
    port.reads && port.burst_bits < 2 && u32::from(reads_at(port)) + 3 * u32::from(stages) < 16
}

/// Whether no link stands between the ends of a link, and its agent never has 16 reads unanswered.
fn bears_link(plan: &Plan, link: &MemoryConnection) -> bool
    ensures { result ≡ bears_link plan.now link.now }
{
    bears_few(&link.agent, plan.stages()) && is_wire_pair(&link.host, &link.agent)
}

/// The first link of the host of this number.
fn first_link(links: &[MemoryConnection], host: u8) -> Option<MemoryConnection>
    ensures { result ≡ first_link host links.now }
{
    for link in links {
        if link.host_number == host {
            return Some(*link);
        }
    }
    None
}

/// The same of the agent of the first link of the host of this number.
fn first_bears_few(plan: &Plan, host: u8) -> bool
    ensures { result ≡ first_bears_few plan.now host }
{
    match first_link(plan.memory_connections(), host) {
        Some(link) => bears_link(plan, &link),
        None => false,
    }
}

/// Whether all addresses of the host of this number lead to one agent, with no link between, that never has 16 reads unanswered.
pub(crate) fn needs_no_count(plan: &Plan, host: u8, port: &HostPort, routes: &[Route]) -> bool
    requires { IsBoundedHost port.now }
    ensures { (width : ℕ) → 2 ^ width ≡ range_of port.now → result ≡ needs_no_count plan.now host routes.now width }
{
    is_lone(routes, byte_address_bits(port)) && first_bears_few(plan, host)
}
