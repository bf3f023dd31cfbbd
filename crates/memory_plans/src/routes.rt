//! The map of a host as routes to its agents.

ghost use Rattle.std.specs.Prelude.{◌≡◌, ◌<◌, ◌≤◌, ℕ, Some, length, slice_get, IfOk};
ghost use Rattle.address_map.specs.Maps.{hosts_of};
ghost use Rattle.link_rules.specs.declared.plan_connections.MemoryConnection.{MemoryConnection as Link};
ghost use Rattle.link_rules.specs.Plans.{PlanTable, IsPlan};
ghost use Rattle.memory_plans.specs.Routes.{word_bits, span_bits, footprint_bits, route_of, routes_among, routes_of, AreRoutes};
ghost use Rattle.memory_plans.specs.Systems.{memory_system};

use av_base::{List, NoMemory};
use iface_roles::{AgentPort, HostPort, proper_records_are_bounded};
use link_rules::{MemoryConnection, Plan, memory_connections_are_numbered};
use memory_runs::sides::Route;
use std::alloc::Global;

/// The power of two that a word's bytes are.
fn word_bits(bytes: u8) -> u8
    ensures value { result ≡ word_bits bytes }
    ensures few { result ≤ 4 }
{
    if bytes < 2 {
        0
    } else if bytes < 4 {
        1
    } else if bytes < 8 {
        2
    } else if bytes < 16 {
        3
    } else {
        4
    }
}

fn span_bits(agent: &AgentPort) -> u8
    requires { agent.now.address_bits ≤ 32 }
    ensures { result ≡ span_bits agent.now }
{
    let word = word_bits(agent.word_bytes);
    if agent.byte_units {
        agent.address_bits.max(word)
    } else {
        agent.address_bits + word
    }
}

fn footprint_bits(host: &HostPort, agent: &AgentPort) -> u8
    requires { agent.now.address_bits ≤ 32 }
    ensures { result ≡ footprint_bits host.now agent.now }
{
    span_bits(agent).max(word_bits(host.word_bytes))
}

fn route_of(link: &MemoryConnection) -> Route
    requires { link.now.agent.address_bits ≤ 32 }
    ensures { result ≡ route_of link.now }
{
    Route {
        agent: link.agent_number,
        base: link.base,
        bits: footprint_bits(&link.host, &link.agent),
        reads: link.agent.reads,
        writes: link.agent.writes,
    }
}

/// The routes of a host are its map: their bytes are the footprints of its agents, no two have a byte in common, and an
/// access goes to the agent of the one that holds its address and takes its kind.
pub fn routes_are_the_map()
    ensures { (plan : PlanTable) → IsPlan plan → (host : ℕ) → host < length (hosts_of plan.system)
        → AreRoutes (memory_system plan) host (routes_of plan.system host) }
{
    crate::plans_are_memory_plans();
    proper_records_are_bounded();
    memory_connections_are_numbered();
}

/// The routes of those links that are the host's.
fn routes_among(
    alloc: Global,
    links: &[MemoryConnection],
    host: u8,
) -> Result<List<Route>, NoMemory>
    requires { (k : ℕ) (link : Link) → slice_get links.now k ≡ Some link → link.agent.address_bits ≤ 32 }
    ensures { IfOk result (λ routes. routes ≡ routes_among host links.now) }
{
    let mut routes = List::new(alloc);
    for link in links {
        if link.host_number == host {
            routes.push(route_of(link))?;
        }
    }
    Ok(routes)
}

/// The routes of the host of this number, in the order of its connections.
pub fn host_routes(alloc: Global, plan: &Plan, host: u8) -> Result<List<Route>, NoMemory>
    requires { host < length (hosts_of plan.now.system) }
    ensures value { IfOk result (λ routes. routes ≡ routes_of plan.now.system host) }
    ensures map { IfOk result (AreRoutes (memory_system plan.now) host) }
{
    plan.well_made();
    memory_connections_are_numbered();
    proper_records_are_bounded();
    routes_are_the_map();
    routes_among(alloc, plan.memory_connections(), host)
}
