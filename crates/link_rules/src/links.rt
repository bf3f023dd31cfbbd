ghost use Rattle.std.specs.Prelude.{◌≡◌, ◌^◌, ◌≤◌, ℕ, length, filter, MatchOption, OnOk, IfOk, IfErr};
ghost use Rattle.system_tables.specs.Tables.{IsLogic};
ghost use Rattle.address_map.specs.Maps.{is_mm};
ghost use Rattle.link_rules.specs.Links.{
  tests_of,
  link_rule,
  is_stream,
  streams_of,
  too_many,
  KeepsLinkRules,
  IsPassedBy,
  IsCause,
};
ghost use Rattle.link_rules.specs.Pairs.{KeepsAll, IsLeastFailing};

use crate::faults::{LinkRule, PlanFault};
use crate::pairs::{check_mm, check_st};
use av_base::{List, NoMemory};
use iface_roles::{Finished, Kind};
use std::alloc::Global;
use system_tables::{Connection, System};

fn is_mm(connection: &Connection) -> bool
    ensures { result ≡ is_mm connection.now.kind }
{
    matches!(connection.kind, Kind::Mm)
}

fn is_stream(connection: &Connection) -> bool
    ensures { result ≡ is_stream connection.now.kind }
{
    matches!(connection.kind, Kind::Stream)
}

fn link_rule(connection: &Connection, number: u8) -> LinkRule
    ensures { result ≡ link_rule connection.now number }
{
    if is_mm(connection) {
        LinkRule::Mm(number)
    } else {
        LinkRule::Stream(number)
    }
}

/// The least rule on its ends that refuses the connection.
fn check_link(system: &System, connection: Connection) -> Option<u8>
    requires { IsLogic system.now connection }
    ensures { MatchOption result
        (KeepsAll (tests_of system.now connection))
        (IsLeastFailing (tests_of system.now connection)) }
{
    match system.interface(connection.start) {
        Finished::Host(host) => match system.interface(connection.end) {
            Finished::Agent(agent) => check_mm(&host, &agent, connection.clock_fits),
            _ => None,
        },
        Finished::Source(source) => match system.interface(connection.end) {
            Finished::Sink(sink) => check_st(&source, &sink, connection.clock_fits),
            _ => None,
        },
        _ => None,
    }
}

/// Judges the ends of all connections, in their order.
pub(crate) fn check_links(system: &System) -> Result<(), PlanFault>
    requires { length system.now.connections ≤ 2 ^ 32 }
    ensures kept { OnOk result ((k : ℕ) → KeepsLinkRules system.now k) }
    ensures refused { IfErr result (IsCause system.now) }
{
    system.well_made();
    let connections = system.connections();
    for k in 0..connections.len() {
        if let Some(number) = check_link(system, connections[k]) {
            return Err(PlanFault::Refused {
                connection: k as u32,
                rule: link_rule(&connections[k], number),
            });
        }
    }
    Ok(())
}

/// The numbers of the connections of sources to sinks.
pub(crate) fn streams(alloc: Global, system: &System) -> Result<List<u32>, NoMemory>
    requires { length system.now.connections ≤ 2 ^ 32 }
    ensures { IfOk result (λ numbers. numbers ≡ streams_of system.now) }
{
    let connections = system.connections();
    let mut numbers = List::new(alloc);
    for k in 0..connections.len() {
        if is_stream(&connections[k]) {
            numbers.push(k as u32)?;
        }
    }
    Ok(numbers)
}

/// How many connections of hosts to agents there are.
pub(crate) fn mm_count(connections: &[Connection]) -> usize
    ensures { result ≡ length (filter (λ connection. is_mm connection.kind) connections.now) }
{
    let mut count = 0;
    for connection in connections {
        if is_mm(connection) {
            count += 1;
        }
    }
    count
}

fn passed(which: u8, count: usize) -> PlanFault
    ensures { result ≡ PlanFault.Limit which count }
{
    PlanFault::Limit {
        which,
        count: count as u64,
    }
}

/// Judges the numbers of hosts, agents and streams by the limits on them.
pub(crate) fn check_limits(hosts: usize, agents: usize, streams: usize) -> Result<(), PlanFault>
    ensures within { OnOk result (KeepsAll (too_many hosts agents streams)) }
    ensures passed { IfErr result (IsPassedBy hosts agents streams) }
{
    if hosts > 16 {
        return Err(passed(1, hosts));
    }
    if agents > 32 {
        return Err(passed(2, agents));
    }
    if streams > 16 {
        return Err(passed(3, streams));
    }
    Ok(())
}
