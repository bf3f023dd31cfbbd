//! The text that says what was accepted: the map of each host, the streams, and how many there are.
#![tactic(auto)]

ghost use Rattle.std.specs.Prelude.{◌≡◌, ◌++◌, ◌<◌, ℕ, length, slice_get, flat_map, Some, string_bytes, OnOk, IfOk};
ghost use Rattle.iface_roles.specs.declared.kinds.Side.TheVariants.{Start};
ghost use Rattle.iface_roles.specs.declared.records.Finished.{Finished};
ghost use Rattle.system_tables.specs.declared.tables.Connection.{Connection as Joining};
ghost use Rattle.system_tables.specs.declared.tables.EndId.{EndId as Id};
ghost use Rattle.system_tables.specs.Tables.{IsEnd};
ghost use Rattle.address_map.specs.declared.host_map.MapEntry.{MapEntry as Entry};
ghost use Rattle.address_map.specs.Maps.{IsJoined, IsEntryOf, hosts_of};
ghost use Rattle.link_rules.specs.PlanConnections.{IsStreamConnection};
ghost use Rattle.map_text.specs.Text.{
  end_name,
  address_text,
  range_text,
  shares_text,
  entry_line,
  host_lines,
  hosts_text,
  stream_line,
  streams_text,
  counts_line,
  accepted_line,
  map_text,
};

use address_map::{MapEntry, ends_are_joined, entries_are_of_connections};
use av_base::{Bytes, NoMemory};
use link_rules::{Plan, StreamConnection, streams_are_numbered};
use std::alloc::Global;
use std::fmt::Write;
use system_tables::{Connection, EndId};

/// Appends the name of an end.
fn put_end(text: &mut String, plan: &Plan, end: EndId) -> Result<(), NoMemory>
    requires { (known : Finished) × IsEnd plan.now.system end known }
    ensures { OnOk result (string_bytes text.new ≡ string_bytes text.old ++ end_name plan.now.system end) }
{
    let instance = plan.instance_name(end);
    let interface = plan.interface_name(end);
    write!(text, "{instance}.{interface}")?;
    Ok(())
}

fn put_address(text: &mut String, address: u32) -> Result<(), NoMemory>
    ensures { OnOk result (string_bytes text.new ≡ string_bytes text.old ++ address_text address) }
{
    write!(text, "{address:08x}")?;
    Ok(())
}

/// Appends the first and the last address of an entry.
fn put_range(text: &mut String, entry: MapEntry) -> Result<(), NoMemory>
    ensures { OnOk result (string_bytes text.new ≡ string_bytes text.old ++ range_text entry) }
{
    put_address(text, entry.first)?;
    text.push('-')?;
    put_address(text, entry.last)
}

/// Appends what stands behind the agent's name in the line of an entry.
fn put_shares(text: &mut String, number: u32, shares: u8) -> Result<(), NoMemory>
    ensures { OnOk result (string_bytes text.new ≡ string_bytes text.old ++ shares_text number shares) }
{
    write!(text, " connection {number} shares {shares}\n")?;
    Ok(())
}

/// The connection of this number.
fn connection_at(plan: &Plan, number: u32) -> Connection
    requires { (connection : Joining) × (slice_get plan.now.system.connections number ≡ Some connection) }
    ensures is { slice_get plan.now.system.connections number ≡ Some result }
    ensures start { (known : Finished) × IsEnd plan.now.system result.start known }
    ensures end { (known : Finished) × IsEnd plan.now.system result.end known }
{
    plan.well_made();
    plan.connections()[number as usize]
}

/// Appends the line of an entry.
fn put_entry(text: &mut String, plan: &Plan, entry: MapEntry) -> Result<(), NoMemory>
    requires { (host : Id) × IsEntryOf plan.now.system host entry }
    ensures { OnOk result (string_bytes text.new ≡ string_bytes text.old ++ entry_line plan.now.system entry) }
{
    let connection = connection_at(plan, entry.connection);
    text.push_str("  ")?;
    put_range(text, entry)?;
    text.push_str(" ")?;
    put_end(text, plan, connection.end)?;
    put_shares(text, entry.connection, connection.shares)
}

/// Appends the lines of a host's map.
fn put_entries(text: &mut String, plan: &Plan, entries: &[MapEntry]) -> Result<(), NoMemory>
    requires { (k : ℕ) (entry : Entry) → slice_get entries.now k ≡ Some entry
        → (host : Id) × IsEntryOf plan.now.system host entry }
    ensures { OnOk result (string_bytes text.new ≡ string_bytes text.old ++ flat_map (entry_line plan.now.system) entries.now) }
{
    for entry in entries {
        put_entry(text, plan, *entry)?;
    }
    Ok(())
}

/// Appends the lines of a host.
fn put_host(
    text: &mut String,
    plan: &Plan,
    host: EndId,
    entries: &[MapEntry],
) -> Result<(), NoMemory>
    requires joined { IsJoined plan.now.system Start host }
    requires entries { (k : ℕ) (entry : Entry) → slice_get entries.now k ≡ Some entry → IsEntryOf plan.now.system host entry }
    ensures { OnOk result (string_bytes text.new ≡ string_bytes text.old ++ host_lines plan.now.system host entries.now) }
{
    plan.well_made();
    text.push_str("host ")?;
    put_end(text, plan, host)?;
    text.push_str("\n")?;
    put_entries(text, plan, entries)
}

/// The host of this number.
fn host_at(plan: &Plan, number: u32) -> EndId
    requires { number < length (hosts_of plan.now.system) }
    ensures is { slice_get (hosts_of plan.now.system) number ≡ Some result }
    ensures joined { IsJoined plan.now.system Start result }
{
    ends_are_joined();
    plan.hosts()[number as usize]
}

/// The map of the host of this number.
fn entries_at(plan: &Plan, number: u32) -> &[MapEntry]
    requires { number < length (hosts_of plan.now.system) }
    ensures { slice_get plan.now.maps number ≡ Some result.now }
{
    plan.well_made();
    plan.maps().entries(number)
}

/// Appends the lines of all hosts.
fn put_hosts(text: &mut String, plan: &Plan) -> Result<(), NoMemory>
    ensures { OnOk result (string_bytes text.new ≡ string_bytes text.old ++ hosts_text plan.now) }
{
    plan.well_made();
    plan.is_within_limits();
    entries_are_of_connections();
    for number in 0..plan.hosts().len() as u32 {
        put_host(text, plan, host_at(plan, number), entries_at(plan, number))?;
    }
    Ok(())
}

/// Appends the line of a stream.
fn put_stream(text: &mut String, plan: &Plan, stream: &StreamConnection) -> Result<(), NoMemory>
    requires { (number : ℕ) × IsStreamConnection plan.now.system number stream.now }
    ensures { OnOk result (string_bytes text.new ≡ string_bytes text.old ++ stream_line plan.now.system stream.now.connection) }
{
    text.push_str("stream ")?;
    put_end(text, plan, stream.source_end)?;
    text.push_str(" to ")?;
    put_end(text, plan, stream.sink_end)?;
    let number = stream.connection;
    write!(text, " connection {number}\n")?;
    Ok(())
}

/// Appends the lines of all streams.
fn put_streams(text: &mut String, plan: &Plan) -> Result<(), NoMemory>
    ensures { OnOk result (string_bytes text.new ≡ string_bytes text.old ++ streams_text plan.now.system) }
{
    plan.well_made();
    streams_are_numbered();
    for stream in plan.stream_connections() {
        put_stream(text, plan, stream)?;
    }
    Ok(())
}

fn put_counts(
    text: &mut String,
    hosts: usize,
    agents: usize,
    streams: usize,
    weight: u32,
) -> Result<(), NoMemory>
    ensures { OnOk result (string_bytes text.new ≡ string_bytes text.old ++ counts_line hosts agents streams weight) }
{
    write!(
        text,
        "accepted hosts {hosts} agents {agents} streams {streams} weight {weight}\n"
    )?;
    Ok(())
}

/// Appends the line of what was accepted.
fn put_accepted(text: &mut String, plan: &Plan) -> Result<(), NoMemory>
    ensures { OnOk result (string_bytes text.new ≡ string_bytes text.old ++ accepted_line plan.now.system) }
{
    let hosts = plan.hosts().len();
    let agents = plan.agents().len();
    let streams = plan.streams().len();
    put_counts(text, hosts, agents, streams, plan.weight())
}

/// The text that `check` writes of a plan.
pub fn map_text(alloc: Global, plan: &Plan) -> Result<Bytes, NoMemory>
    ensures { IfOk result (λ text. text ≡ map_text plan.now) }
{
    let mut text = String::new(alloc);
    put_hosts(&mut text, plan)?;
    put_streams(&mut text, plan)?;
    put_accepted(&mut text, plan)?;
    Ok(Bytes::from(text))
}
