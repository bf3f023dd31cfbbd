ghost use Rattle.std.specs.Prelude.{◌≡◌, ℕ, ◌<◌, ◌^◌, ◌++◌, length, None, flat_map, map, filter, IfOk, OnOk};
ghost use Rattle.system_tables.specs.Tables.{IsEnd};
ghost use Rattle.iface_roles.specs.declared.records.Finished.{Finished};
ghost use Rattle.netlist.specs.Netlists.{IsWellMade, IsClocked, IsWritten, driver_of, started};
ghost use Rattle.link_rules.specs.Links.{streams_of};
ghost use Rattle.address_map.specs.Maps.{agents_of};
ghost use Rattle.port_tables.specs.Ends.{IsPlanEnd, ArePlanEnds};
ghost use Rattle.port_tables.specs.Ports.{name_at, port_name, has_bits, connection_ends, ports_of, module_name};
ghost use Rattle.port_tables.specs.PortMaps.{entry_of, end_entries, entries_of, line_of_entry, AreSinks, IsMapOf, AreTold};

use crate::port_table::{PortEntry, PortMap};
use crate::roles::{PortRole, RolePort, agent_ports, host_ports, port, sink_ports, source_ports};
use av_base::{List, NoMemory, Text};
use iface_roles::{Finished, proper_records_are_bounded};
use link_rules::{Plan, streams_are_numbered};
use netlist::{Builder, NetFault, PortLine};
use std::alloc::Global;
use system_tables::EndId;

fn name_of_port(alloc: Global, plan: &Plan, end: EndId, word: &str) -> Result<Text, NoMemory>
    requires { (known : Finished) × IsEnd plan.now.system end known }
    ensures { IfOk result (λ name. name ≡ port_name (name_at plan.now.system end) word.now) }
{
    let instance = plan.instance_name(end);
    let interface = plan.interface_name(end);
    let name = format!(in alloc; "{instance}${interface}${word}")?;
    Text::copy(alloc, name.as_str())
}

/// Appends those ports of an end that are there.
fn push_ports(
    entries: &mut List<PortEntry>,
    end: EndId,
    starts: bool,
    ports: &[RolePort],
) -> Result<(), NoMemory>
    ensures { OnOk result (entries.new ≡ entries.old ++ map (entry_of end starts) (filter has_bits ports.now)) }
{
    for port in ports {
        if port.width > 0 {
            entries.push(PortEntry::new(end, starts, *port))?;
        }
    }
    Ok(())
}

/// Appends the ports of an end.
fn push_end(entries: &mut List<PortEntry>, plan: &Plan, end: EndId) -> Result<(), NoMemory>
    requires { IsPlanEnd plan.now.system end }
    ensures { OnOk result (entries.new ≡ entries.old ++ end_entries plan.now.system end) }
{
    proper_records_are_bounded();
    match plan.interface(end) {
        Finished::Host(host) => push_ports(entries, end, true, &host_ports(&host)),
        Finished::Agent(agent) => push_ports(entries, end, false, &agent_ports(&agent)),
        Finished::Source(source) => push_ports(entries, end, true, &source_ports(&source)),
        Finished::Sink(sink) => {
            push_ports(entries, end, false, &sink_ports(&sink))?;
            push_ports(entries, end, false, &[port(PortRole::Dropped, 1)])
        }
        Finished::Other => Ok(()),
    }
}

/// Appends the ports of ends in a row.
fn push_ends(entries: &mut List<PortEntry>, plan: &Plan, ends: &[EndId]) -> Result<(), NoMemory>
    requires { ArePlanEnds plan.now.system ends.now }
    ensures { OnOk result (entries.new ≡ entries.old ++ flat_map (end_entries plan.now.system) ends.now) }
{
    for end in ends {
        push_end(entries, plan, *end)?;
    }
    Ok(())
}

/// Appends the ports of streams.
fn push_streams(entries: &mut List<PortEntry>, plan: &Plan) -> Result<(), NoMemory>
    ensures { OnOk result
        (entries.new
        ≡ entries.old
        ++ flat_map (end_entries plan.now.system) (flat_map (connection_ends plan.now.system) (streams_of plan.now.system))) }
{
    plan.well_made();
    streams_are_numbered();
    for link in plan.stream_connections() {
        push_ends(entries, plan, &[link.source_end, link.sink_end])?;
    }
    Ok(())
}

fn port_entries(alloc: Global, plan: &Plan) -> Result<List<PortEntry>, NoMemory>
    ensures { IfOk result (λ entries. entries ≡ entries_of plan.now.system) }
{
    plan.well_made();
    let mut entries = List::new(alloc);
    push_ends(&mut entries, plan, plan.hosts())?;
    push_ends(&mut entries, plan, plan.agents())?;
    push_streams(&mut entries, plan)?;
    Ok(entries)
}

/// The sinks of the streams, in the streams' order.
fn sinks(alloc: Global, plan: &Plan) -> Result<List<EndId>, NoMemory>
    ensures { IfOk result (AreSinks plan.now.system (length (streams_of plan.now.system))) }
{
    plan.well_made();
    streams_are_numbered();
    let mut sinks = List::new(alloc);
    for link in plan.stream_connections() {
        sinks.push(link.sink_end)?;
    }
    Ok(sinks)
}

fn agents(alloc: Global, plan: &Plan) -> Result<List<EndId>, NoMemory>
    ensures { IfOk result (λ agents. agents ≡ agents_of plan.now.system) }
{
    let mut agents = List::new(alloc);
    for agent in plan.agents() {
        agents.push(*agent)?;
    }
    Ok(agents)
}

impl PortMap {
    /// The map of the ports of a plan's module.
    pub fn make(alloc: Global, plan: &Plan) -> Result<PortMap, NoMemory>
        ensures map { IfOk result (IsMapOf plan.now.system) }
        ensures told { IfOk result (AreTold plan.now.system) }
    {
        plan.well_made();
        Ok(PortMap {
            entries: port_entries(alloc, plan)?,
            agents: agents(alloc, plan)?,
            sinks: sinks(alloc, plan)?,
        })
    }
}

fn line_of_entry(alloc: Global, plan: &Plan, entry: &PortEntry) -> Result<PortLine, NoMemory>
    requires { (known : Finished) × IsEnd plan.now.system entry.now.end known }
    ensures { IfOk result (λ line. line ≡ line_of_entry plan.now.system entry.now) }
{
    Ok(PortLine {
        name: name_of_port(alloc, plan, entry.end, entry.port.role.word())?,
        width: entry.port.width,
        output: entry.output,
    })
}

fn header_ports(alloc: Global, plan: &Plan, ports: &PortMap) -> Result<List<PortLine>, NoMemory>
    requires { ports.now.entries ≡ entries_of plan.now.system }
    ensures { IfOk result (λ lines. lines ≡ ports_of plan.now.system) }
{
    plan.well_made();
    let mut lines = List::new(alloc);
    for entry in ports.entries.as_slice() {
        lines.push(line_of_entry(alloc, plan, entry)?)?;
    }
    Ok(lines)
}

fn name_of_module(alloc: Global, plan: &Plan) -> Result<Text, NoMemory>
    ensures { IfOk result (λ name. name ≡ module_name plan.now.system) }
{
    let system = plan.name();
    let name = format!(in alloc; "{system}_interconnect")?;
    Text::copy(alloc, name.as_str())
}

/// The header of the plan's interconnect, with no output driven.
pub fn start(alloc: Global, plan: &Plan, ports: &PortMap) -> Result<Builder, NoMemory>
    requires { ports.now.entries ≡ entries_of plan.now.system }
    ensures started { IfOk result (λ b. b ≡ started (module_name plan.now.system) (ports_of plan.now.system)) }
    ensures well_made { IfOk result (λ b. IsWellMade b) }
    ensures clocked { IfOk result (λ b. IsClocked b) }
    ensures written { IfOk result (λ b. IsWritten b) }
    ensures undriven { IfOk result (λ b. (k : ℕ) → driver_of b k ≡ None) }
{
    plan.well_made();
    proper_records_are_bounded();
    let name = name_of_module(alloc, plan)?;
    let lines = header_ports(alloc, plan, ports)?;
    match Builder::new(alloc, name, lines) {
        Ok(builder) => Ok(builder),
        Err(NetFault::NoMemory) => Err(NoMemory),
        Err(NetFault::TooManyNets) => unreachable!(),
    }
}
