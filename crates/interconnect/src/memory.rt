//! The hosts and agents of a plan joined to each other.

ghost use Rattle.std.specs.Prelude.{◌≡◌, ◌<◌, length, IfOk, OnOk};
ghost use Rattle.address_map.specs.Maps.{hosts_of};
ghost use Rattle.port_tables.specs.PortMaps.{entries_of};
ghost use Rattle.interconnect.specs.Fabrics.{AddsFabric};
ghost use Rattle.interconnect.specs.Joins.{IsBegun, IsJoinedUpTo};

use crate::agents::{agent_ends, drive_agents};
use crate::hosts::{drive_hosts, host_ends};
use address_map::ends_have_one_number;
use av_base::NoMemory;
use link_rules::Plan;
use memory_plans::links_are_connections;
use mm_fabric::{FabricParts, emit_fabric, links_are_few};
use netlist::{Builder, NetFault};
use port_tables::{PortMap, ports_are_known};
use std::alloc::Global;

/// Adds all that stands between hosts and agents.
fn add_fabric(
    alloc: Global,
    builder: &mut Builder,
    plan: &Plan,
    ports: &PortMap,
) -> Result<FabricParts, NoMemory>
    requires some { 0 < length (hosts_of plan.now.system) }
    requires map { ports.now.entries ≡ entries_of plan.now.system }
    requires begun { IsBegun plan.now.system builder.old }
    ensures { IfOk result (AddsFabric plan.now builder.old builder.new) }
{
    plan.well_made();
    ports_are_known(plan);
    links_are_connections();
    links_are_few();
    let hosts = host_ends(alloc, builder, plan, ports)?;
    let agents = agent_ends(alloc, builder, plan, ports)?;
    match emit_fabric(alloc, builder, plan, hosts.as_slice(), agents.as_slice()) {
        Ok(parts) => Ok(parts),
        Err(NetFault::NoMemory) => Err(NoMemory),
        Err(NetFault::TooManyNets) => unreachable!(),
    }
}

/// Joins the hosts and agents, if there are any.
pub(crate) fn join_memory(
    alloc: Global,
    builder: &mut Builder,
    plan: &Plan,
    ports: &PortMap,
) -> Result<(), NoMemory>
    requires map { ports.now.entries ≡ entries_of plan.now.system }
    requires begun { IsBegun plan.now.system builder.old }
    ensures { OnOk result (IsJoinedUpTo plan.now 0 builder.new) }
{
    ports_are_known(plan);
    ends_have_one_number();
    // a plan of streams alone has no fabric
    if plan.hosts().is_empty() {
        return Ok(());
    }
    let parts = add_fabric(alloc, builder, plan, ports)?;
    drive_hosts(builder, plan, ports, parts.hosts.as_slice());
    drive_agents(builder, plan, ports, parts.agents.as_slice());
    Ok(())
}
