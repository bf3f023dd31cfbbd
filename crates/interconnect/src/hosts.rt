//! The hosts of a plan: their ports, and what drives their outputs.

ghost use Rattle.std.specs.Prelude.{◌≡◌, ℕ, ◌+◌, ◌<◌, length, IfOk, OnOk};
ghost use Rattle.address_map.specs.Maps.{hosts_of};
ghost use Rattle.netlist.specs.Netlists.{driver_of};
ghost use Rattle.netlist.specs.Longer.{Extends};
ghost use Rattle.port_tables.specs.Ports.{ports_of};
ghost use Rattle.port_tables.specs.PortMaps.{entries_of};
ghost use Rattle.interconnect.specs.Outputs.{HasSameNets};
ghost use Rattle.interconnect.specs.Each.{MayDriveEach, AreEachDriven, IsNoPortOfEach};
ghost use Rattle.interconnect.specs.Hosts.{AreHostsIn, host_outputs};

use crate::outputs::{Output, drive_at, input_net, input_of};
use av_base::{List, NoMemory};
use link_rules::Plan;
use mm_fabric::{HostEnd, HostPart};
use mm_host::HostNets;
use netlist::Builder;
use port_tables::{PortMap, PortRole, ports_are_known};
use std::alloc::Global;

/// Appends the host of this number, with the nets that it gives, to those before it.
fn push_host(
    builder: &Builder,
    plan: &Plan,
    ports: &PortMap,
    number: usize,
    ends: &mut List<HostEnd>,
) -> Result<(), NoMemory>
    requires builder { builder.now.ports ≡ ports_of plan.now.system }
    requires map { ports.now.entries ≡ entries_of plan.now.system }
    requires inside { number < length (hosts_of plan.now.system) }
    requires before { AreHostsIn plan.now.system builder.now number ends.old }
    ensures { OnOk result (AreHostsIn plan.now.system builder.now (number + 1) ends.new) }
{
    ports_are_known(plan);
    let end = plan.hosts()[number];
    let port = plan.host(number);
    ends.push(HostEnd {
        port,
        nets: HostNets {
            address: input_net(builder, plan, ports, end, PortRole::Address),
            read: input_of(builder, plan, ports, end, PortRole::Read),
            write: input_of(builder, plan, ports, end, PortRole::Write),
            writedata: input_of(builder, plan, ports, end, PortRole::WriteData),
            byteenable: input_of(builder, plan, ports, end, PortRole::ByteEnable),
            burstcount: input_of(builder, plan, ports, end, PortRole::BurstCount),
        },
    })
}

/// The hosts of the plan, by their numbers.
pub(crate) fn host_ends(
    alloc: Global,
    builder: &Builder,
    plan: &Plan,
    ports: &PortMap,
) -> Result<List<HostEnd>, NoMemory>
    requires builder { builder.now.ports ≡ ports_of plan.now.system }
    requires map { ports.now.entries ≡ entries_of plan.now.system }
    ensures { IfOk result (AreHostsIn plan.now.system builder.now (length (hosts_of plan.now.system))) }
{
    let mut ends = List::new(alloc);
    for number in 0..plan.hosts().len() {
        push_host(builder, plan, ports, number, &mut ends)?;
    }
    Ok(ends)
}

/// What drives the outputs at a host.
fn host_outputs(part: &HostPart) -> [Output; 4]
    ensures { result ≡ host_outputs part.now }
{
    let told = &part.told;
    // where the host has no such port, any net will do
    let wait = told.waitrequest;
    [
        Output::new(PortRole::WaitRequest, wait),
        Output::new(PortRole::ReadData, told.readdata),
        Output::new(PortRole::ReadDataValid, told.readdatavalid.unwrap_or(wait)),
        Output::new(PortRole::Response, told.response.unwrap_or(wait)),
    ]
}

/// Lets what each host is told drive the outputs at it.
pub(crate) fn drive_hosts(builder: &mut Builder, plan: &Plan, ports: &PortMap, parts: &[HostPart])
    requires map { ports.now.entries ≡ entries_of plan.now.system }
    requires can { MayDriveEach plan.now.system host_outputs (hosts_of plan.now.system) parts.now builder.old }
    ensures same { HasSameNets builder.old builder.new }
    ensures extends { Extends builder.old builder.new }
    ensures driven { AreEachDriven plan.now.system host_outputs (hosts_of plan.now.system) parts.now builder.new }
    ensures others { (k : ℕ) → IsNoPortOfEach plan.now.system (hosts_of plan.now.system) k
        → driver_of builder.new k ≡ driver_of builder.old k }
{
    ports_are_known(plan);
    netlist::keeps();
    for number in 0..parts.len() {
        let end = plan.hosts()[number];
        drive_at(builder, plan, ports, end, &host_outputs(&parts[number]));
    }
}
