//! The hosts of a plan with their routes, which wait for what comes back from the agents.

ghost use Rattle.std.specs.Prelude.{◌≡◌, ℕ, ◌+◌, ◌*◌, ◌^◌, ◌<◌, ◌≤◌, length, IfOk, OnOk};
ghost use Rattle.address_map.specs.Maps.{hosts_of};
ghost use Rattle.net_parts.specs.Growth.{GrowsBy, StillWait, WaitsBeside, AreMadeBetween};
ghost use Rattle.mm_fabric.specs.Trunks.{owns};
ghost use Rattle.mm_fabric.specs.Begun.{IsHostEnd, AreHostEnds, IsBegun, end_of, begun_nets, HaveBegun};

use crate::bounds::needs_no_count;
use crate::trunk::{Trunk, begin_trunk};
use av_base::List;
use command_nets::CommandNets;
use iface_roles::HostPort;
use link_rules::Plan;
use memory_plans::{host_routes, routes_are_mapped};
use memory_runs::sides::Route;
use mm_host::HostNets;
use netlist::{Builder, NetFault};
use std::alloc::Global;

/// A host of a plan: its ports and the nets that it gives.
#[derive(Clone, Copy)]
pub struct HostEnd {
    pub port: HostPort,
    pub nets: HostNets,
}

/// A host with its routes and their commands, between its calls.
#[derive(Drop)]
pub struct BegunHost {
    pub port: HostPort,
    pub trunk: Trunk,
    pub routes: List<Route>,
    /// In the order of the routes.
    pub commands: Vec<CommandNets>,
}

/// Makes the commands of the host of this number for each of its agents.
///
/// After an error the builder is to be dropped: registers may stand in it that wait.
fn begin_host(
    alloc: Global,
    builder: &mut Builder,
    plan: &Plan,
    number: u8,
    end: &HostEnd,
) -> Result<BegunHost, NetFault>
    requires inside { number < length (hosts_of plan.now.system) }
    requires end { IsHostEnd plan.now builder.old number end.now }
    ensures begun { IfOk result (IsBegun plan.now builder.new number) }
    ensures end { IfOk result (λ begun. end_of begun ≡ end.now) }
    ensures owned { IfOk result (λ begun. AreMadeBetween (owns begun.trunk) builder.old builder.new) }
    ensures newly { IfOk result (λ begun. WaitsBeside (owns begun.trunk) builder.old builder.new) }
    ensures grows { GrowsBy begun_nets builder.old builder.new }
    ensures waits { StillWait builder.old builder.new }
    ensures full { result ≡ Err NetFault.TooManyNets → 2 ^ 20 < length builder.old.lines + begun_nets }
{
    plan.well_made();
    plan.is_within_limits();
    routes_are_mapped();
    let routes = match host_routes(alloc, plan, number) {
        Ok(routes) => routes,
        Err(_) => return Err(NetFault::NoMemory),
    };
    let bounded = needs_no_count(plan, number, &end.port, routes.as_slice());
    let (commands, trunk) = begin_trunk(
        alloc,
        builder,
        number,
        &end.port,
        &end.nets,
        routes.as_slice(),
        bounded,
    )?;
    Ok(BegunHost {
        port: end.port,
        trunk,
        routes,
        commands,
    })
}

/// Makes the commands of each host for each of its agents, in the order of the hosts' numbers.
///
/// `TooManyNets` comes where the module has no room for these nets. After an error the builder is to be dropped: registers may
/// stand in it that wait.
pub fn begin_hosts(
    alloc: Global,
    builder: &mut Builder,
    plan: &Plan,
    ends: &[HostEnd],
) -> Result<List<BegunHost>, NetFault>
    requires many { length ends.now ≡ length (hosts_of plan.now.system) }
    requires ends { AreHostEnds plan.now builder.old 0 ends.now }
    ensures begun { IfOk result (HaveBegun plan.now builder.old builder.new ends.now) }
    ensures grows { GrowsBy (begun_nets * length ends.now) builder.old builder.new }
    ensures waits { StillWait builder.old builder.new }

    // Memory may run out at any net.
    ensures full { result ≡ Err NetFault.TooManyNets → 2 ^ 20 < length builder.old.lines + begun_nets * length ends.now }
{
    plan.is_within_limits();
    let mut begun = List::new(alloc);
    for number in 0..ends.len() {
        let host = begin_host(alloc, builder, plan, number as u8, &ends[number])?;
        if begun.push(host).is_err() {
            return Err(NetFault::NoMemory);
        }
    }
    Ok(begun)
}
