//! What stands next to a host: the part next to it, and its route.

ghost use Rattle.std.specs.Prelude.{◌≡◌, ℕ, ◌+◌, ◌*◌, ◌≤◌, true, length, IfOk, OnOk};
ghost use Rattle.iface_roles.specs.Proper.{IsBoundedHost};
ghost use Rattle.netlist.specs.Netlists.{IsWaiting};
ghost use Rattle.net_parts.specs.Growth.{GrowsInMemory, WaitsWithout, StillWaitForWrite};
ghost use Rattle.mm_route.specs.Forward.{RouteForward};
ghost use Rattle.mm_route.specs.Backward.{AreBackNets, backward_nets};
ghost use Rattle.mm_host.specs.Reads.{is_unbounded};
ghost use Rattle.mm_fabric.specs.Askers.{HasNoRoomFor};
ghost use Rattle.mm_fabric.specs.Trunks.{owns, IsTrunk};
ghost use Rattle.mm_fabric.specs.Parts.{IsHostPart};
ghost use Rattle.mm_fabric.specs.Ways.{AreWaysOf};
ghost use Rattle.mm_fabric.specs.Lone.{IsBoundedRoute};

use crate::parts::{HostPart, Way};
use crate::trunk::{Trunk, finish_trunk};
use av_base::List;
use command_nets::CommandNets;
use iface_roles::HostPort;
use memory_runs::sides::Route;
use mm_route::BackNets;
use netlist::{Builder, NetFault};
use std::alloc::Global;

/// The ways below a route, in the order of its entries.
fn ways_of(
    alloc: Global,
    routes: &[Route],
    commands: &[CommandNets],
    backs: &[BackNets],
) -> Result<List<Way>, NetFault>
    requires commands { length commands.now ≡ length routes.now }
    requires backs { length backs.now ≡ length routes.now }
    ensures ways { IfOk result (AreWaysOf routes.now commands.now backs.now) }
    ensures full { ¬ (result ≡ Err NetFault.TooManyNets) }
{
    let mut ways = List::new(alloc);
    for k in 0..routes.len() {
        let way = Way {
            agent: routes[k].agent,
            command: commands[k],
            back: backs[k],
        };
        if ways.push(way).is_err() {
            return Err(NetFault::NoMemory);
        }
    }
    Ok(ways)
}

/// Finishes what stands next to a host, with what comes back from the agents of its routes.
///
/// `TooManyNets` comes where the module has no room for these nets. After an error the builder is to be dropped: registers may
/// stand in it that wait.
pub(crate) fn finish_host_part(
    alloc: Global,
    builder: &mut Builder,
    port: &HostPort,
    trunk: &Trunk,
    routes: &[Route],
    commands: &[CommandNets],
    backs: &[BackNets],
) -> Result<HostPart, NetFault>
    requires port { IsBoundedHost port.now }
    requires trunk { IsTrunk builder.old port.now (length backs.now) trunk.now }
    requires few { length backs.now ≤ 128 }
    requires routes { length backs.now ≡ length routes.now }
    requires commands { length commands.now ≡ length routes.now }
    requires backs { AreBackNets builder.old (port.now.word_bytes * 8) backs.now }
    requires bounded { is_unbounded trunk.now.host.reads ≡ true
        → IsBoundedRoute builder.old routes.now trunk.now.host.command commands.now backs.now }
    ensures part { IfOk result (λ part. (number : ℕ)
        → RouteForward routes.now number trunk.now.host.command commands.now trunk.now.route builder.old
        → IsHostPart builder.new number routes.now part) }
    ensures port { IfOk result (λ part. part.port ≡ port.now) }
    ensures nets { IfOk result (λ part. part.held.nets ≡ trunk.now.host.nets) }
    ensures ways { IfOk result (λ part. AreWaysOf routes.now commands.now backs.now part.ways) }
    ensures grows { GrowsInMemory (backward_nets (length backs.now) + 171) 1 builder.old builder.new }
    ensures waits { (n : ℕ) → ¬ owns trunk.now n → IsWaiting builder.old n → IsWaiting builder.new n }
    ensures no_more_wait { OnOk result (WaitsWithout (owns trunk.now) builder.old builder.new) }
    ensures still_wait_for_write { StillWaitForWrite builder.old builder.new }
    ensures no_more_wait_for_write { OnOk result (StillWaitForWrite builder.new builder.old) }

    // Memory may run out at any net.
    ensures full { result ≡ Err NetFault.TooManyNets → HasNoRoomFor (backward_nets (length backs.now) + 171) 1 builder.old }
{
    let told = finish_trunk(builder, port, trunk, backs)?;
    let ways = ways_of(alloc, routes, commands, backs)?;
    Ok(HostPart {
        port: *port,
        held: trunk.host,
        route: trunk.route,
        ways,
        wait: told.wait,
        answer: told.answer,
        told: told.host,
    })
}
