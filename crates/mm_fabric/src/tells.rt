//! What the agents of a host tell it.

ghost use Rattle.std.specs.Prelude.{◌≡◌, ℕ, ◌+◌, ◌*◌, ◌≤◌, true, length, IfOk, OnOk};
ghost use Rattle.std.specs.List.{AllZip};
ghost use Rattle.iface_roles.specs.Proper.{IsBoundedHost};
ghost use Rattle.netlist.specs.Netlists.{IsWaiting};
ghost use Rattle.net_parts.specs.Growth.{GrowsInMemory, WaitsWithout, StillWaitForWrite};
ghost use Rattle.mm_route.specs.Forward.{RouteForward};
ghost use Rattle.mm_route.specs.Backward.{backward_nets};
ghost use Rattle.mm_host.specs.Reads.{is_unbounded};
ghost use Rattle.mm_fabric.specs.Askers.{HasNoRoomFor};
ghost use Rattle.mm_fabric.specs.Trunks.{owns, IsTrunk};
ghost use Rattle.mm_fabric.specs.Parts.{IsHostPart, commands_below, backs_below};
ghost use Rattle.mm_fabric.specs.Fabrics.{seat_of};
ghost use Rattle.mm_fabric.specs.Tells.{IsBackFor, AllCanTell, AllHaveSeats};
ghost use Rattle.mm_fabric.specs.Lone.{IsLoneWay};

use crate::begun::BegunHost;
use crate::hosts::finish_host_part;
use crate::parts::{AgentPart, HostPart, Seat};
use memory_runs::sides::Route;
use mm_route::BackNets;
use netlist::{Builder, NetFault};
use std::alloc::Global;

/// The seat of a host.
fn seat_of(seats: &[Seat], host: u8) -> Option<Seat>
    ensures { result ≡ seat_of host seats.now }
{
    for seat in seats {
        if seat.host == host {
            return Some(*seat);
        }
    }
    None
}

/// What comes back from the agent of each route to the host of this number.
fn backs_for(
    alloc: Global,
    parts: &[AgentPart],
    routes: &[Route],
    host: u8,
) -> Result<Vec<BackNets>, NetFault>
    requires { AllHaveSeats host parts.now routes.now }
    ensures backs { IfOk result (λ backs. AllZip (IsBackFor host parts.now) routes.now backs.items) }
    ensures full { ¬ (result ≡ Err NetFault.TooManyNets) }
{
    let mut backs = Vec::new(alloc);
    for route in routes {
        let part = &parts[route.agent as usize];
        let seat = seat_of(part.seats.as_slice(), host).unwrap();
        backs.push(seat.told)?;
    }
    Ok(backs)
}

/// Finishes the begun host of this number, with what comes back from its agents.
///
/// `TooManyNets` comes where the module has no room for these nets. After an error the builder is to be dropped: registers may
/// stand in it that wait.
pub(crate) fn finish_begun(
    alloc: Global,
    builder: &mut Builder,
    begun: &BegunHost,
    number: u8,
    parts: &[AgentPart],
) -> Result<HostPart, NetFault>
    requires port { IsBoundedHost begun.now.port }
    requires trunk { IsTrunk builder.old begun.now.port (length begun.now.routes) begun.now.trunk }
    requires lone { is_unbounded begun.now.trunk.host.reads ≡ true → IsLoneWay builder.old parts.now number begun.now }
    requires few { length begun.now.routes ≤ 32 }
    requires forward { RouteForward begun.now.routes number begun.now.trunk.host.command begun.now.commands.items begun.now.trunk.route builder.old }
    requires tell { AllCanTell builder.old (begun.now.port.word_bytes * 8) number parts.now begun.now.routes }
    ensures part { IfOk result (IsHostPart builder.new number begun.now.routes) }
    ensures port { IfOk result (λ part. part.port ≡ begun.now.port) }
    ensures nets { IfOk result (λ part. part.held.nets ≡ begun.now.trunk.host.nets) }
    ensures commands { IfOk result (λ part. commands_below part.ways ≡ begun.now.commands.items) }
    ensures backs { IfOk result (λ part. AllZip (IsBackFor number parts.now) begun.now.routes (backs_below part.ways)) }
    ensures grows { GrowsInMemory (backward_nets (length begun.now.routes) + 171) 1 builder.old builder.new }
    ensures waits { (n : ℕ) → ¬ owns begun.now.trunk n → IsWaiting builder.old n → IsWaiting builder.new n }
    ensures no_more_wait { OnOk result (WaitsWithout (owns begun.now.trunk) builder.old builder.new) }
    ensures still_wait_for_write { StillWaitForWrite builder.old builder.new }
    ensures no_more_wait_for_write { OnOk result (StillWaitForWrite builder.new builder.old) }

    // Memory may run out at any net.
    ensures full { result ≡ Err NetFault.TooManyNets
        → HasNoRoomFor (backward_nets (length begun.now.routes) + 171) 1 builder.old }
{
    let routes = begun.routes.as_slice();
    let backs = backs_for(alloc, parts, routes, number)?;
    finish_host_part(
        alloc,
        builder,
        &begun.port,
        &begun.trunk,
        routes,
        &begun.commands,
        &backs,
    )
}
