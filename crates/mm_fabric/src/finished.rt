//! The hosts of a plan that are finished with what their agents tell.

ghost use Rattle.std.specs.Prelude.{◌≡◌, ℕ, ◌*◌, ◌≤◌, length, IfOk, OnOk};
ghost use Rattle.netlist.specs.Netlists.{IsWaiting};
ghost use Rattle.net_parts.specs.Growth.{GrowsInMemory, WaitsWithout, StillWaitForWrite};
ghost use Rattle.mm_fabric.specs.Askers.{HasNoRoomFor};
ghost use Rattle.mm_fabric.specs.Begun.{IsOfAny, AreApart};
ghost use Rattle.mm_fabric.specs.Finished.{AllMayFinish, AreFinished, finished_nets};

use crate::begun::BegunHost;
use crate::parts::{AgentPart, HostPart};
use crate::tells::finish_begun;
use av_base::List;
use netlist::{Builder, NetFault};
use std::alloc::Global;

/// Finishes each begun host with what comes back from its agents, in the order of the hosts' numbers.
///
/// `TooManyNets` comes where the module has no room for these nets. After an error the builder is to be dropped: registers may
/// stand in it that wait.
pub fn finish_hosts(
    alloc: Global,
    builder: &mut Builder,
    begun: &[BegunHost],
    parts: &[AgentPart],
) -> Result<List<HostPart>, NetFault>
    requires few { length begun.now ≤ 16 }
    requires hosts { AllMayFinish builder.old parts.now 0 begun.now }
    requires apart { AreApart begun.now }
    ensures hosts { IfOk result (AreFinished builder.new parts.now 0 begun.now) }
    ensures grows { GrowsInMemory (finished_nets * length begun.now) (length begun.now) builder.old builder.new }
    ensures waits { (n : ℕ) → ¬ IsOfAny begun.now n → IsWaiting builder.old n → IsWaiting builder.new n }
    ensures no_more_wait { OnOk result (WaitsWithout (IsOfAny begun.now) builder.old builder.new) }
    ensures still_wait_for_write { StillWaitForWrite builder.old builder.new }
    ensures no_more_wait_for_write { OnOk result (StillWaitForWrite builder.new builder.old) }

    // Memory may run out at any net.
    ensures full { result ≡ Err NetFault.TooManyNets
        → HasNoRoomFor (finished_nets * length begun.now) (length begun.now) builder.old }
{
    let mut hosts = List::new(alloc);
    for number in 0..begun.len() {
        let host = finish_begun(alloc, builder, &begun[number], number as u8, parts)?;
        if hosts.push(host).is_err() {
            return Err(NetFault::NoMemory);
        }
    }
    Ok(hosts)
}
