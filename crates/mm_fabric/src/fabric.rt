//! All that stands between the hosts and agents of a plan.

ghost use Rattle.std.specs.Prelude.{◌≡◌, ◌+◌, length, map, IfOk, OnOk};
ghost use Rattle.link_rules.specs.PlanConnections.{memory_connections};
ghost use Rattle.net_parts.specs.Growth.{GrowsInMemory, StillWait, StillWaitForWrite};
ghost use Rattle.mm_fabric.specs.Askers.{HasNoRoomFor};
ghost use Rattle.mm_fabric.specs.Ends.{AreHosts, AreAgents, AreParts, host_end_of, agent_end_of, fabric_nets, fabric_memories};

use crate::asks::AgentEnd;
use crate::begun::{HostEnd, begin_hosts};
use crate::finished::finish_hosts;
use crate::joined::join_agents;
use crate::laws::plans_are_linked;
use crate::parts::{AgentPart, HostPart};
use av_base::List;
use link_rules::Plan;
use netlist::{Builder, NetFault};
use std::alloc::Global;

/// The parts next to the hosts and next to the agents of a plan, each in the order of their numbers.
#[derive(Drop)]
pub struct FabricParts {
    pub hosts: List<HostPart>,
    pub agents: List<AgentPart>,
}

/// Makes all that stands between the hosts and agents of a plan.
///
/// `TooManyNets` comes where the module has no room for these nets. After an error the builder is to be dropped: registers may
/// stand in it that wait.
pub fn emit_fabric(
    alloc: Global,
    builder: &mut Builder,
    plan: &Plan,
    hosts: &[HostEnd],
    agents: &[AgentEnd],
) -> Result<FabricParts, NetFault>
    requires hosts { AreHosts plan.now builder.old hosts.now }
    requires agents { AreAgents plan.now builder.old agents.now }
    ensures parts { IfOk result (AreParts plan.now builder.new) }
    ensures hosts { IfOk result (λ parts. map host_end_of parts.hosts ≡ hosts.now) }
    ensures agents { IfOk result (λ parts. map agent_end_of parts.agents ≡ agents.now) }
    ensures grows { GrowsInMemory
        (fabric_nets (length hosts.now) (length agents.now) (length (memory_connections plan.now.system)))
        (fabric_memories (length hosts.now) (length agents.now)
        (length (memory_connections plan.now.system))) builder.old builder.new }
    ensures waits { StillWait builder.old builder.new }
    ensures no_more_wait { OnOk result (StillWait builder.new builder.old) }
    ensures still_wait_for_write { OnOk result (StillWaitForWrite builder.old builder.new) }
    ensures no_more_wait_for_write { OnOk result (StillWaitForWrite builder.new builder.old) }

    // Memory may run out at any net.
    ensures full { result ≡ Err NetFault.TooManyNets
        → HasNoRoomFor (fabric_nets (length hosts.now) (length agents.now) (length (memory_connections plan.now.system)))
        (fabric_memories (length hosts.now) (length agents.now) (length (memory_connections plan.now.system))) builder.old }
{
    plan.well_made();
    plan.is_within_limits();
    plans_are_linked();
    let begun = begin_hosts(alloc, builder, plan, hosts)?;
    let joined = join_agents(alloc, builder, plan, begun.as_slice(), agents)?;
    let finished = finish_hosts(alloc, builder, begun.as_slice(), joined.as_slice())?;
    Ok(FabricParts {
        hosts: finished,
        agents: joined,
    })
}
