//! The hosts of a plan that ask an agent, and their commands for it.

ghost use Rattle.std.specs.Prelude.{◌≡◌, ℕ, ◌+◌, ◌*◌, ◌^◌, ◌<◌, ◌≤◌, length, IfOk, OnOk};
ghost use Rattle.std.specs.List.{AllZip};
ghost use Rattle.iface_roles.specs.Proper.{IsBoundedAgent};
ghost use Rattle.net_parts.specs.Growth.{GrowsInMemory, StillWait, StillWaitForWrite};
ghost use Rattle.mm_agent.specs.Agents.{AreAgentNets};
ghost use Rattle.mm_fabric.specs.Parts.{IsAgentPart, askers_of};
ghost use Rattle.mm_fabric.specs.Askers.{MayAsk, HasNoRoomFor};
ghost use Rattle.mm_fabric.specs.Wide.{joined_agent_nets, joined_agent_memories};
ghost use Rattle.mm_fabric.specs.Lone.{BoundsReads};
ghost use Rattle.mm_fabric.specs.Asks.{asking_among, asking, command_to, AsksAs, AllHaveCommands, AllCanAsk, IsSeatFor};

use crate::agents::join_agent;
use crate::begun::BegunHost;
use crate::parts::{AgentPart, Asking};
use command_nets::CommandNets;
use iface_roles::AgentPort;
use link_rules::{MemoryConnection, Plan};
use memory_runs::sides::Route;
use mm_agent::AgentNets;
use mm_arbiter::Asker;
use netlist::{Builder, NetFault};
use std::alloc::Global;

/// An agent of a plan: its ports and the nets that it gives.
#[derive(Clone, Copy)]
pub struct AgentEnd {
    pub port: AgentPort,
    pub nets: AgentNets,
}

/// The hosts of those links that are the agent's.
fn asking_among(
    alloc: Global,
    links: &[MemoryConnection],
    agent: u8,
) -> Result<Vec<Asker>, NetFault>
    ensures askers { IfOk result (λ askers. askers.items ≡ asking_among agent links.now) }
    ensures full { ¬ (result ≡ Err NetFault.TooManyNets) }
{
    let mut askers = Vec::new(alloc);
    for link in links {
        if link.agent_number == agent {
            askers.push(Asker {
                host: link.host_number,
                shares: link.shares,
            })?;
        }
    }
    Ok(askers)
}

/// The command of the first route to an agent.
fn command_to(routes: &[Route], commands: &[CommandNets], agent: u8) -> Option<CommandNets>
    requires { length commands.now ≡ length routes.now }
    ensures { result ≡ command_to agent routes.now commands.now }
{
    for k in 0..routes.len() {
        if routes[k].agent == agent {
            return Some(commands[k]);
        }
    }
    None
}

/// The host of each asker, with its command for an agent.
fn commands_for(
    alloc: Global,
    begun: &[BegunHost],
    askers: &[Asker],
    agent: u8,
) -> Result<Vec<Asking>, NetFault>
    requires { AllHaveCommands agent begun.now askers.now }
    ensures asking { IfOk result (λ asking. AllZip (AsksAs agent begun.now) askers.now asking.items) }
    ensures full { ¬ (result ≡ Err NetFault.TooManyNets) }
{
    let mut asking = Vec::new(alloc);
    for asker in askers {
        let host = &begun[asker.host as usize];
        asking.push(Asking {
            port: host.port,
            command: command_to(host.routes.as_slice(), &host.commands, agent).unwrap(),
        })?;
    }
    Ok(asking)
}

/// Makes what stands next to the agent of this number, behind the begun hosts that are joined to it.
///
/// `TooManyNets` comes where the module has no room for these nets. After an error the builder is to be dropped: registers may
/// stand in it that wait.
pub(crate) fn join_hosts(
    alloc: Global,
    builder: &mut Builder,
    plan: &Plan,
    begun: &[BegunHost],
    number: u8,
    end: &AgentEnd,
) -> Result<AgentPart, NetFault>
    requires port { IsBoundedAgent end.now.port }
    requires nets { AreAgentNets builder.old end.now.port end.now.nets }
    requires askers { MayAsk (asking plan.now.system number) }
    requires asks { AllCanAsk plan.now builder.old number end.now.port begun.now (asking plan.now.system number) }
    ensures part { IfOk result (IsAgentPart builder.new plan.now.system.stages) }
    ensures port { IfOk result (λ part. part.port ≡ end.now.port) }
    ensures nets { IfOk result (λ part. part.nets ≡ end.now.nets) }
    ensures askers { IfOk result (λ part. askers_of part.seats ≡ asking plan.now.system number) }
    ensures seats { IfOk result (λ part. AllZip (IsSeatFor builder.new end.now.port number begun.now)
        (asking plan.now.system number) part.seats) }
    ensures bounds { IfOk result (BoundsReads builder.new plan.now.system.stages) }
    ensures grows { GrowsInMemory (joined_agent_nets (length (asking plan.now.system number)))
        (joined_agent_memories (length (asking plan.now.system number))) builder.old builder.new }
    ensures waits { StillWait builder.old builder.new }
    ensures no_more_wait { OnOk result (StillWait builder.new builder.old) }
    ensures still_wait_for_write { OnOk result (StillWaitForWrite builder.old builder.new) }
    ensures no_more_wait_for_write { OnOk result (StillWaitForWrite builder.new builder.old) }

    // Memory may run out at any net.
    ensures full { result ≡ Err NetFault.TooManyNets
        → HasNoRoomFor (joined_agent_nets (length (asking plan.now.system number)))
        (joined_agent_memories (length (asking plan.now.system number))) builder.old }
{
    plan.well_made();
    let askers = asking_among(alloc, plan.memory_connections(), number)?;
    let asking = commands_for(alloc, begun, &askers, number)?;
    join_agent(
        alloc,
        builder,
        &end.port,
        &end.nets,
        &askers,
        &asking,
        plan.stages(),
    )
}
