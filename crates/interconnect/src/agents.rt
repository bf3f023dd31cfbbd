//! The agents of a plan: their ports, and what drives their outputs.

ghost use Rattle.std.specs.Prelude.{◌≡◌, ℕ, ◌+◌, ◌<◌, length, IfOk, OnOk};
ghost use Rattle.address_map.specs.Maps.{agents_of};
ghost use Rattle.netlist.specs.Netlists.{driver_of};
ghost use Rattle.netlist.specs.Longer.{Extends};
ghost use Rattle.port_tables.specs.Ports.{ports_of};
ghost use Rattle.port_tables.specs.PortMaps.{entries_of};
ghost use Rattle.interconnect.specs.Outputs.{HasSameNets};
ghost use Rattle.interconnect.specs.Each.{MayDriveEach, AreEachDriven, IsNoPortOfEach};
ghost use Rattle.interconnect.specs.Agents.{AreAgentsIn, agent_outputs};

use crate::outputs::{Output, drive_at, input_of};
use av_base::{List, NoMemory};
use link_rules::Plan;
use mm_agent::AgentNets;
use mm_fabric::{AgentEnd, AgentPart};
use netlist::Builder;
use port_tables::{PortMap, PortRole, ports_are_known};
use std::alloc::Global;

/// Appends the agent of this number, with the nets that it gives, to those before it.
fn push_agent(
    builder: &Builder,
    plan: &Plan,
    ports: &PortMap,
    number: usize,
    ends: &mut List<AgentEnd>,
) -> Result<(), NoMemory>
    requires builder { builder.now.ports ≡ ports_of plan.now.system }
    requires map { ports.now.entries ≡ entries_of plan.now.system }
    requires inside { number < length (agents_of plan.now.system) }
    requires before { AreAgentsIn plan.now.system builder.now number ends.old }
    ensures { OnOk result (AreAgentsIn plan.now.system builder.now (number + 1) ends.new) }
{
    ports_are_known(plan);
    let end = plan.agents()[number];
    let port = plan.agent(number);
    ends.push(AgentEnd {
        port,
        nets: AgentNets {
            waitrequest: input_of(builder, plan, ports, end, PortRole::WaitRequest),
            readdata: input_of(builder, plan, ports, end, PortRole::ReadData),
            readdatavalid: input_of(builder, plan, ports, end, PortRole::ReadDataValid),
            response: input_of(builder, plan, ports, end, PortRole::Response),
        },
    })
}

/// The agents of the plan, by their numbers.
pub(crate) fn agent_ends(
    alloc: Global,
    builder: &Builder,
    plan: &Plan,
    ports: &PortMap,
) -> Result<List<AgentEnd>, NoMemory>
    requires builder { builder.now.ports ≡ ports_of plan.now.system }
    requires map { ports.now.entries ≡ entries_of plan.now.system }
    ensures { IfOk result (AreAgentsIn plan.now.system builder.now (length (agents_of plan.now.system))) }
{
    let mut ends = List::new(alloc);
    for number in 0..plan.agents().len() {
        push_agent(builder, plan, ports, number, &mut ends)?;
    }
    Ok(ends)
}

/// What drives the outputs at an agent.
fn agent_outputs(part: &AgentPart) -> [Output; 7]
    ensures { result ≡ agent_outputs part.now }
{
    let command = &part.command;
    let made = &part.made;
    [
        Output::new(PortRole::Address, made.address.unwrap_or(command.write)),
        Output::new(PortRole::Read, made.read.unwrap_or(command.write)),
        Output::new(PortRole::Write, command.write),
        Output::new(PortRole::WriteData, command.word),
        Output::new(PortRole::ByteEnable, command.enables),
        Output::new(PortRole::BurstCount, command.count),
        Output::new(PortRole::Grant, command.tag),
    ]
}

/// Lets the command to each agent drive the outputs at it.
pub(crate) fn drive_agents(builder: &mut Builder, plan: &Plan, ports: &PortMap, parts: &[AgentPart])
    requires map { ports.now.entries ≡ entries_of plan.now.system }
    requires can { MayDriveEach plan.now.system agent_outputs (agents_of plan.now.system) parts.now builder.old }
    ensures same { HasSameNets builder.old builder.new }
    ensures extends { Extends builder.old builder.new }
    ensures driven { AreEachDriven plan.now.system agent_outputs (agents_of plan.now.system) parts.now builder.new }
    ensures others { (k : ℕ) → IsNoPortOfEach plan.now.system (agents_of plan.now.system) k
        → driver_of builder.new k ≡ driver_of builder.old k }
{
    ports_are_known(plan);
    netlist::keeps();
    for number in 0..parts.len() {
        let end = plan.agents()[number];
        drive_at(builder, plan, ports, end, &agent_outputs(&parts[number]));
    }
}
