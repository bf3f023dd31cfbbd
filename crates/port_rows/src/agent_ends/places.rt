//! Where the signals of an agent stand.

ghost use Rattle.std.specs.Prelude.{◌≡◌, Some, slice_get};
ghost use Rattle.address_map.specs.Maps.{agents_of};
ghost use Rattle.port_tables.specs.declared.roles.PortRole.TheVariants.{Grant};
ghost use Rattle.port_tables.specs.Ends.{IsAnEnd};
ghost use Rattle.port_tables.specs.Ports.{ports_of};
ghost use Rattle.port_tables.specs.PortMaps.{AreTold, port_at};
ghost use Rattle.port_rows.specs.Levels.{AllFit, set_levels};
ghost use Rattle.port_rows.specs.Agents.{agent_places, agent_outputs, agent_levels};

use crate::{Driven, InputRow, input_place, port_number};
use iface_roles::Role;
use interconnect::PortMap;
use link_rules::Plan;
use netlist::PortLine;
use system_tables::EndId;

/// What an agent shows in a cycle: `waitrequest`, `readdatavalid`, `readdata` and `response`.
#[derive(Clone, Copy)]
pub struct AgentLevels {
    pub wait: bool,
    pub valid: bool,
    pub word: u128,
    pub code: u8,
}

/// Where `waitrequest`, `readdatavalid`, `readdata` and `response` of an agent stand in a row of values; None where a port is
/// absent.
#[derive(Clone, Copy)]
pub struct AgentPlaces {
    pub wait: Option<usize>,
    pub valid: Option<usize>,
    pub word: Option<usize>,
    pub response: Option<usize>,
}

/// The numbers, in the header, of the outputs that command an agent, and of `grant`. None where a port is absent.
#[derive(Clone, Copy)]
pub struct AgentPorts {
    pub address: Option<u32>,
    pub read: Option<u32>,
    pub write: Option<u32>,
    pub word: Option<u32>,
    pub enables: Option<u32>,
    pub count: Option<u32>,
    pub grant: Option<u32>,
}

impl AgentPlaces {
    /// The places of the agent at an end of the plan, by the header of the plan's module.
    pub fn of(plan: &Plan, ports: &PortMap, header: &[PortLine], end: EndId) -> AgentPlaces
        requires told { AreTold plan.now.system ports.now }
        requires end { IsAnEnd plan.now.system end }
        requires header { header.now ≡ ports_of plan.now.system }
        ensures { result ≡ agent_places plan.now.system end }
    {
        AgentPlaces {
            wait: input_place(plan, ports, header, end, Role::WaitRequest),
            valid: input_place(plan, ports, header, end, Role::ReadDataValid),
            word: input_place(plan, ports, header, end, Role::ReadData),
            response: input_place(plan, ports, header, end, Role::Response),
        }
    }

    /// Sets the levels of a cycle in a row, which has room for them.
    pub fn show(&self, row: &mut InputRow, levels: AgentLevels)
        requires { AllFit row.old (agent_levels self.now levels) }
        ensures { row.new ≡ set_levels row.old (agent_levels self.now levels) }
    {
        let places = *self;
        row.drive(&[
            Driven {
                place: places.wait,
                bits: u128::from(levels.wait),
            },
            Driven {
                place: places.valid,
                bits: u128::from(levels.valid),
            },
            Driven {
                place: places.word,
                bits: levels.word,
            },
            Driven {
                place: places.response,
                bits: u128::from(levels.code),
            },
        ]);
    }
}

/// The output `grant` of the agent of this number in the plan.
fn grant_of(plan: &Plan, ports: &PortMap, end: EndId, agent: u32) -> u32
    requires told { AreTold plan.now.system ports.now }
    requires agent { slice_get (agents_of plan.now.system) agent ≡ Some end }
    ensures { port_at plan.now.system end Grant ≡ Some result }
{
    ports.grant(agent)
}

impl AgentPorts {
    /// The outputs that command the agent of this number in the plan, which is at this end.
    pub fn of(plan: &Plan, ports: &PortMap, end: EndId, agent: u32) -> AgentPorts
        requires told { AreTold plan.now.system ports.now }
        requires end { IsAnEnd plan.now.system end }
        requires agent { slice_get (agents_of plan.now.system) agent ≡ Some end }
        ensures { result ≡ agent_outputs plan.now.system end }
    {
        let grant = grant_of(plan, ports, end, agent);
        AgentPorts {
            address: port_number(plan, ports, end, Role::Address),
            read: port_number(plan, ports, end, Role::Read),
            write: port_number(plan, ports, end, Role::Write),
            word: port_number(plan, ports, end, Role::WriteData),
            enables: port_number(plan, ports, end, Role::ByteEnable),
            count: port_number(plan, ports, end, Role::BurstCount),
            grant: Some(grant),
        }
    }
}
