//! Where the signals of a host stand.

ghost use Rattle.std.specs.Prelude.{◌≡◌};
ghost use Rattle.port_tables.specs.Ends.{IsAnEnd};
ghost use Rattle.port_tables.specs.Ports.{ports_of};
ghost use Rattle.port_tables.specs.PortMaps.{AreTold};
ghost use Rattle.port_rows.specs.Levels.{AllFit, set_levels};
ghost use Rattle.stand_ins.specs.Steps.{levels_of};
ghost use Rattle.port_rows.specs.Hosts.{host_places, host_outputs, host_levels};

use crate::{Driven, InputRow, input_place, port_number};
use iface_roles::Role;
use interconnect::PortMap;
use link_rules::Plan;
use netlist::PortLine;
use stand_ins::hosts::CommandLevels;
use system_tables::EndId;

/// Where the command signals of a host stand in a row of values; None where its port is absent.
#[derive(Clone, Copy)]
pub struct HostPlaces {
    pub address: Option<usize>,
    pub read: Option<usize>,
    pub write: Option<usize>,
    pub word: Option<usize>,
    pub enables: Option<usize>,
    pub count: Option<usize>,
}

/// The numbers, in the header, of the outputs that answer a host: `waitrequest`, `readdatavalid`, `readdata` and `response`. None
/// where a port is absent.
#[derive(Clone, Copy)]
pub struct HostPorts {
    pub wait: Option<u32>,
    pub valid: Option<u32>,
    pub word: Option<u32>,
    pub response: Option<u32>,
}

impl HostPlaces {
    /// The places of the host at an end of the plan, by the header of the plan's module.
    pub fn of(plan: &Plan, ports: &PortMap, header: &[PortLine], end: EndId) -> HostPlaces
        requires told { AreTold plan.now.system ports.now }
        requires end { IsAnEnd plan.now.system end }
        requires header { header.now ≡ ports_of plan.now.system }
        ensures { result ≡ host_places plan.now.system end }
    {
        HostPlaces {
            address: input_place(plan, ports, header, end, Role::Address),
            read: input_place(plan, ports, header, end, Role::Read),
            write: input_place(plan, ports, header, end, Role::Write),
            word: input_place(plan, ports, header, end, Role::WriteData),
            enables: input_place(plan, ports, header, end, Role::ByteEnable),
            count: input_place(plan, ports, header, end, Role::BurstCount),
        }
    }

    /// Sets the levels of a cycle in a row, which has room for them.
    pub fn show(&self, row: &mut InputRow, levels: CommandLevels)
        requires { AllFit row.old (host_levels self.now (levels_of levels)) }
        ensures { row.new ≡ set_levels row.old (host_levels self.now (levels_of levels)) }
    {
        let places = *self;
        row.drive(&[
            Driven {
                place: places.address,
                bits: u128::from(levels.address),
            },
            Driven {
                place: places.read,
                bits: u128::from(levels.read),
            },
            Driven {
                place: places.write,
                bits: u128::from(levels.write),
            },
            Driven {
                place: places.word,
                bits: levels.word,
            },
            Driven {
                place: places.enables,
                bits: u128::from(levels.enables),
            },
            Driven {
                place: places.count,
                bits: u128::from(levels.count),
            },
        ]);
    }
}

impl HostPorts {
    /// The outputs that answer the host at an end of the plan.
    pub fn of(plan: &Plan, ports: &PortMap, end: EndId) -> HostPorts
        requires told { AreTold plan.now.system ports.now }
        requires end { IsAnEnd plan.now.system end }
        ensures { result ≡ host_outputs plan.now.system end }
    {
        HostPorts {
            wait: port_number(plan, ports, end, Role::WaitRequest),
            valid: port_number(plan, ports, end, Role::ReadDataValid),
            word: port_number(plan, ports, end, Role::ReadData),
            response: port_number(plan, ports, end, Role::Response),
        }
    }
}
