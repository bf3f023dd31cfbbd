ghost use Rattle.std.specs.Prelude.{◌≡◌};
ghost use Rattle.netlist.specs.Netlists.{input_net};
ghost use Rattle.port_tables.specs.Ends.{IsAnEnd};
ghost use Rattle.port_tables.specs.Ports.{ports_of};
ghost use Rattle.port_tables.specs.PortMaps.{AreTold, port_for, module_role};
ghost use Rattle.port_rows.specs.Rows.{place_among};

use iface_roles::Role;
use interconnect::PortMap;
use link_rules::Plan;
use netlist::PortLine;
use system_tables::EndId;

/// How many inputs stand before the port of this number in a header.
pub fn input_number(ports: &[PortLine], port: u32) -> usize
    ensures { result ≡ input_net ports.now port }
{
    ports
        .iter()
        .take(port as usize)
        .filter(|line| !line.output)
        .count()
}

/// The number of the port of a role at an end of the plan, in the header of its module; None where the end has none.
pub fn port_number(plan: &Plan, ports: &PortMap, end: EndId, role: Role) -> Option<u32>
    requires told { AreTold plan.now.system ports.now }
    requires end { IsAnEnd plan.now.system end }
    ensures { result ≡ port_for plan.now.system end (module_role role) }
{
    let _system = plan.name();
    ports.port(end, role)
}

/// Where the value of an input of a role stands in a row, by the header of the plan's module; None where the end has no such
/// port.
pub fn input_place(
    plan: &Plan,
    ports: &PortMap,
    header: &[PortLine],
    end: EndId,
    role: Role,
) -> Option<usize>
    requires told { AreTold plan.now.system ports.now }
    requires end { IsAnEnd plan.now.system end }
    requires header { header.now ≡ ports_of plan.now.system }
    ensures { result ≡ place_among header.now (port_for plan.now.system end (module_role role)) }
{
    match port_number(plan, ports, end, role) {
        Some(port) => Some(input_number(header, port)),
        None => None,
    }
}
