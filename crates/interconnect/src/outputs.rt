ghost use Rattle.std.specs.Prelude.{◌≡◌, ◌≢◌, ℕ, Some, IfSome};
ghost use Rattle.netlist.specs.Netlists.{driver_of};
ghost use Rattle.netlist.specs.Longer.{Extends};
ghost use Rattle.net_parts.specs.Nets.{IsNetOfWidth};
ghost use Rattle.port_tables.specs.Ends.{IsAnEnd};
ghost use Rattle.port_tables.specs.Ports.{ports_of};
ghost use Rattle.port_tables.specs.PortMaps.{entries_of};
ghost use Rattle.interconnect.specs.Outputs.{IsInputIf, IsInput, input_at, output_of, HaveOwnRoles, HasSameNets, MayDrive, MayDriveAt, AreDrivenAt, IsNoPortOf};

use link_rules::Plan;
use netlist::{Builder, Net};
use port_tables::{PortMap, PortRole, ports_are_known};
use system_tables::EndId;

/// The net of the input port of a role at an end, where there is one.
pub(crate) fn input_of(
    builder: &Builder,
    plan: &Plan,
    ports: &PortMap,
    end: EndId,
    role: PortRole,
) -> Option<Net>
    requires builder { builder.now.ports ≡ ports_of plan.now.system }
    requires map { ports.now.entries ≡ entries_of plan.now.system }
    requires end { IsAnEnd plan.now.system end }
    requires input { (width : ℕ) × IsInputIf plan.now.system end role width }
    ensures net { (width : ℕ) → IsInputIf plan.now.system end role width → result ≡ input_at plan.now.system end role width }
    ensures is { (width : ℕ) → IsInputIf plan.now.system end role width
        → IfSome result (λ net. IsNetOfWidth builder.now net width) }
{
    match ports.port_at(plan, end, role) {
        Some(port) => Some(builder.input(port)),
        None => None,
    }
}

/// The net of an input port that is there.
pub(crate) fn input_net(
    builder: &Builder,
    plan: &Plan,
    ports: &PortMap,
    end: EndId,
    role: PortRole,
) -> Net
    requires builder { builder.now.ports ≡ ports_of plan.now.system }
    requires map { ports.now.entries ≡ entries_of plan.now.system }
    requires end { IsAnEnd plan.now.system end }
    requires input { (width : ℕ) × IsInput plan.now.system end role width }
    ensures net { (width : ℕ) → IsInput plan.now.system end role width → input_at plan.now.system end role width ≡ Some result }
    ensures is { (width : ℕ) → IsInput plan.now.system end role width → IsNetOfWidth builder.now result width }
{
    input_of(builder, plan, ports, end, role).unwrap()
}

/// What drives the output of a role.
#[derive(Clone, Copy)]
pub(crate) struct Output {
    pub role: PortRole,
    pub net: Net,
}

impl Output {
    pub(crate) fn new(role: PortRole, net: Net) -> Output
        ensures { result ≡ output_of role net }
    {
        Output { role, net }
    }
}

/// Lets a net drive an output port, where there is one.
fn drive(builder: &mut Builder, port: Option<u32>, net: Net)
    requires { IfSome port (MayDrive builder.old net) }
    ensures same { HasSameNets builder.old builder.new }
    ensures extends { Extends builder.old builder.new }
    ensures driver { IfSome port (λ k. driver_of builder.new k ≡ Some net.number) }
    ensures others { (k : ℕ) → port ≢ Some k → driver_of builder.new k ≡ driver_of builder.old k }
{
    if let Some(port) = port {
        builder.drive(port, net);
    }
}

/// Lets nets drive ports of an end, each that of its role.
pub(crate) fn drive_at(
    builder: &mut Builder,
    plan: &Plan,
    ports: &PortMap,
    end: EndId,
    outputs: &[Output],
)
    requires end { IsAnEnd plan.now.system end }
    requires map { ports.now.entries ≡ entries_of plan.now.system }
    requires roles { HaveOwnRoles outputs.now }
    requires can { MayDriveAt plan.now.system end outputs.now builder.old }
    ensures same { HasSameNets builder.old builder.new }
    ensures extends { Extends builder.old builder.new }
    ensures driven { AreDrivenAt plan.now.system end outputs.now builder.new }
    ensures others { (k : ℕ) → IsNoPortOf plan.now.system end k → driver_of builder.new k ≡ driver_of builder.old k }
{
    ports_are_known(plan);
    netlist::keeps();
    for output in outputs {
        let port = ports.port_at(plan, end, output.role);
        drive(builder, port, output.net);
    }
}
