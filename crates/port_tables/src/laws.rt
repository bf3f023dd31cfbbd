ghost use Rattle.port_tables.specs.PortMaps.{HasKnownPorts};

use link_rules::Plan;

/// What holds of the ports of a plan's module. The function does nothing; its contract is the law.
pub fn ports_are_known(plan: &Plan)
    ensures { HasKnownPorts plan.now.system }
{
    plan.well_made();
}
