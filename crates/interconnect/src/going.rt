//! Legal runs of the module of a plan go on.

ghost use Rattle.std.specs.Prelude.{◌≡◌};
ghost use Rattle.netlist.specs.Netlists.{Netlist, IsWellMade};
ghost use Rattle.port_tables.specs.Ports.{ports_of};
ghost use Rattle.interconnect.specs.Going.{LegalRunsGoOn};

use link_rules::Plan;
use netlist::fed::{inputs_fit, runs_can_be_fed};
use netlist::signals;
use port_tables::ports_are_known;

/// Each run of a module with the ports of a plan whose hosts and agents are legal is the beginning of longer ones: a host
/// keeps the beat that waits and else shows none, and an agent gives no word.
pub fn legal_runs_go_on(plan: &Plan)
    ensures { (netlist : Netlist) → IsWellMade netlist → netlist.ports ≡ ports_of plan.now.system
        → LegalRunsGoOn plan.now netlist }
{
    ports_are_known(plan);
    signals();
    inputs_fit();
    runs_can_be_fed();
    memory_runs::going::legal_runs_go_on();
}
