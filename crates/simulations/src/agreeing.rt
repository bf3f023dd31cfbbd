//! That a scenario has one trace on a module. The functions do nothing; their contracts are the laws.

ghost use Rattle.std.specs.Prelude.{◌≡◌, ◌<◌, ℕ, List};
ghost use Rattle.link_rules.specs.Plans.{PlanTable};
ghost use Rattle.netlist.specs.Netlists.{Netlist, IsModule};
ghost use Rattle.netlist.specs.Runs.{Run};
ghost use Rattle.interconnect.specs.Interconnect.{IsInterconnect};
ghost use Rattle.scenario_tables.specs.declared.scenario.Scenario.{Scenario};
ghost use Rattle.scenario_tables.specs.Scenarios.{IsScenario};
ghost use Rattle.simulated_runs.specs.Simulated.{IsSimulated};
ghost use Rattle.trace_lines.specs.declared.counts.Counts.{Counts};
ghost use Rattle.trace_lines.specs.Told.{told_in};
ghost use Rattle.simulations.specs.Agreeing.{InterfacesAgree};
ghost use Rattle.simulations.specs.Benches.{IsSetUp};
ghost use Rattle.simulations.specs.Traces.{IsTrace, AreCounts, run_ends};

use cycle_sim::follow;
use link_rules::{Plan, ends_are_known, streams_are_numbered};
use netlist::{agree, signals};
use port_tables::ports_are_known;
use simulated_runs::{states_by_beginnings, taken_by_beginnings};
use trace_lines::counts_grow_by_cycles;

/// All simulations of a scenario on a module show the same at each interface.
pub fn simulations_agree()
    ensures { (plan : PlanTable) (scenario : Scenario) (netlist : Netlist) (one two : Run) (end : ℕ)
        → IsSetUp plan scenario netlist → IsSimulated plan scenario netlist one end
        → IsSimulated plan scenario netlist two end → InterfacesAgree plan netlist one two end }
{
    ends_are_known();
    streams_are_numbered();
    signals();
    agree();
    follow();
    states_by_beginnings();
}

/// All simulations of a scenario on the module of a plan have one trace, and the same counts.
pub fn one_trace(plan: &Plan)
    ensures lines { (scenario : Scenario) (netlist : Netlist) (one two : Run) (end k : ℕ) → IsScenario plan.now.system scenario
        → IsInterconnect plan.now netlist → IsModule netlist
        → IsSimulated plan.now scenario netlist one end → IsSimulated plan.now scenario netlist two end → k < end
        → told_in (run_ends plan.now netlist one) k ≡ told_in (run_ends plan.now netlist two) k }
    ensures trace { (scenario : Scenario) (netlist : Netlist) (one two : List ℕ) → IsScenario plan.now.system scenario
        → IsInterconnect plan.now netlist → IsModule netlist
        → IsTrace plan.now scenario netlist one → IsTrace plan.now scenario netlist two → one ≡ two }
    ensures counts { (scenario : Scenario) (netlist : Netlist) (one two : Counts) → IsScenario plan.now.system scenario
        → IsInterconnect plan.now netlist → IsModule netlist
        → AreCounts plan.now scenario netlist one → AreCounts plan.now scenario netlist two → one ≡ two }
{
    plan.well_made();
    ports_are_known(plan);
    simulations_agree();
    taken_by_beginnings();
    counts_grow_by_cycles();
}
