//! What holds of every simulation. The functions do nothing; their contracts are the laws.

ghost use Rattle.std.specs.Prelude.{◌≡◌, ◌<◌, ℕ, suc};
ghost use Rattle.system_tables.specs.declared.tables.EndId.{EndId};
ghost use Rattle.link_rules.specs.Plans.{PlanTable, IsPlan};
ghost use Rattle.netlist.specs.Netlists.{Netlist};
ghost use Rattle.netlist.specs.Runs.{Run, Cycle};
ghost use Rattle.cycle_sim.specs.Standing.{IsClearedRun, with_cycle};
ghost use Rattle.stream_runs.specs.View.{AgreeBefore};
ghost use Rattle.memory_runs.specs.Beginnings.{HostsAgree, AgentsAgree};
ghost use Rattle.port_tables.specs.Ports.{name_at};
ghost use Rattle.interconnect.specs.Memory.{host_in, agent_in};
ghost use Rattle.interconnect.specs.Streams.{dropped_signal};
ghost use Rattle.scenario_tables.specs.declared.scenario.Scenario.{Scenario};
ghost use Rattle.scenario_tables.specs.Scenarios.{IsScenario};
ghost use Rattle.simulated_runs.specs.Ends.{stream_view};
ghost use Rattle.simulated_runs.specs.Simulated.{IsSimulated, AreLegal, AreShown};

use crate::stand_ins_by_beginnings;
use link_rules::ends_are_known;
use stand_ins::hosts::stand_in_hosts_are_legal;
use stand_ins::stand_in_agents_are_legal;
use stand_ins::streams::stand_in_sources_are_legal;

/// Whatever a module does, hosts, agents and sources that follow a scenario of the plan keep to what they declare.
pub fn simulated_runs_are_legal()
    ensures { (plan : PlanTable) (scenario : Scenario) (netlist : Netlist) (run : Run) (end : ℕ) → IsPlan plan
        → IsScenario plan.system scenario
        → IsSimulated plan scenario netlist run end → AreLegal plan netlist run end }
{
    ends_are_known();
    stand_in_hosts_are_legal();
    stand_in_agents_are_legal();
    stand_in_sources_are_legal();
}

/// A simulation goes on by a cycle in which each interface does what its script says.
pub fn simulations_go_on()
    ensures { (plan : PlanTable) (scenario : Scenario) (netlist : Netlist) (run : Run) (c : ℕ) (cycle : Cycle)
        → IsSimulated plan scenario netlist run c
        → IsClearedRun netlist (with_cycle run c cycle) (suc c) → AreShown plan scenario netlist (with_cycle run c cycle) c
        → IsSimulated plan scenario netlist (with_cycle run c cycle) (suc c) }
{
    stand_ins_by_beginnings();
}

/// A run with another cycle at one place shows the same at all ports before it.
pub fn earlier_cycles_stay()
    ensures hosts { (plan : PlanTable) (netlist : Netlist) (run : Run) (c : ℕ) (cycle : Cycle) (h : ℕ)
        → HostsAgree (host_in plan netlist run h) (host_in plan netlist (with_cycle run c cycle) h) c }
    ensures agents { (plan : PlanTable) (netlist : Netlist) (run : Run) (c : ℕ) (cycle : Cycle) (a : ℕ)
        → AgentsAgree (agent_in plan netlist run a) (agent_in plan netlist (with_cycle run c cycle) a) c }
    ensures streams { (plan : PlanTable) (netlist : Netlist) (run : Run) (c : ℕ) (cycle : Cycle) (end : EndId)
        → AgreeBefore (stream_view plan.system netlist run end) (stream_view plan.system netlist (with_cycle run c cycle) end) c }
    ensures dropped { (plan : PlanTable) (netlist : Netlist) (run : Run) (c : ℕ) (cycle : Cycle) (end : EndId) (k : ℕ) → k < c
        → dropped_signal netlist run (name_at plan.system end) k
        ≡ dropped_signal netlist (with_cycle run c cycle) (name_at plan.system end) k }
{}
