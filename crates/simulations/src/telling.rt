//! What is told and counted of the cycles of a bench. The functions do nothing; their contracts are the laws.

ghost use Rattle.std.specs.Prelude.{◌≡◌, ◌<◌, ℕ};
ghost use Rattle.link_rules.specs.Plans.{PlanTable};
ghost use Rattle.netlist.specs.Netlists.{Netlist};
ghost use Rattle.netlist.specs.Runs.{Run, Cycle};
ghost use Rattle.cycle_sim.specs.Standing.{with_cycle};
ghost use Rattle.scenario_tables.specs.declared.scenario.Scenario.{Scenario};
ghost use Rattle.trace_lines.specs.Told.{told_in};
ghost use Rattle.trace_lines.specs.Sums.{counts_in};
ghost use Rattle.simulations.specs.Benches.{BenchValue, IsSetUp};
ghost use Rattle.simulations.specs.Cycles.{IsEvaluated, counts_of, lines_of, run_with};
ghost use Rattle.simulations.specs.Traces.{run_ends};

use crate::sound::components_are_sound;
use benches::agents::agents_are_told;
use benches::hosts::hosts_are_told;
use benches::streams::streams_are_told;
use simulated_runs::{earlier_cycles_stay, states_by_beginnings, taken_by_beginnings};

/// A further cycle changes nothing of what is told and counted in the cycles before it.
pub(crate) fn earlier_cycles_are_told()
    ensures lines { (plan : PlanTable) (netlist : Netlist) (run : Run) (c : ℕ) (cycle : Cycle) (k : ℕ) → k < c
        → told_in (run_ends plan netlist run) k ≡ told_in (run_ends plan netlist (with_cycle run c cycle)) k }
    ensures counted { (plan : PlanTable) (netlist : Netlist) (run : Run) (c : ℕ) (cycle : Cycle) (k : ℕ) → k < c
        → counts_in (run_ends plan netlist run) k ≡ counts_in (run_ends plan netlist (with_cycle run c cycle)) k }
{
    earlier_cycles_stay();
    taken_by_beginnings();
}

/// What the components tell and count in a cycle that was evaluated is what is told of it and counted in it.
pub(crate) fn cycles_are_told()
    ensures lines { (plan : PlanTable) (scenario : Scenario) (run : Run) (c : ℕ) (bench : BenchValue)
        → IsSetUp plan scenario bench.sim.netlist → IsEvaluated plan scenario run c bench
        → told_in (run_ends plan bench.sim.netlist (run_with run c bench)) c
        ≡ lines_of bench c }
    ensures counted { (plan : PlanTable) (scenario : Scenario) (run : Run) (c : ℕ) (bench : BenchValue)
        → IsSetUp plan scenario bench.sim.netlist → IsEvaluated plan scenario run c bench
        → counts_in (run_ends plan bench.sim.netlist (run_with run c bench)) c
        ≡ counts_of bench }
{
    components_are_sound();
    earlier_cycles_stay();
    states_by_beginnings();
    hosts_are_told();
    agents_are_told();
    streams_are_told();
}
