//! What is counted of a simulation as it goes on, cycle by cycle. The function does nothing; its contract is the law.

ghost use Rattle.std.specs.Prelude.{◌≡◌, ◌+◌, ℕ, suc};
ghost use Rattle.link_rules.specs.Plans.{PlanTable};
ghost use Rattle.netlist.specs.Netlists.{Netlist};
ghost use Rattle.netlist.specs.Runs.{Run};
ghost use Rattle.scenario_tables.specs.declared.scenario.Scenario.{Scenario};
ghost use Rattle.trace_lines.specs.declared.counts.Counts.{Counts};
ghost use Rattle.trace_lines.specs.Sums.{with_counts};
ghost use Rattle.simulations.specs.Benches.{BenchValue, IsSetUp, IsUnderWay};
ghost use Rattle.simulations.specs.Cycles.{IsEvaluated, counts_of, run_with};
ghost use Rattle.simulations.specs.Runs.{CountsSoFar, IsCountedRun, no_counts};

use crate::telling::{cycles_are_told, earlier_cycles_are_told};
use trace_lines::counts_grow_by_cycles;

/// Before the first cycle nothing is counted; a cycle adds what its components count; and behind the last the counts are those of
/// a run of the scenario, in which the simulator stands.
pub fn counts_go_on()
    ensures first { (plan : PlanTable) (scenario : Scenario) (run : Run) (bench : BenchValue)
        → IsSetUp plan scenario bench.sim.netlist → IsUnderWay plan scenario run 0 bench
        → CountsSoFar plan scenario bench.sim.netlist 0 bench no_counts }
    ensures next { (plan : PlanTable) (scenario : Scenario) (netlist : Netlist) (c : ℕ) (bench evaluated after : BenchValue)
        (counts result : Counts) (so_far : CountsSoFar plan scenario netlist c bench counts)
        → evaluated.sim.netlist ≡ bench.sim.netlist → IsEvaluated plan scenario so_far.run c evaluated
        → after.sim.netlist ≡ evaluated.sim.netlist
        → IsUnderWay plan scenario (run_with so_far.run c evaluated) (suc c) after
        → result ≡ with_counts counts (counts_of evaluated) → CountsSoFar plan scenario netlist (c + 1) after result }
    ensures whole { (plan : PlanTable) (scenario : Scenario) (netlist : Netlist) (c : ℕ) (bench : BenchValue) (counts : Counts)
        → CountsSoFar plan scenario netlist c bench counts → c ≡ scenario.cycles
        → IsCountedRun plan scenario netlist bench.sim counts }
{
    cycles_are_told();
    earlier_cycles_are_told();
    counts_grow_by_cycles();
}
