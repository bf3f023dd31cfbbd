//! What a step of a simulator makes of what the components of a bench set in its row. The functions do nothing; their contracts
//! are the laws.

ghost use Rattle.std.specs.Prelude.{◌≡◌, ◌<◌, ℕ, true, slice_get, Some, IsFalse};
ghost use Rattle.link_rules.specs.Plans.{PlanTable};
ghost use Rattle.netlist.specs.Runs.{Run};
ghost use Rattle.cycle_sim.specs.Sims.{SimValue, AreInputs};
ghost use Rattle.lane_sim.specs.LaneSims.{IsStepWith};
ghost use Rattle.scenario_tables.specs.declared.scenario.Scenario.{Scenario};
ghost use Rattle.benches.specs.Agents.{BenchAgentValue, gives_at_once};
ghost use Rattle.simulations.specs.Benches.{BenchValue, IsSetUp, IsUnderWay};
ghost use Rattle.simulations.specs.Cycles.{IsShown, IsEvaluated, answered, first_words, shown_first};

use crate::cycles::{answers_fit, commands_ignore_words, cycles_are_evaluated};
use crate::rows::{levels_have_room, rows_are_shown};
use crate::sound::first_words_fit;
use port_rows::levels_stand;

/// What the components set before any command is known are inputs of the module, and a step with them shows it.
pub fn first_steps_are_shown()
    ensures inputs { (plan : PlanTable) (scenario : Scenario) (run : Run) (c : ℕ) (bench : BenchValue)
        → IsSetUp plan scenario bench.sim.netlist → IsUnderWay plan scenario run c bench
        → AreInputs bench.sim.netlist (shown_first bench).row }
    ensures shown { (plan : PlanTable) (scenario : Scenario) (run : Run) (c : ℕ) (bench : BenchValue) (after : SimValue)
        → IsSetUp plan scenario bench.sim.netlist → IsUnderWay plan scenario run c bench
        → IsStepWith bench.sim after (shown_first bench).row → after.stepped ≡ true
        → IsShown plan scenario run c first_words (record (shown_first bench) { sim = after }) }
{
    first_words_fit();
    levels_have_room();
    levels_stand();
}

/// So are those with the words that answer the commands, and a step with them evaluates the cycle. Where no agent gives words in
/// the cycle that asks, the first step does.
pub fn answers_are_evaluated()
    ensures inputs { (plan : PlanTable) (scenario : Scenario) (run : Run) (c : ℕ) (bench : BenchValue)
        → IsSetUp plan scenario bench.sim.netlist → IsShown plan scenario run c first_words bench
        → AreInputs bench.sim.netlist (answered bench).row }
    ensures evaluated { (plan : PlanTable) (scenario : Scenario) (run : Run) (c : ℕ) (bench : BenchValue) (after : SimValue)
        → IsSetUp plan scenario bench.sim.netlist → IsShown plan scenario run c first_words bench
        → IsStepWith bench.sim after (answered bench).row → after.stepped ≡ true
        → IsEvaluated plan scenario run c (record (answered bench) { sim = after }) }
    ensures at_once { (plan : PlanTable) (scenario : Scenario) (run : Run) (c : ℕ) (bench : BenchValue)
        → IsSetUp plan scenario bench.sim.netlist → IsShown plan scenario run c first_words bench
        → ((a : ℕ) (agent : BenchAgentValue) → slice_get bench.agents a ≡ Some agent → IsFalse (gives_at_once agent))
        → IsEvaluated plan scenario run c bench }
{
    answers_fit();
    levels_have_room();
    levels_stand();
    rows_are_shown();
    commands_ignore_words();
    cycles_are_evaluated();
}
