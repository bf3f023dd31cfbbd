//! What holds of a cycle of a bench. The functions do nothing; their contracts are the laws.

ghost use Rattle.std.specs.Prelude.{◌≡◌, ◌+◌, ℕ, suc, slice_get, Some};
ghost use Rattle.link_rules.specs.Plans.{PlanTable};
ghost use Rattle.netlist.specs.Netlists.{Netlist};
ghost use Rattle.netlist.specs.Runs.{Run, IsValuation, SameState};
ghost use Rattle.cycle_sim.specs.Sims.{SimValue, present};
ghost use Rattle.cycle_sim.specs.Standing.{StandsFor};
ghost use Rattle.memory_runs.specs.Legal.{Word as CodedWord};
ghost use Rattle.memory_plans.specs.Shown.{standing_still};
ghost use Rattle.scenario_tables.specs.declared.scenario.Scenario.{Scenario};
ghost use Rattle.benches.specs.Agents.{BenchAgentValue, commanded, word_answered};
ghost use Rattle.simulations.specs.Benches.{BenchValue, IsSetUp, IsUnderWay, ComponentsStand};
ghost use Rattle.simulations.specs.Sound.{AllFitPorts, MemoryIsShown};
ghost use Rattle.simulations.specs.Cycles.{HaveEnded, IsShown, IsEvaluated, run_with};

use crate::rows::rows_are_shown;
use crate::sound::components_are_sound;
use benches::agents::{agents_are_told, agents_show};
use benches::hosts::hosts_are_told;
use benches::streams::{streams_are_told, streams_show};
use simulated_runs::{earlier_cycles_stay, simulations_go_on, states_by_beginnings};

/// Two cycles with one state, whose inputs differ in the agents' words and their codes alone, have the same commands at every
/// agent.
pub(crate) fn commands_ignore_words()
    ensures { (plan : PlanTable) (scenario : Scenario) (netlist : Netlist) (run : Run) (c : ℕ) (bench : BenchValue)
        (words others : BenchAgentValue → CodedWord) (one two : SimValue)
        → IsSetUp plan scenario netlist
        → ComponentsStand plan scenario netlist run c bench → IsValuation netlist (present one)
        → IsValuation netlist (present two) → SameState netlist (present one) (present two)
        → MemoryIsShown plan netlist (standing_still (present one)) 0 one bench words
        → MemoryIsShown plan netlist (standing_still (present two)) 0 two bench others
        → (a : ℕ) (agent : BenchAgentValue) → slice_get bench.agents a ≡ Some agent → commanded agent one ≡ commanded agent two }
{}

/// Once the commands of a cycle are known, the words that answer them, and their codes, fit the agents' ports.
pub(crate) fn answers_fit()
    ensures { (plan : PlanTable) (scenario : Scenario) (run : Run) (c : ℕ) (bench : BenchValue)
        (words : BenchAgentValue → CodedWord)
        → IsSetUp plan scenario bench.sim.netlist → IsShown plan scenario run c words bench
        → AllFitPorts bench (λ (agent : BenchAgentValue). word_answered agent bench.sim) }
{
    components_are_sound();
    rows_are_shown();
    agents_show();
    earlier_cycles_stay();
    states_by_beginnings();
}

/// A cycle that was evaluated with the words that answer its commands goes on a simulation.
pub(crate) fn cycles_are_evaluated()
    ensures { (plan : PlanTable) (scenario : Scenario) (run : Run) (c : ℕ) (bench : BenchValue)
        (words : BenchAgentValue → CodedWord) (earlier : SimValue)
        → IsSetUp plan scenario bench.sim.netlist → IsShown plan scenario run c words bench
        → ((a : ℕ) (agent : BenchAgentValue) → slice_get bench.agents a ≡ Some agent → words agent ≡ word_answered agent earlier)
        → ((a : ℕ) (agent : BenchAgentValue) → slice_get bench.agents a ≡ Some agent
        → commanded agent earlier ≡ commanded agent bench.sim)
        → IsEvaluated plan scenario run c bench }
{
    components_are_sound();
    rows_are_shown();
    agents_show();
    streams_show();
    earlier_cycles_stay();
    states_by_beginnings();
}

/// Behind the cycle the bench is under way in the run that has it.
pub(crate) fn benches_go_on()
    ensures { (plan : PlanTable) (scenario : Scenario) (run : Run) (c : ℕ) (bench after : BenchValue)
        → IsSetUp plan scenario bench.sim.netlist → IsEvaluated plan scenario run c bench → HaveEnded bench after
        → after.sim.netlist ≡ bench.sim.netlist → StandsFor after.sim (run_with run c bench) (c + 1) → after.row ≡ bench.row
        → IsUnderWay plan scenario (run_with run c bench) (suc c) after }
{
    components_are_sound();
    hosts_are_told();
    agents_are_told();
    streams_are_told();
    earlier_cycles_stay();
    states_by_beginnings();
    simulations_go_on();
}
