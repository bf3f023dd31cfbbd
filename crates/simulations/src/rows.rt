//! What the components of a bench set in a row, and what a run with that row shows. The functions do nothing; their contracts are
//! the laws.

ghost use Rattle.std.specs.Prelude.{◌≡◌, ℕ, List};
ghost use Rattle.av_base.specs.Word.{Word as Bits};
ghost use Rattle.link_rules.specs.Plans.{PlanTable};
ghost use Rattle.netlist.specs.Netlists.{Netlist};
ghost use Rattle.netlist.specs.Runs.{Run};
ghost use Rattle.cycle_sim.specs.Sims.{SimValue, input_widths, widths_of};
ghost use Rattle.memory_runs.specs.Legal.{Word as CodedWord};
ghost use Rattle.port_tables.specs.Ports.{ports_of};
ghost use Rattle.port_rows.specs.Levels.{AllFit, AllStand, AreApart, set_levels};
ghost use Rattle.port_rows.specs.Rows.{IsGivenRow};
ghost use Rattle.scenario_tables.specs.declared.scenario.Scenario.{Scenario};
ghost use Rattle.benches.specs.Present.{IsPresent};
ghost use Rattle.benches.specs.Agents.{BenchAgentValue};
ghost use Rattle.simulations.specs.Benches.{BenchValue, IsSetUp, ComponentsStand, all_levels};
ghost use Rattle.simulations.specs.Sound.{AllFitPorts, MemoryIsShown, StreamsAreShown};

use crate::sound::components_are_sound;
use benches::agents::agents_take_part;
use benches::hosts::hosts_take_part;
use benches::streams::streams_take_part;
use link_rules::streams_are_numbered;
use port_rows::input_places::inputs_of_ends_are_apart;
use port_rows::levels_stand;

/// What fits the ports of the components has room in a row of the module's inputs, stands there once it is set, and is set at
/// places of its own.
pub(crate) fn levels_have_room()
    ensures all { (plan : PlanTable) (scenario : Scenario) (netlist : Netlist) (run : Run) (c : ℕ) (bench : BenchValue)
        (words : BenchAgentValue → CodedWord) (row : List Bits)
        → IsSetUp plan scenario netlist
        → ComponentsStand plan scenario netlist run c bench → AllFitPorts bench words
        → widths_of row ≡ input_widths (ports_of plan.system) → AllFit row (all_levels bench words) }
    ensures stand { (plan : PlanTable) (scenario : Scenario) (netlist : Netlist) (run : Run) (c : ℕ) (bench : BenchValue)
        (words : BenchAgentValue → CodedWord) (row : List Bits)
        → IsSetUp plan scenario netlist
        → ComponentsStand plan scenario netlist run c bench → AllFit row (all_levels bench words)
        → AllStand (set_levels row (all_levels bench words)) (all_levels bench words) }
    ensures apart { (plan : PlanTable) (scenario : Scenario) (netlist : Netlist) (run : Run) (c : ℕ) (bench : BenchValue)
        (words : BenchAgentValue → CodedWord)
        → IsSetUp plan scenario netlist
        → ComponentsStand plan scenario netlist run c bench → AreApart (all_levels bench words) }
{
    components_are_sound();
    hosts_take_part();
    agents_take_part();
    streams_take_part();
    inputs_of_ends_are_apart();
    streams_are_numbered();
    levels_stand();
}

/// A run whose inputs in a cycle are those of a row shows what the components set there, and what stands at the outputs.
pub(crate) fn rows_are_shown()
    ensures memory { (plan : PlanTable) (scenario : Scenario) (netlist : Netlist) (run other : Run) (c k : ℕ) (bench : BenchValue)
        (words : BenchAgentValue → CodedWord) (row : List Bits) (sim : SimValue)
        → IsSetUp plan scenario netlist
        → ComponentsStand plan scenario netlist run c bench → AllFitPorts bench words → AllStand row (all_levels bench words)
        → IsGivenRow plan.system netlist other k row → sim.netlist ≡ netlist → IsPresent other k sim
        → MemoryIsShown plan netlist other k sim bench words }
    ensures streams { (plan : PlanTable) (scenario : Scenario) (netlist : Netlist) (run other : Run) (c : ℕ) (bench : BenchValue)
        (words : BenchAgentValue → CodedWord) (row : List Bits) (sim : SimValue)
        → IsSetUp plan scenario netlist
        → ComponentsStand plan scenario netlist run c bench → AllFitPorts bench words → AllStand row (all_levels bench words)
        → IsGivenRow plan.system netlist other c row → sim.netlist ≡ netlist → IsPresent other c sim
        → StreamsAreShown plan netlist other sim bench }
{
    components_are_sound();
    hosts_take_part();
    agents_take_part();
    streams_take_part();
    levels_stand();
}
