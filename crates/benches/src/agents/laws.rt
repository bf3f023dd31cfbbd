//! What holds of the agents of every test bench. The functions do nothing; their contracts are the laws.

ghost use Rattle.std.specs.Prelude.{◌≡◌, ◌<◌, ◌≤◌, ℕ, List, IsFalse};
ghost use Rattle.av_base.specs.Word.{Word as Bits};
ghost use Rattle.iface_roles.specs.Proper.{IsBoundedAgent};
ghost use Rattle.memory_runs.specs.Sides.{agent_side};
ghost use Rattle.system_tables.specs.Tables.{SystemTable};
ghost use Rattle.netlist.specs.Netlists.{Netlist};
ghost use Rattle.netlist.specs.Runs.{Run};
ghost use Rattle.cycle_sim.specs.Sims.{SimValue, input_widths, widths_of};
ghost use Rattle.memory_runs.specs.Views.{AgentView, levels_at};
ghost use Rattle.memory_runs.specs.Legal.{Word as CodedWord};
ghost use Rattle.port_tables.specs.Ports.{name_at, ports_of};
ghost use Rattle.port_tables.specs.PortMaps.{HasKnownPorts};
ghost use Rattle.interconnect.specs.Memory.{agent_view};
ghost use Rattle.port_rows.specs.Levels.{AllFit, AllStand};
ghost use Rattle.port_rows.specs.Rows.{IsGivenRow};
ghost use Rattle.scenario_tables.specs.declared.statements.AgentStatement.{AgentStatement};
ghost use Rattle.scenario_tables.specs.Statements.{IsAgentScript};
ghost use Rattle.stand_ins.specs.Whole.{StandsFor};
ghost use Rattle.port_rows.specs.Agents.{AllHoldBytes, AreShownBy, FitsPorts, agent_levels};
ghost use Rattle.simulated_runs.specs.Simulated.{AgentShows};
ghost use Rattle.trace_lines.specs.Told.{told_of_agent};
ghost use Rattle.trace_lines.specs.Sums.{beats_taken_in};
ghost use Rattle.benches.specs.Outputs.{level_now};
ghost use Rattle.benches.specs.Present.{IsPresent};
ghost use Rattle.benches.specs.Agents.{BenchAgentValue, IsAgentOf, IsSeen, Follows, Fits, commanded, first_word, levels_with, tells, beats_taken, word_answered};

use port_rows::agent_ends::{agents_are_commanded, agents_are_shown, shown_agents_fit};
use stand_ins::stand_ins_stand_for_runs;
use trace_lines::agents_are_told_by_their_ports;

/// An agent of a system's module can take part in its simulation. What it sets has room in a row where it fits its ports, and
/// where it stands in the row, the run shows it. What the run commands it is what stands at the outputs that command it.
pub fn agents_take_part()
    ensures fit { (system : SystemTable) (number : ℕ) (agent : BenchAgentValue) (sim : SimValue) → HasKnownPorts system
        → sim.netlist.ports ≡ ports_of system → IsAgentOf system number agent
        → IsBoundedAgent agent.stand_in.port → agent.stand_in.cycle < agent.stand_in.cycles → Fits agent sim }
    ensures room { (system : SystemTable) (row : List Bits) (number : ℕ) (agent : BenchAgentValue) (answer : CodedWord)
        → HasKnownPorts system → widths_of row ≡ input_widths (ports_of system)
        → IsAgentOf system number agent → FitsPorts agent.stand_in.port (levels_with agent answer)
        → AllFit row (agent_levels agent.places (levels_with agent answer)) }
    ensures shown { (system : SystemTable) (netlist : Netlist) (run : Run) (c : ℕ) (row : List Bits) (number : ℕ)
        (agent : BenchAgentValue) (answer : CodedWord) (of : IsAgentOf system number agent)
        → HasKnownPorts system
        → IsGivenRow system netlist run c row → FitsPorts agent.stand_in.port (levels_with agent answer)
        → AllStand row (agent_levels agent.places (levels_with agent answer))
        → AreShownBy (agent_view netlist run agent.stand_in.port.word_bytes (name_at system of.at.end)) c
        (levels_with agent answer) }
    ensures commanded { (system : SystemTable) (netlist : Netlist) (run : Run) (c : ℕ) (sim : SimValue) (number : ℕ)
        (agent : BenchAgentValue) (of : IsAgentOf system number agent)
        → netlist.ports ≡ ports_of system
        → sim.netlist ≡ netlist → IsPresent run c sim
        → levels_at (agent_view netlist run agent.stand_in.port.word_bytes (name_at system of.at.end)).signals c
        ≡ commanded agent sim }
    ensures granted { (system : SystemTable) (netlist : Netlist) (run : Run) (c : ℕ) (sim : SimValue) (number : ℕ)
        (agent : BenchAgentValue) (of : IsAgentOf system number agent)
        → netlist.ports ≡ ports_of system
        → sim.netlist ≡ netlist → IsPresent run c sim
        → (agent_view netlist run agent.stand_in.port.word_bytes (name_at system of.at.end)).grant c
        ≡ level_now sim 0 agent.ports.grant }
{
    agents_are_shown();
    agents_are_commanded();
}

/// Where a view shows what an agent shows and is commanded, what is told and counted of the agent is what the definitions tell
/// and count of the view, and behind the cycle the agent still stands for it.
pub fn agents_are_told()
    ensures lines { (script : List AgentStatement) (view : AgentView) (sim : SimValue) (agent : BenchAgentValue)
        → StandsFor script agent.stand_in view → IsSeen view sim agent
        → tells agent sim agent.stand_in.cycle
        ≡ told_of_agent agent.stand_in.cycle (record { name = agent.name; side = agent_side agent.stand_in.port; view = view }) }
    ensures counted { (script : List AgentStatement) (view : AgentView) (sim : SimValue) (agent : BenchAgentValue)
        → StandsFor script agent.stand_in view → IsSeen view sim agent
        → beats_taken agent (commanded agent sim)
        ≡ beats_taken_in agent.stand_in.cycle (record { name = agent.name; side = agent_side agent.stand_in.port; view = view }) }
    ensures stays { (system : SystemTable) (number : ℕ) (agent after : BenchAgentValue) (sim : SimValue)
        → IsAgentOf system number agent → Follows agent sim after → IsAgentOf system number after }
    ensures goes_on { (script : List AgentStatement) (view : AgentView) (sim : SimValue) (agent after : BenchAgentValue)
        → StandsFor script agent.stand_in view → IsSeen view sim agent → Follows agent sim after
        → StandsFor script after.stand_in view }
{
    agents_are_told_by_their_ports();
    stand_ins_stand_for_runs();
}

/// What an agent sets fits its ports, at first and once its command is known. A view that shows it does what the agent's script
/// says.
pub fn agents_show()
    ensures fits { (script : List AgentStatement) (view : AgentView) (agent : BenchAgentValue)
        → IsBoundedAgent agent.stand_in.port → IsAgentScript agent.stand_in.port script → AllHoldBytes script
        → StandsFor script agent.stand_in view
        → (IsFalse agent.stand_in.port.reads → (d : ℕ) → d ≤ agent.stand_in.cycle → view.signals.read d ≡ 0)
        → FitsPorts agent.stand_in.port (levels_with agent (first_word agent)) }
    ensures fits_answered { (script : List AgentStatement) (view : AgentView) (sim : SimValue) (agent : BenchAgentValue)
        → IsBoundedAgent agent.stand_in.port → IsAgentScript agent.stand_in.port script → AllHoldBytes script
        → StandsFor script agent.stand_in view
        → (IsFalse agent.stand_in.port.reads → (d : ℕ) → d ≤ agent.stand_in.cycle → view.signals.read d ≡ 0)
        → IsSeen view sim agent → FitsPorts agent.stand_in.port (levels_with agent (word_answered agent sim)) }
    ensures as_defined { (script : List AgentStatement) (view : AgentView) (sim : SimValue) (agent : BenchAgentValue)
        → StandsFor script agent.stand_in view
        → commanded agent sim ≡ levels_at view.signals agent.stand_in.cycle
        → AreShownBy view agent.stand_in.cycle (levels_with agent (word_answered agent sim))
        → AgentShows agent.stand_in.port script view agent.stand_in.cycle }
{
    stand_ins_stand_for_runs();
    shown_agents_fit();
}
