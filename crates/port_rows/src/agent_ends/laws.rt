//! What holds of agents at the ports of every plan's module. The functions do nothing; their contracts are the laws.

ghost use Rattle.std.specs.Prelude.{◌≡◌, ◌≤◌, ℕ, IsFalse, List, [], ◌∷◌};
ghost use Rattle.av_base.specs.Word.{Word as Bits, word};
ghost use Rattle.iface_roles.specs.declared.records.AgentPort.{AgentPort};
ghost use Rattle.iface_roles.specs.declared.records.Finished.TheVariants.{Agent};
ghost use Rattle.iface_roles.specs.Proper.{IsBoundedAgent};
ghost use Rattle.system_tables.specs.declared.tables.EndId.{EndId};
ghost use Rattle.system_tables.specs.Tables.{SystemTable};
ghost use Rattle.address_map.specs.Footprints.{known_at};
ghost use Rattle.netlist.specs.Netlists.{Netlist};
ghost use Rattle.netlist.specs.Runs.{Run};
ghost use Rattle.cycle_sim.specs.Sims.{input_widths, widths_of};
ghost use Rattle.memory_runs.specs.Views.{AgentView, levels_at};
ghost use Rattle.port_tables.specs.Lists.{Among};
ghost use Rattle.port_tables.specs.Ports.{ends_of, name_at, ports_of};
ghost use Rattle.port_tables.specs.PortMaps.{HasKnownPorts};
ghost use Rattle.interconnect.specs.Memory.{agent_view};
ghost use Rattle.port_rows.specs.Levels.{AllFit, AllStand, set_levels};
ghost use Rattle.port_rows.specs.Rows.{IsGivenRow, level_of};
ghost use Rattle.scenario_tables.specs.declared.statements.AgentStatement.{AgentStatement};
ghost use Rattle.scenario_tables.specs.Statements.{IsAgentScript};
ghost use Rattle.port_rows.specs.declared.agent_ends.places.AgentLevels.{AgentLevels};
ghost use Rattle.port_rows.specs.Agents.{AllHoldBytes, AreShownBy, FitsPorts, agent_levels, agent_outputs, agent_places, commanded, stand_in_levels};
ghost use Rattle.port_rows.specs.WorkedAgents.{reader, reader_row, seven_given};

use crate::host_ends::inputs_are_driven;
use crate::outputs_are_those_of_nets;
use stand_ins::codes_fit_their_port;

/// Levels that fit an agent's ports have room in a row, and where they stand there, the run shows them.
pub fn agents_are_shown()
    ensures shown { (system : SystemTable) (netlist : Netlist) (run : Run) (c : ℕ) (row : List Bits) → HasKnownPorts system
        → IsGivenRow system netlist run c row
        → (end : EndId) (port : AgentPort) (levels : AgentLevels) → Among end (ends_of system) → known_at system end ≡ Agent port
        → FitsPorts port levels
        → AllStand row (agent_levels (agent_places system end) levels)
        → AreShownBy (agent_view netlist run port.word_bytes (name_at system end)) c levels }
    ensures room { (system : SystemTable) (row : List Bits) → HasKnownPorts system
        → widths_of row ≡ input_widths (ports_of system)
        → (end : EndId) (port : AgentPort) (levels : AgentLevels) → Among end (ends_of system) → known_at system end ≡ Agent port
        → FitsPorts port levels
        → AllFit row (agent_levels (agent_places system end) levels) }
{
    inputs_are_driven();
}

/// What a run commands an agent is the levels of the nets at its outputs, and so is `grant`. An agent that doesn't read is never
/// read.
pub fn agents_are_commanded()
    ensures levels { (system : SystemTable) (netlist : Netlist) (run : Run) (c bytes : ℕ) (end : EndId)
        → netlist.ports ≡ ports_of system
        → levels_at (agent_view netlist run bytes (name_at system end)).signals c
        ≡ commanded netlist run c bytes (agent_outputs system end) }
    ensures grant { (system : SystemTable) (netlist : Netlist) (run : Run) (c bytes : ℕ) (end : EndId)
        → netlist.ports ≡ ports_of system
        → (agent_view netlist run bytes (name_at system end)).grant c
        ≡ level_of netlist run c 0 (agent_outputs system end).grant }
    ensures unread { (system : SystemTable) (netlist : Netlist) (run : Run) (c bytes : ℕ) (end : EndId) (port : AgentPort)
        → HasKnownPorts system → netlist.ports ≡ ports_of system
        → Among end (ends_of system) → known_at system end ≡ Agent port → IsFalse port.reads
        → (agent_view netlist run bytes (name_at system end)).signals.read c ≡ 0 }
{
    outputs_are_those_of_nets();
}

/// What an agent's stand-in shows fits the agent's ports, where an agent that doesn't read was never read. It still does without
/// its word and code.
pub fn shown_agents_fit()
    ensures shown { (port : AgentPort) (script : List AgentStatement) (view : AgentView) (c : ℕ) → IsBoundedAgent port
        → IsAgentScript port script → AllHoldBytes script
        → (IsFalse port.reads → (d : ℕ) → d ≤ c → view.signals.read d ≡ 0) → FitsPorts port (stand_in_levels port script view c) }
    ensures wordless { (port : AgentPort) (levels : AgentLevels) → FitsPorts port levels
        → FitsPorts port (record levels { word = 0; code = 0 }) }
{
    codes_fit_their_port();
}

/// What an agent that reads alone sets in a row.
pub fn driven_levels()
    ensures given { set_levels reader_row (agent_levels reader seven_given) ≡ word 1 0 ∷ word 32 7 ∷ word 1 1 ∷ word 2 2 ∷ [] }
    ensures in_order { ¬ (set_levels reader_row (agent_levels reader seven_given)
        ≡ word 1 1 ∷ word 32 7 ∷ word 1 0 ∷ word 2 2 ∷ []) }
    ensures without_code { ¬ (set_levels reader_row (agent_levels reader seven_given)
        ≡ word 1 0 ∷ word 32 7 ∷ word 1 1 ∷ word 2 0 ∷ []) }
{}
