//! What holds of hosts at the ports of every plan's module. The functions do nothing; their contracts are the laws.

ghost use Rattle.std.specs.Prelude.{◌≡◌, ℕ, List, [], ◌∷◌};
ghost use Rattle.av_base.specs.Word.{Word as Bits, word};
ghost use Rattle.iface_roles.specs.declared.records.HostPort.{HostPort};
ghost use Rattle.iface_roles.specs.declared.records.Finished.TheVariants.{Host};
ghost use Rattle.iface_roles.specs.Proper.{IsBoundedHost};
ghost use Rattle.system_tables.specs.declared.tables.EndId.{EndId};
ghost use Rattle.system_tables.specs.Tables.{SystemTable};
ghost use Rattle.address_map.specs.Footprints.{known_at};
ghost use Rattle.netlist.specs.Netlists.{Netlist};
ghost use Rattle.netlist.specs.Runs.{Run};
ghost use Rattle.cycle_sim.specs.Sims.{input_widths, widths_of};
ghost use Rattle.memory_runs.specs.Views.{Levels, levels_at};
ghost use Rattle.port_tables.specs.Lists.{Among};
ghost use Rattle.port_tables.specs.Ports.{ends_of, name_at, ports_of};
ghost use Rattle.port_tables.specs.PortMaps.{HasKnownPorts};
ghost use Rattle.interconnect.specs.Memory.{host_view};
ghost use Rattle.port_rows.specs.Levels.{AllFit, AllStand, set_levels};
ghost use Rattle.port_rows.specs.Rows.{IsGivenRow, level_of};
ghost use Rattle.scenario_tables.specs.declared.statements.HostStatement.{HostStatement};
ghost use Rattle.scenario_tables.specs.Statements.{IsHostScript};
ghost use Rattle.stand_ins.specs.Steps.{all_steps, shown};
ghost use Rattle.stand_ins.specs.HostsStandIns.{left_before};
ghost use Rattle.port_rows.specs.Inputs.{AllHaveRoom, EachStands, FitsPort, InputsAreShown, InputsHaveRoom};
ghost use Rattle.port_rows.specs.Hosts.{FitsPorts, host_levels, host_outputs, host_places};
ghost use Rattle.port_rows.specs.WorkedHosts.{seven_at_four, writer, writer_row};

use crate::{inputs_are_those_of_rows, inputs_have_places, outputs_are_those_of_nets};

/// What stands in a row at the place of an input is what the run shows there; absent inputs show what is stated for them. What
/// has room at a port has it in a row.
pub fn inputs_are_driven()
    ensures shown { InputsAreShown }
    ensures room { InputsHaveRoom }
    ensures each { EachStands }
    ensures all { AllHaveRoom }
{
    inputs_are_those_of_rows();
    inputs_have_places();
}

/// Levels that fit a host's ports have room in a row, and where they stand there, the run shows them.
pub fn hosts_are_shown()
    ensures shown { (system : SystemTable) (netlist : Netlist) (run : Run) (c : ℕ) (row : List Bits) → HasKnownPorts system
        → IsGivenRow system netlist run c row
        → (end : EndId) (port : HostPort) (levels : Levels) → Among end (ends_of system) → known_at system end ≡ Host port
        → FitsPorts port levels
        → AllStand row (host_levels (host_places system end) levels)
        → levels_at (host_view netlist run port.word_bytes (name_at system end)).signals c ≡ levels }
    ensures room { (system : SystemTable) (row : List Bits) → HasKnownPorts system
        → widths_of row ≡ input_widths (ports_of system)
        → (end : EndId) (port : HostPort) (levels : Levels) → Among end (ends_of system) → known_at system end ≡ Host port
        → FitsPorts port levels
        → AllFit row (host_levels (host_places system end) levels) }
{
    inputs_are_driven();
}

/// What a run shows a host in answer is the levels of the nets at its outputs, and 0 where one is absent.
pub fn hosts_are_answered()
    ensures wait { (system : SystemTable) (netlist : Netlist) (run : Run) (c bytes : ℕ) (end : EndId)
        → netlist.ports ≡ ports_of system
        → (host_view netlist run bytes (name_at system end)).waitrequest c
        ≡ level_of netlist run c 0 (host_outputs system end).wait }
    ensures valid { (system : SystemTable) (netlist : Netlist) (run : Run) (c bytes : ℕ) (end : EndId)
        → netlist.ports ≡ ports_of system
        → (host_view netlist run bytes (name_at system end)).readdatavalid c
        ≡ level_of netlist run c 0 (host_outputs system end).valid }
    ensures word { (system : SystemTable) (netlist : Netlist) (run : Run) (c bytes : ℕ) (end : EndId)
        → netlist.ports ≡ ports_of system
        → (host_view netlist run bytes (name_at system end)).readdata c
        ≡ level_of netlist run c 0 (host_outputs system end).word }
    ensures response { (system : SystemTable) (netlist : Netlist) (run : Run) (c bytes : ℕ) (end : EndId)
        → netlist.ports ≡ ports_of system
        → (host_view netlist run bytes (name_at system end)).response c
        ≡ level_of netlist run c 0 (host_outputs system end).response }
{
    outputs_are_those_of_nets();
}

/// Whatever `waitrequest` is, what a host's stand-in shows fits the host's ports.
pub fn shown_hosts_fit()
    ensures { (port : HostPort) (script : List HostStatement) (waitrequest : ℕ → ℕ) (c : ℕ) → IsBoundedHost port
        → IsHostScript port script
        → FitsPorts port (shown port (left_before (all_steps port script) waitrequest c)) }
{}

/// What a host that writes alone sets in a row, and which levels fit a port.
pub fn driven_levels()
    ensures written { set_levels writer_row (host_levels writer seven_at_four) ≡ word 8 4 ∷ word 1 1 ∷ word 32 7 ∷ [] }
    ensures in_order { ¬ (set_levels writer_row (host_levels writer seven_at_four) ≡ word 8 7 ∷ word 1 1 ∷ word 32 4 ∷ []) }
    ensures below { FitsPort 3 0 7 }
    ensures too_large { ¬ FitsPort 3 0 8 }
    ensures absent { FitsPort 0 1 1 }
    ensures not_stated { ¬ FitsPort 0 1 0 }
{}
