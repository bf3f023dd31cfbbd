//! What holds of sources and sinks at the ports of every plan's module. The functions do nothing; their contracts are the laws.

ghost use Rattle.std.specs.Prelude.{◌≡◌, ℕ, Bool, List, [], ◌∷◌, Option, Some, None, unwrap_or};
ghost use Rattle.av_base.specs.Word.{Word as Bits, word};
ghost use Rattle.iface_roles.specs.declared.records.StreamPort.{StreamPort};
ghost use Rattle.iface_roles.specs.declared.records.Finished.TheVariants.{Source, Sink};
ghost use Rattle.system_tables.specs.declared.tables.EndId.{EndId};
ghost use Rattle.system_tables.specs.Tables.{SystemTable};
ghost use Rattle.address_map.specs.Footprints.{known_at};
ghost use Rattle.netlist.specs.Netlists.{Netlist};
ghost use Rattle.netlist.specs.Runs.{Run};
ghost use Rattle.cycle_sim.specs.Sims.{input_widths, widths_of};
ghost use Rattle.histories.specs.History.{one_if};
ghost use Rattle.stream_runs.specs.View.{Beat, EndView, beat_at};
ghost use Rattle.stream_runs.specs.Ends.{view_of};
ghost use Rattle.port_tables.specs.declared.roles.PortRole.TheVariants.{Ready};
ghost use Rattle.port_tables.specs.Lists.{Among};
ghost use Rattle.port_tables.specs.Ports.{ends_of, name_at, ports_of};
ghost use Rattle.port_tables.specs.PortMaps.{HasKnownPorts, port_at};
ghost use Rattle.interconnect.specs.Streams.{end_signals, dropped_signal};
ghost use Rattle.port_rows.specs.Levels.{AllFit, AllStand, level_if, set_levels};
ghost use Rattle.port_rows.specs.Rows.{IsGivenRow, level_of};
ghost use Rattle.scenario_tables.specs.declared.statements.SourceStatement.{SourceStatement};
ghost use Rattle.scenario_tables.specs.declared.statements.Pattern.{Pattern};
ghost use Rattle.scenario_tables.specs.Statements.{IsSinkScript, IsSourceScript};
ghost use Rattle.stand_ins.specs.StreamsSteps.{left_before, next_beat, steps_of};
ghost use Rattle.stand_ins.specs.Sources.{Shows, no_beat, port_pace};
ghost use Rattle.stand_ins.specs.Sinks.{ready_in};
ghost use Rattle.port_rows.specs.Inputs.{place_at};
ghost use Rattle.port_rows.specs.Sources.{FitsSource, source_levels, source_places};
ghost use Rattle.port_rows.specs.Sinks.{FitsReady, beat_of, sink_outputs};
ghost use Rattle.port_rows.specs.WorkedStreams.{last_beat, talker, talker_row};

use crate::host_ends::inputs_are_driven;
use crate::outputs_are_those_of_nets;

/// A beat that fits a source's ports has room in a row, and where it stands there, or nothing does, the run shows that.
pub fn sources_are_shown()
    ensures shown { (system : SystemTable) (netlist : Netlist) (run : Run) (c : ℕ) (row : List Bits) → HasKnownPorts system
        → IsGivenRow system netlist run c row
        → (end : EndId) (port : StreamPort) (beat : Option Beat) → Among end (ends_of system) → known_at system end ≡ Source port
        → FitsSource port (unwrap_or beat no_beat)
        → AllStand row (source_levels (source_places system end) beat)
        → Shows (view_of (end_signals netlist run (name_at system end))) c beat }
    ensures room { (system : SystemTable) (row : List Bits) → HasKnownPorts system
        → widths_of row ≡ input_widths (ports_of system)
        → (end : EndId) (port : StreamPort) (beat : Option Beat) → Among end (ends_of system) → known_at system end ≡ Source port
        → FitsSource port (unwrap_or beat no_beat)
        → AllFit row (source_levels (source_places system end) beat) }
{
    inputs_are_driven();
}

/// What a run shows a source in answer is the level of the net at its output `ready`, and 1 where that is absent.
pub fn sources_are_answered()
    ensures { (system : SystemTable) (netlist : Netlist) (run : Run) (c : ℕ) (end : EndId) → netlist.ports ≡ ports_of system
        → (view_of (end_signals netlist run (name_at system end))).ready c ≡ level_of netlist run c 1 (port_at system end Ready) }
{
    outputs_are_those_of_nets();
}

/// A level of `ready` that fits a sink's port has room in a row, and where it stands there, the run shows it.
pub fn sinks_are_shown()
    ensures shown { (system : SystemTable) (netlist : Netlist) (run : Run) (c : ℕ) (row : List Bits) → HasKnownPorts system
        → IsGivenRow system netlist run c row
        → (end : EndId) (port : StreamPort) (ready : Bool) → Among end (ends_of system) → known_at system end ≡ Sink port
        → FitsReady port ready
        → AllStand row (level_if (place_at system end Ready) (one_if ready))
        → (view_of (end_signals netlist run (name_at system end))).ready c ≡ one_if ready }
    ensures room { (system : SystemTable) (row : List Bits) → HasKnownPorts system
        → widths_of row ≡ input_widths (ports_of system)
        → (end : EndId) (port : StreamPort) (ready : Bool) → Among end (ends_of system) → known_at system end ≡ Sink port
        → FitsReady port ready
        → AllFit row (level_if (place_at system end Ready) (one_if ready)) }
{
    inputs_are_driven();
}

/// What a run shows a sink is the levels of the nets at its outputs, and 0 where one is absent.
pub fn sinks_are_answered()
    ensures valid { (system : SystemTable) (netlist : Netlist) (run : Run) (c : ℕ) (end : EndId) → netlist.ports ≡ ports_of system
        → (view_of (end_signals netlist run (name_at system end))).valid c
        ≡ level_of netlist run c 0 (sink_outputs system end).valid }
    ensures beat { (system : SystemTable) (netlist : Netlist) (run : Run) (c : ℕ) (end : EndId) → netlist.ports ≡ ports_of system
        → beat_at (view_of (end_signals netlist run (name_at system end))) c ≡ beat_of netlist run c (sink_outputs system end) }
    ensures dropped { (system : SystemTable) (netlist : Netlist) (run : Run) (c : ℕ) (end : EndId)
        → netlist.ports ≡ ports_of system
        → dropped_signal netlist run (name_at system end) c ≡ level_of netlist run c 0 (sink_outputs system end).dropped }
{
    outputs_are_those_of_nets();
}

/// Whenever the module is ready, what a source shows by its script fits its ports.
pub fn shown_beats_fit()
    ensures { (port : StreamPort) (script : List SourceStatement) (view : EndView) (c : ℕ) (may_show : Bool)
        → IsSourceScript port script
        → FitsSource port (unwrap_or (next_beat may_show (left_before (port_pace port) (steps_of script) view c)) no_beat) }
{}

/// What a sink shows by its script fits its port.
pub fn shown_ready_fits()
    ensures { (port : StreamPort) (script : List Pattern) (c : ℕ) → IsSinkScript port script
        → FitsReady port (ready_in script c) }
{}

/// What a source sets in a row, with a beat and without one.
pub fn beats_at_ports()
    ensures sent { set_levels talker_row (source_levels talker (Some last_beat)) ≡ word 1 1 ∷ word 8 90 ∷ word 1 1 ∷ [] }
    ensures quiet { set_levels talker_row (source_levels talker None) ≡ word 1 0 ∷ word 8 0 ∷ word 1 0 ∷ [] }
    ensures not_left { ¬ (set_levels talker_row (source_levels talker None) ≡ word 1 0 ∷ word 8 65 ∷ word 1 0 ∷ []) }
    ensures not_valid { ¬ (set_levels talker_row (source_levels talker None) ≡ word 1 1 ∷ word 8 0 ∷ word 1 0 ∷ []) }
{}
