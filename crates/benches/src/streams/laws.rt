//! What holds of the streams of a test bench. The functions do nothing; their contracts are the laws.

ghost use Rattle.std.specs.Prelude.{◌≡◌, ◌+◌, ◌<◌, ◌≤◌, ℕ, List as Sequence, length, slice_get, unwrap_or, Option, Some};
ghost use Rattle.av_base.specs.Word.{Word as Bits};
ghost use Rattle.histories.specs.History.{one_if};
ghost use Rattle.iface_roles.specs.declared.records.Finished.{Finished};
ghost use Rattle.iface_roles.specs.Records.{ready_latency};
ghost use Rattle.system_tables.specs.declared.tables.EndId.{EndId};
ghost use Rattle.system_tables.specs.Tables.{SystemTable, IsEnd, IsSystem};
ghost use Rattle.link_rules.specs.declared.plan_connections.StreamConnection.{StreamConnection};
ghost use Rattle.link_rules.specs.PlanConnections.{stream_connections};
ghost use Rattle.link_rules.specs.Plans.{PlanTable, IsPlan};
ghost use Rattle.netlist.specs.Netlists.{Netlist};
ghost use Rattle.netlist.specs.Runs.{Run};
ghost use Rattle.cycle_sim.specs.Sims.{SimValue, input_widths, widths_of};
ghost use Rattle.stream_runs.specs.View.{EndView, is_high};
ghost use Rattle.port_tables.specs.Ports.{name_at, ports_of};
ghost use Rattle.port_tables.specs.PortMaps.{HasKnownPorts};
ghost use Rattle.interconnect.specs.Streams.{dropped_signal};
ghost use Rattle.simulated_runs.specs.Ends.{stream_view};
ghost use Rattle.port_rows.specs.Levels.{AllFit, AllStand};
ghost use Rattle.port_rows.specs.Rows.{IsGivenRow};
ghost use Rattle.scenario_tables.specs.declared.statements.SourceStatement.{SourceStatement};
ghost use Rattle.scenario_tables.specs.declared.statements.Pattern.{Pattern};
ghost use Rattle.scenario_tables.specs.Statements.{IsSinkScript, IsSourceScript};
ghost use Rattle.stand_ins.specs.Sources.{beat_shown, keeping_at, no_beat};
ghost use Rattle.port_rows.specs.Sources.{FitsSource};
ghost use Rattle.port_rows.specs.Sinks.{FitsReady};
ghost use Rattle.trace_lines.specs.Told.{told_of_stream};
ghost use Rattle.trace_lines.specs.Sums.{symbols_delivered_in};
ghost use Rattle.benches.specs.Outputs.{IsOutputIf};
ghost use Rattle.benches.specs.Present.{IsPresent};
ghost use Rattle.benches.specs.Sound.{IsSoundLink};
ghost use Rattle.benches.specs.Streams.{BenchStreamValue, Fits, IsSeen, IsStreamOf, behind, counts, ends_of_bench, is_ready, sets, shown_by, tells};

use iface_roles::proper_records_are_bounded;
use link_rules::{links_keep_rules, streams_are_numbered};
use port_rows::levels_stand;
use port_rows::stream_ends::{
    shown_beats_fit, shown_ready_fits, sinks_are_answered, sinks_are_shown, sources_are_answered,
    sources_are_shown,
};
use stand_ins::streams::sources_keep_enough;

/// A plan has few streams.
pub(crate) fn links_are_few()
    ensures { (plan : PlanTable) → IsPlan plan → length (stream_connections plan.system) ≤ 16 }
{
    streams_are_numbered();
}

/// The ends of each stream of a plan are ends of its module, and their records are sound.
pub(crate) fn links_are_sound()
    ensures { (plan : PlanTable) → IsPlan plan → (number : ℕ) (link : StreamConnection)
        → slice_get (stream_connections plan.system) number ≡ Some link → IsSoundLink plan.system number link }
{
    streams_are_numbered();
    links_keep_rules();
    proper_records_are_bounded();
}

/// An output of few bits has at most any larger number of bits.
pub(crate) fn outputs_are_within()
    ensures { (netlist : Netlist) (few most : ℕ) (port : Option ℕ) → few ≤ most → IsOutputIf netlist few port
        → IsOutputIf netlist most port }
{}

/// The streams of a plan can take part in a simulation of its module; what they set has room in a row, and where it stands there,
/// the run shows it.
pub fn streams_take_part()
    ensures fit { (plan : PlanTable) (number : ℕ) (script : Sequence Pattern) (stream : BenchStreamValue) (sim : SimValue)
        → IsPlan plan → HasKnownPorts plan.system
        → sim.netlist.ports ≡ ports_of plan.system → IsStreamOf plan.system number script stream → stream.cycle < 65536
        → Fits stream sim }
    ensures room { (system : SystemTable) (row : Sequence Bits) (number : ℕ) (script : Sequence Pattern)
        (stream : BenchStreamValue)
        → HasKnownPorts system → IsSystem system
        → widths_of row ≡ input_widths (ports_of system) → IsStreamOf system number script stream
        → FitsSource stream.source (unwrap_or (shown_by stream) no_beat)
        → FitsReady stream.sink (is_ready stream) → AllFit row (sets stream) }
    ensures seen { (system : SystemTable) (netlist : Netlist) (run : Run) (row : Sequence Bits) (sim : SimValue) (number : ℕ)
        (script : Sequence Pattern) (stream : BenchStreamValue)
        (of : IsStreamOf system number script stream) → HasKnownPorts system → IsSystem system
        → IsGivenRow system netlist run stream.cycle row → sim.netlist ≡ netlist
        → IsPresent run stream.cycle sim → FitsSource stream.source (unwrap_or (shown_by stream) no_beat)
        → FitsReady stream.sink (is_ready stream) → AllStand row (sets stream)
        → IsSeen (stream_view system netlist run of.link.source_end) (stream_view system netlist run of.link.sink_end)
        (dropped_signal netlist run (name_at system of.link.sink_end)) sim stream }
{
    links_are_sound();
    streams_are_numbered();
    levels_stand();
    sources_are_shown();
    sources_are_answered();
    sinks_are_shown();
    sinks_are_answered();
}

/// What is told of a stream and counted, as its ends show it; and how it stands behind a cycle.
pub fn streams_are_told()
    ensures lines { (source sink : EndView) (dropped : ℕ → ℕ) (sim : SimValue) (stream : BenchStreamValue)
        → IsSeen source sink dropped sim stream
        → tells stream sim stream.cycle ≡ told_of_stream stream.cycle (ends_of_bench stream source sink dropped) }
    ensures counted { (source sink : EndView) (dropped : ℕ → ℕ) (sim : SimValue) (stream : BenchStreamValue)
        → IsSeen source sink dropped sim stream
        → ((counts stream sim).delivered ≡ symbols_delivered_in stream.cycle (ends_of_bench stream source sink dropped))
        × ((counts stream sim).dropped ≡ one_if (is_high dropped stream.cycle)) }
    ensures stays { (system : SystemTable) (number : ℕ) (script : Sequence Pattern) (stream : BenchStreamValue) (sim : SimValue)
        → IsStreamOf system number script stream
        → IsStreamOf system number script (behind stream sim) }
    ensures keeping { (source sink : EndView) (dropped : ℕ → ℕ) (sim : SimValue) (stream : BenchStreamValue)
        (statements : Sequence SourceStatement)
        → ready_latency stream.source ≤ 8
        → IsSeen source sink dropped sim stream → stream.keeping ≡ keeping_at stream.source statements source stream.cycle
        → (behind stream sim).keeping ≡ keeping_at stream.source statements source (stream.cycle + 1) }
{
    sources_keep_enough();
}

/// What a stream shows is what its scripts say, and fits its ports.
pub fn streams_show()
    ensures source_fits { (stream : BenchStreamValue) (statements : Sequence SourceStatement) (view : EndView)
        → IsSourceScript stream.source statements → ready_latency stream.source ≤ 8
        → stream.keeping ≡ keeping_at stream.source statements view stream.cycle
        → FitsSource stream.source (unwrap_or (shown_by stream) no_beat) }
    ensures as_defined { (stream : BenchStreamValue) (statements : Sequence SourceStatement) (view : EndView)
        → IsSourceScript stream.source statements → ready_latency stream.source ≤ 8
        → stream.keeping ≡ keeping_at stream.source statements view stream.cycle
        → shown_by stream ≡ beat_shown stream.source statements view stream.cycle }
    ensures ready_fits { (stream : BenchStreamValue) → IsSinkScript stream.sink stream.script
        → FitsReady stream.sink (is_ready stream) }
    ensures short_latency { (plan : PlanTable) (number : ℕ) (script : Sequence Pattern) (stream : BenchStreamValue) → IsPlan plan
        → IsStreamOf plan.system number script stream
        → ready_latency stream.source ≤ 8 }
{
    links_are_sound();
    sources_keep_enough();
    shown_beats_fit();
    shown_ready_fits();
}
