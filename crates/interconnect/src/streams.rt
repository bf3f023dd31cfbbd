ghost use Rattle.std.specs.Prelude.{◌≡◌, ℕ, ◌+◌, ◌^◌, ◌<◌, ◌≤◌, length, IfOk, OnOk};
ghost use Rattle.iface_roles.specs.declared.records.StreamPort.{StreamPort};
ghost use Rattle.iface_roles.specs.declared.records.Finished.TheVariants.{Source};
ghost use Rattle.address_map.specs.Footprints.{known_at};
ghost use Rattle.link_rules.specs.Links.{streams_of};
ghost use Rattle.link_rules.specs.PlanConnections.{IsStreamConnection};
ghost use Rattle.netlist.specs.Nets.{net_of};
ghost use Rattle.netlist.specs.Netlists.{appended, started};
ghost use Rattle.net_parts.specs.Growth.{GrowsInMemory, StillWait, StillWaitForWrite};
ghost use Rattle.st_timing.specs.Ends.{declared};
ghost use Rattle.st_path.specs.Joining.{CanJoin};
ghost use Rattle.st_path.specs.Ends.{IsNetIf, AreSourceNets, ArePathNets};
ghost use Rattle.st_path.specs.Serving.{most_nets, most_memories, ServesInLonger};
ghost use Rattle.port_tables.specs.Ends.{IsAnEnd};
ghost use Rattle.port_tables.specs.Ports.{ports_of, module_name};
ghost use Rattle.port_tables.specs.PortMaps.{entries_of};
ghost use Rattle.port_tables.specs.Wires.{is_wire_link, wires_before};
ghost use Rattle.interconnect.specs.Streams.{low_line};
ghost use Rattle.interconnect.specs.Joins.{AreInputs, wire_nets, source_outputs, sink_outputs, AddsLow, AddsStream, IsLowOf, with_lows, AreLows, IsJoinedUpTo};

use crate::outputs::{Output, drive_at, input_of};
use av_base::{List, NoMemory, Val};
use iface_roles::{SinkPort, SourcePort, proper_records_are_bounded};
use link_rules::{Plan, StreamConnection, streams_are_numbered};
use memory_plans::links_are_connections;
use mm_fabric::links_are_few;
use netlist::{Builder, Net, NetFault};
use port_tables::{PortMap, PortRole, is_wire_stream, ports_are_known};
use st_path::{PathNets, SourceNets, emit_path};
use stage_core::BeatNets;
use std::alloc::Global;
use system_tables::EndId;

/// The nets of a source.
fn source_nets(builder: &Builder, plan: &Plan, ports: &PortMap, end: EndId) -> SourceNets
    requires builder { builder.now.ports ≡ ports_of plan.now.system }
    requires map { ports.now.entries ≡ entries_of plan.now.system }
    requires end { IsAnEnd plan.now.system end }
    requires source { (source : StreamPort) × (known_at plan.now.system end ≡ Source source) }
    ensures inputs { (source : StreamPort) → known_at plan.now.system end ≡ Source source
        → AreInputs plan.now.system end (declared source) result }
    ensures nets { (source : StreamPort) → known_at plan.now.system end ≡ Source source
        → AreSourceNets builder.now (declared source) result }
{
    proper_records_are_bounded();
    ports_are_known(plan);
    SourceNets {
        valid: input_of(builder, plan, ports, end, PortRole::Valid).unwrap(),
        word: input_of(builder, plan, ports, end, PortRole::Data).unwrap(),
        channel: input_of(builder, plan, ports, end, PortRole::Channel),
        error: input_of(builder, plan, ports, end, PortRole::Error),
        startofpacket: input_of(builder, plan, ports, end, PortRole::StartOfPacket),
        endofpacket: input_of(builder, plan, ports, end, PortRole::EndOfPacket),
        empty: input_of(builder, plan, ports, end, PortRole::Empty),
    }
}

/// What drives the outputs of a stream that is a wire, by a net that is always low.
fn wire_nets(from: &SourceNets, ready: Option<Net>, low: Net) -> PathNets
    ensures { result ≡ wire_nets from.now ready low }
{
    PathNets {
        ready: ready.unwrap_or(low),
        beat: BeatNets {
            valid: from.valid,
            word: from.word,
            channel: from.channel.unwrap_or(low),
            error: from.error.unwrap_or(low),
            first: from.startofpacket.unwrap_or(low),
            last: from.endofpacket.unwrap_or(low),
            empty: from.empty.unwrap_or(low),
        },
        dropped: low,
    }
}

/// A net that is always low.
fn low(builder: &mut Builder) -> Result<Net, NoMemory>
    requires { length builder.old.lines < 2 ^ 20 }
    ensures line { IfOk result (λ net. (builder.new ≡ appended builder.old low_line)
        × (net ≡ net_of (length builder.old.lines) 1)) }
    ensures no_more_wait { StillWait builder.new builder.old }
{
    match builder.constant(Val::new(1, 0).unwrap()) {
        Ok(net) => Ok(net),
        Err(NetFault::NoMemory) => Err(NoMemory),
        Err(NetFault::TooManyNets) => unreachable!(),
    }
}

/// A net that is always low, where the stream is a wire.
fn low_net(builder: &mut Builder, link: &StreamConnection) -> Result<Option<Net>, NoMemory>
    requires { length builder.old.lines < 2 ^ 20 }
    ensures { IfOk result (AddsLow (is_wire_link link.now) builder.old builder.new) }
{
    if is_wire_stream(&link.source, &link.sink, link.fifo) {
        let net = low(builder)?;
        Ok(Some(net))
    } else {
        Ok(None)
    }
}

/// For each stream that is a wire a net that is always low, by the stream's number.
pub(crate) fn low_nets(
    alloc: Global,
    builder: &mut Builder,
    plan: &Plan,
) -> Result<List<Option<Net>>, NoMemory>
    requires { builder.old ≡ started (module_name plan.now.system) (ports_of plan.now.system) }
    ensures lows { IfOk result (AreLows plan.now.system (length (streams_of plan.now.system))) }
    ensures lines { OnOk result
        (builder.new ≡ with_lows builder.old (wires_before plan.now.system (length (streams_of plan.now.system)))) }
    ensures no_more_wait { OnOk result (StillWait builder.new builder.old) }
{
    ports_are_known(plan);
    streams_are_numbered();
    let mut lows = List::new(alloc);
    for link in plan.stream_connections() {
        let low = low_net(builder, link)?;
        lows.push(low)?;
    }
    Ok(lows)
}

/// What stands between a source and a sink that aren't joined by a wire.
fn path_nets(
    builder: &mut Builder,
    source: &SourcePort,
    sink: &SinkPort,
    depth: u8,
    from: &SourceNets,
    ready: Option<Net>,
) -> Result<PathNets, NoMemory>
    requires joined { CanJoin (declared source.now) (declared sink.now) }
    requires shallow { depth ≤ 64 }
    requires from { AreSourceNets builder.old (declared source.now) from.now }
    requires ready { IsNetIf sink.now.ready 1 builder.old ready }
    requires room { length builder.old.lines + most_nets ≤ 2 ^ 20 }
    requires memory_room { length builder.old.memories + most_memories ≤ 2 ^ 16 }
    ensures nets { IfOk result (λ made. ArePathNets builder.new (declared sink.now) made) }
    ensures serves { IfOk result (λ made. ServesInLonger (declared source.now)
        (declared sink.now) depth from.now ready made builder.new) }
    ensures grows { GrowsInMemory most_nets most_memories builder.old builder.new }
    ensures no_more_wait { OnOk result (StillWait builder.new builder.old) }
    ensures still_wait_for_write { OnOk result (StillWaitForWrite builder.old builder.new) }
    ensures no_more_write { OnOk result (StillWaitForWrite builder.new builder.old) }
{
    match emit_path(builder, source, sink, depth, from, ready) {
        Ok(made) => Ok(made),
        Err(NetFault::NoMemory) => Err(NoMemory),
        Err(NetFault::TooManyNets) => unreachable!(),
    }
}

/// What stands between the ends of a stream; with `low` it is a wire.
fn stream_nets(
    builder: &mut Builder,
    plan: &Plan,
    ports: &PortMap,
    number: usize,
    link: &StreamConnection,
    low: Option<Net>,
) -> Result<PathNets, NoMemory>
    requires link { IsStreamConnection plan.now.system number link.now }
    requires map { ports.now.entries ≡ entries_of plan.now.system }
    requires low { IsLowOf plan.now.system number low }
    requires joined { IsJoinedUpTo plan.now number builder.old }
    ensures { IfOk result (AddsStream plan.now.system link.now low builder.old builder.new) }
{
    // the law of a wire, which the contract rests on
    stream_runs::wire_is_served();
    proper_records_are_bounded();
    plan.well_made();
    links_are_connections();
    links_are_few();
    ports_are_known(plan);
    let from = source_nets(builder, plan, ports, link.source_end);
    let ready = input_of(builder, plan, ports, link.sink_end, PortRole::Ready);
    match low {
        Some(low) => Ok(wire_nets(&from, ready, low)),
        None => path_nets(builder, &link.source, &link.sink, link.fifo, &from, ready),
    }
}

/// What drives the outputs at a source.
fn source_outputs(made: &PathNets) -> [Output; 1]
    ensures { result ≡ source_outputs made.now }
{
    [Output::new(PortRole::Ready, made.ready)]
}

/// What drives the outputs at a sink.
fn sink_outputs(made: &PathNets) -> [Output; 8]
    ensures { result ≡ sink_outputs made.now }
{
    [
        Output::new(PortRole::Valid, made.beat.valid),
        Output::new(PortRole::Data, made.beat.word),
        Output::new(PortRole::Channel, made.beat.channel),
        Output::new(PortRole::Error, made.beat.error),
        Output::new(PortRole::StartOfPacket, made.beat.first),
        Output::new(PortRole::EndOfPacket, made.beat.last),
        Output::new(PortRole::Empty, made.beat.empty),
        Output::new(PortRole::Dropped, made.dropped),
    ]
}

/// Joins the ends of a stream; with `low` by a wire.
fn join_stream(
    builder: &mut Builder,
    plan: &Plan,
    ports: &PortMap,
    number: usize,
    low: Option<Net>,
) -> Result<(), NoMemory>
    requires inside { number < length (streams_of plan.now.system) }
    requires map { ports.now.entries ≡ entries_of plan.now.system }
    requires low { IsLowOf plan.now.system number low }
    requires joined { IsJoinedUpTo plan.now number builder.old }
    ensures { OnOk result (IsJoinedUpTo plan.now (number + 1) builder.new) }
{
    ports_are_known(plan);
    netlist::keeps();
    streams_are_numbered();
    let link = &plan.stream_connections()[number];
    let made = stream_nets(builder, plan, ports, number, link, low)?;
    drive_at(
        builder,
        plan,
        ports,
        link.source_end,
        &source_outputs(&made),
    );
    drive_at(builder, plan, ports, link.sink_end, &sink_outputs(&made));
    Ok(())
}

/// Joins the ends of all streams, with these low nets.
pub(crate) fn join_streams(
    builder: &mut Builder,
    plan: &Plan,
    ports: &PortMap,
    lows: &[Option<Net>],
) -> Result<(), NoMemory>
    requires map { ports.now.entries ≡ entries_of plan.now.system }
    requires lows { AreLows plan.now.system (length (streams_of plan.now.system)) lows.now }
    requires joined { IsJoinedUpTo plan.now 0 builder.old }
    ensures { OnOk result (IsJoinedUpTo plan.now (length (streams_of plan.now.system)) builder.new) }
{
    for number in 0..plan.streams().len() {
        join_stream(builder, plan, ports, number, lows[number])?;
    }
    Ok(())
}
