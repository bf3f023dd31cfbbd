//! What stands for a stream in a test bench.

ghost use Rattle.std.specs.Prelude.{◌≡◌, ◌*◌, ◌^◌, ◌<◌, ◌≤◌, ℕ, List as Sequence, ◌||◌, Some, true, length, nat_lt, slice_get, unwrap_or, IfOk};
ghost use Rattle.std.specs.Bool.{OnTrue, OnFalse};
ghost use Rattle.av_base.specs.Word.{word};
ghost use Rattle.av_files.specs.Outside.{Rose, with_more};
ghost use Rattle.histories.specs.History.{only_if};
ghost use Rattle.link_rules.specs.declared.plan_connections.StreamConnection.{StreamConnection as Link};
ghost use Rattle.link_rules.specs.PlanConnections.{stream_connections};
ghost use Rattle.port_tables.specs.Ports.{ports_of};
ghost use Rattle.port_tables.specs.PortMaps.{AreTold};
ghost use Rattle.scenario_tables.specs.declared.statements.SourceStatement.{SourceStatement as Statement};
ghost use Rattle.scenario_tables.specs.declared.statements.Pattern.{Pattern as Stalls};
ghost use Rattle.scenario_tables.specs.Statements.{IsSinkScript, IsSourceScript};
ghost use Rattle.stand_ins.specs.StreamsSteps.{levels_of};
ghost use Rattle.stand_ins.specs.Sources.{no_beat, port_pace};
ghost use Rattle.trace_lines.specs.Lines.{sent_line, got_line, dropped_line};
ghost use Rattle.benches.specs.Writing.{text_of, HoldsPart};
ghost use Rattle.benches.specs.Sound.{IsSoundEnd, line_if};
ghost use Rattle.benches.specs.Streams.{AreFirstStreams, Fits, IsFirstStream, beat_now, behind, counts, is_answered, is_dropped, is_got, is_ready, is_sent, sets, shown_by, tells, told_beat};

use crate::parts::{Component, Simulator, level_at};
use crate::streams::laws::{links_are_few, links_are_sound, outputs_are_within};
use av_base::lines::Line;
use av_base::{NoMemory, Val};
use av_files::{Sink, put_all};
use iface_roles::{Role, StreamPort};
use interconnect::PortMap;
use link_rules::{Plan, StreamConnection};
use netlist::PortLine;
use port_rows::stream_ends::{SinkPorts, SourcePlaces};
use port_rows::{InputRow, input_place, levels_stand, port_number};
use scenario_tables::{Pattern, Scripts, SourceBeat, SourceStatement};
use stand_ins::streams::{SourceStandIn, is_ready};
use std::alloc::Global;
use std::marker::Model;
use system_tables::EndId;
use trace_lines::{BeatMoved, Counts, EndName, ShownBeat, dropped_line, got_line, sent_line};

/// A stream of a test bench: what stands in for its source and its sink, where their signals stand, and which outputs they are
/// given.
#[derive(Drop)]
pub struct BenchStream<'a> {
    source_name: EndName<'a>,
    sink_name: EndName<'a>,
    source: StreamPort,
    sink: StreamPort,
    places: SourcePlaces,
    /// The input `ready`, at the sink.
    ready_place: Option<usize>,
    /// The output `ready`, at the source.
    ready_port: Option<u32>,
    ports: SinkPorts,
    stand_in: SourceStandIn<'a>,
    /// When the sink stalls.
    script: &'a [Pattern],
    cycle: u32,
}

impl<'a> Model for BenchStream<'a> {
    ghost use Rattle.trace_lines.specs.Names.{name_of};
    ghost use Rattle.benches.specs.Sound.{IsKept};
    ghost use Rattle.benches.specs.Streams.{BenchStreamValue};

    ghost Value = { BenchStreamValue };

    ghost view = { λ s. record {
      source_name = name_of s.source_name;
      sink_name = name_of s.sink_name;
      source = s.source;
      sink = s.sink;
      places = s.places;
      ready_place = s.ready_place;
      ready_port = s.ready_port;
      ports = s.ports;
      keeping = s.stand_in;
      script = s.script.now;
      cycle = s.cycle;
    } };

    ghost invariant = { λ s. IsKept s.source s.sink s.stand_in s.script.now };
}

/// The stream of this number and link, before its first cycle.
fn first_stream<'a>(
    plan: &'a Plan,
    ports: &PortMap,
    header: &[PortLine],
    number: u32,
    link: &StreamConnection,
    statements: &'a [SourceStatement],
    script: &'a [Pattern],
) -> BenchStream<'a>
    requires told { AreTold plan.now.system ports.now }
    requires header { header.now ≡ ports_of plan.now.system }
    requires link { slice_get (stream_connections plan.now.system) number ≡ Some link.now }
    requires statements { (of : Link) → slice_get (stream_connections plan.now.system) number ≡ Some of
        → IsSourceScript of.source statements.now }
    requires script { (of : Link) → slice_get (stream_connections plan.now.system) number ≡ Some of
        → IsSinkScript of.sink script.now }
    ensures { IsFirstStream plan.now.system number statements.now script.now result }
{
    plan.well_made();
    links_are_sound();
    BenchStream {
        source_name: EndName::of(plan, link.source_end),
        sink_name: EndName::of(plan, link.sink_end),
        source: link.source,
        sink: link.sink,
        places: SourcePlaces::of(plan, ports, header, link.source_end),
        ready_place: input_place(plan, ports, header, link.sink_end, Role::Ready),
        ready_port: port_number(plan, ports, link.source_end, Role::Ready),
        ports: SinkPorts::of(plan, ports, link.sink_end, number),
        stand_in: SourceStandIn::new(&link.source, statements),
        script,
        cycle: 0,
    }
}

/// The streams of a plan, each before its first cycle. `header` is that of the plan's module.
pub fn streams_of_plan<'a>(
    alloc: Global,
    plan: &'a Plan,
    ports: &PortMap,
    header: &[PortLine],
    sources: &'a Scripts<SourceStatement>,
    sinks: &'a Scripts<Pattern>,
) -> Result<Vec<BenchStream<'a>>, NoMemory>
    requires told { AreTold plan.now.system ports.now }
    requires header { header.now ≡ ports_of plan.now.system }
    requires sources { length sources.now ≡ length (stream_connections plan.now.system) }
    requires sinks { length sinks.now ≡ length (stream_connections plan.now.system) }
    requires statements { (s : ℕ) (link : Link) (script : Sequence Statement)
        → slice_get (stream_connections plan.now.system) s ≡ Some link → slice_get sources.now s ≡ Some script
        → IsSourceScript link.source script }
    requires patterns { (s : ℕ) (link : Link) (script : Sequence Stalls)
        → slice_get (stream_connections plan.now.system) s ≡ Some link → slice_get sinks.now s ≡ Some script
        → IsSinkScript link.sink script }
    ensures { IfOk result (λ streams. AreFirstStreams plan.now.system sources.now sinks.now streams.items) }
{
    plan.well_made();
    links_are_few();
    let mut streams = Vec::new(alloc);
    'links: for (number, link) in plan.stream_connections().iter().enumerate() {
        streams.push(first_stream(
            plan,
            ports,
            header,
            number as u32,
            link,
            sources.script(number),
            sinks.script(number),
        ))?;
    }
    Ok(streams)
}

/// What stands on the data of an end, as wide as its beats.
fn data_of(port: &StreamPort, bits: u128) -> Val
    requires sound { IsSoundEnd port.now }
    requires fits { bits < 2 ^ (port.now.symbols * port.now.symbol_bits) }
    ensures { result ≡ word (port.now.symbols * port.now.symbol_bits) bits }
{
    let width = u16::from(port.symbols) * port.symbol_bits;
    Val::new(width as u8, bits).unwrap()
}

/// Writes a line, where there is one.
fn put_if<K: Sink>(sink: &mut K, line: Option<Line>) -> bool
    ensures all { OnTrue result (K.held sink.new ≡ with_more (K.held sink.old) (text_of (line_if line))) }
    ensures part { OnFalse result (HoldsPart (K.held sink.old) (K.held sink.new) (text_of (line_if line))) }
    ensures rose { OnFalse result (Rose (K.faults sink.old) (K.faults sink.new)) }
    ensures grows { K.faults sink.old ≤ K.faults sink.new }
    ensures below { K.faults sink.old < 2 ^ 64 → K.faults sink.new < 2 ^ 64 }
{
    match line {
        Some(line) => put_all(sink, line.as_slice()),
        None => true,
    }
}

impl BenchStream<'_> {
    /// The module is ready for the source's beat in the present cycle.
    fn is_answered(&self, sim: &Simulator) -> bool
        requires stepped { sim.now.stepped ≡ true }
        requires fits { Fits self.now sim.now }
        ensures { result ≡ is_answered self.now sim.now }
    {
        outputs_are_within();
        level_at(sim, self.ready_port, 1) == 1
    }

    /// Its sink is ready in this cycle.
    fn is_ready(&self) -> bool
        ensures { result ≡ is_ready self.now }
    {
        is_ready(self.script, self.cycle)
    }

    /// A beat that its source shows transfers in the present cycle.
    fn may_send(&self, sim: &Simulator) -> bool
        requires stepped { sim.now.stepped ≡ true }
        requires fits { Fits self.now sim.now }
        ensures { result ≡ (nat_lt 0 (port_pace self.now.source).latency || is_answered self.now sim.now) }
    {
        self.source.ready_latency() > 0 || self.is_answered(sim)
    }

    /// A beat at its sink transfers in the present cycle.
    fn is_got(&self, sim: &Simulator) -> bool
        requires stepped { sim.now.stepped ≡ true }
        requires fits { Fits self.now sim.now }
        ensures { result ≡ is_got self.now sim.now }
    {
        outputs_are_within();
        level_at(sim, self.ports.valid, 0) == 1
            && (self.sink.ready_latency() > 0 || self.is_ready())
    }

    /// A beat is dropped in the present cycle.
    fn is_dropped(&self, sim: &Simulator) -> bool
        requires stepped { sim.now.stepped ≡ true }
        requires fits { Fits self.now sim.now }
        ensures { result ≡ is_dropped self.now sim.now }
    {
        outputs_are_within();
        level_at(sim, self.ports.dropped, 0) == 1
    }

    /// A beat of its source, as a trace tells it.
    fn sent_beat(&self, beat: SourceBeat) -> ShownBeat
        requires { beat.word < 2 ^ (self.now.source.symbols * self.now.source.symbol_bits) }
        ensures { result ≡ told_beat self.now.source (levels_of beat) }
    {
        ShownBeat {
            word: data_of(&self.source, beat.word),
            channel: beat.channel,
            error: beat.error,
            first: beat.first,
            last: beat.last,
            empty: beat.empty,
        }
    }

    /// The beat on the ports of its sink in the present cycle, as a trace tells it.
    fn got_beat(&self, sim: &Simulator) -> ShownBeat
        requires stepped { sim.now.stepped ≡ true }
        requires fits { Fits self.now sim.now }
        ensures { result ≡ told_beat self.now.sink (beat_now self.now sim.now) }
    {
        outputs_are_within();
        let word = level_at(sim, self.ports.word, 0);
        let channel = level_at(sim, self.ports.channel, 0);
        let error = level_at(sim, self.ports.error, 0);
        let first = level_at(sim, self.ports.first, 0);
        let last = level_at(sim, self.ports.last, 0);
        let empty = level_at(sim, self.ports.empty, 0);
        ShownBeat {
            word: data_of(&self.sink, word),
            channel: channel as u16,
            error: error as u32,
            first: first == 1,
            last: last == 1,
            empty: empty as u8,
        }
    }

    /// The line of the beat that is sent in the present cycle, if one is.
    fn sent(&self, cycle: u32, sim: &Simulator) -> Option<Line>
        requires stepped { sim.now.stepped ≡ true }
        requires fits { Fits self.now sim.now }
        ensures { line_if result
            ≡ only_if (is_sent self.now sim.now)
            (sent_line cycle self.now.source_name (told_beat self.now.source (unwrap_or (shown_by self.now) no_beat))) }
    {
        let beat = self.stand_in.shown()?;
        if !self.may_send(sim) {
            return None;
        }
        Some(sent_line(&BeatMoved {
            cycle,
            end: self.source_name,
            beat: self.sent_beat(beat),
        }))
    }

    /// The line of the beat that is got in the present cycle, if one is.
    fn got(&self, cycle: u32, sim: &Simulator) -> Option<Line>
        requires stepped { sim.now.stepped ≡ true }
        requires fits { Fits self.now sim.now }
        ensures { line_if result
            ≡ only_if (is_got self.now sim.now)
            (got_line cycle self.now.sink_name (told_beat self.now.sink (beat_now self.now sim.now))) }
    {
        if !self.is_got(sim) {
            return None;
        }
        Some(got_line(&BeatMoved {
            cycle,
            end: self.sink_name,
            beat: self.got_beat(sim),
        }))
    }

    /// The line that tells that a beat is dropped in the present cycle, if one is.
    fn dropped(&self, cycle: u32, sim: &Simulator) -> Option<Line>
        requires stepped { sim.now.stepped ≡ true }
        requires fits { Fits self.now sim.now }
        ensures { line_if result ≡ only_if (is_dropped self.now sim.now) (dropped_line cycle self.now.sink_name) }
    {
        if !self.is_dropped(sim) {
            return None;
        }
        Some(dropped_line(cycle, &self.sink_name))
    }

    /// How many symbols its sink is given in the present cycle.
    fn delivered(&self, sim: &Simulator) -> u8
        requires stepped { sim.now.stepped ≡ true }
        requires fits { Fits self.now sim.now }
        ensures value { result ≡ (counts self.now sim.now).delivered }
    {
        if !self.is_got(sim) {
            return 0;
        }
        let beat = self.got_beat(sim);
        if beat.last {
            self.sink.symbols.saturating_sub(beat.empty)
        } else {
            self.sink.symbols
        }
    }
}

impl Component for BenchStream<'_> {
    ghost sets = { sets };

    ghost fits = { Fits };

    ghost tells = { tells };

    ghost counts = { counts };

    ghost follows = { λ stream sim after. after ≡ behind stream sim };

    fn show(&self, row: &mut InputRow) {
        levels_stand();
        self.places.show(row, self.stand_in.shown());
        row.set_if(self.ready_place, u128::from(self.is_ready()));
    }

    fn tell<K: Sink>(&self, cycle: u32, sim: &Simulator, sink: &mut K) -> bool {
        if !put_if(sink, self.sent(cycle, sim)) {
            return false;
        }
        if !put_if(sink, self.got(cycle, sim)) {
            return false;
        }
        put_if(sink, self.dropped(cycle, sim))
    }

    fn count(&self, sim: &Simulator) -> Counts {
        Counts {
            taken: 0,
            answered: 0,
            delivered: u64::from(self.delivered(sim)),
            dropped: u64::from(self.is_dropped(sim)),
        }
    }

    fn end_cycle(&mut self, sim: &Simulator) {
        let answered = self.is_answered(sim);
        self.stand_in.end_cycle(answered);
        self.cycle += 1;
    }
}
