//! An agent of a test bench.

ghost use Rattle.std.specs.Prelude.{◌≡◌, ◌*◌, ◌<◌, ◌≤◌, ◌^◌, ◌∷◌, [], true};
ghost use Rattle.std.specs.Bool.{OnTrue, OnFalse};
ghost use Rattle.av_files.specs.Outside.{Rose, with_more};
ghost use Rattle.port_rows.specs.Levels.{AllFit, set_levels};
ghost use Rattle.stand_ins.specs.Steps.{levels_of};
ghost use Rattle.benches.specs.Outputs.{level_now};
ghost use Rattle.benches.specs.Writing.{text_of, HoldsPart};
ghost use Rattle.benches.specs.Agents.{commanded, levels_with, gives_at_once, word_answered, sets_answered, taken_line, beats_taken, Fits};

use crate::agents::commands::{address_at, all_lanes, is_high, nibble_at, short_at};
use crate::parts::{Component, Simulator, level_at};
use av_base::Val;
use av_base::lines::Line;
use av_files::{Sink, put_all};
use iface_roles::AgentPort;
use port_rows::InputRow;
use port_rows::agent_ends::{AgentLevels, AgentPlaces, AgentPorts};
use stand_ins::AgentStandIn;
use stand_ins::hosts::CommandLevels;
use std::marker::Model;
use trace_lines::{CommandTaken, Counts, EndName, read_line, write_line};

/// An agent of a test bench: its name, where its signals stand, which outputs command it, and what stands in for it.
#[derive(Drop)]
pub struct BenchAgent<'a> {
    pub(crate) name: EndName<'a>,
    pub(crate) places: AgentPlaces,
    pub(crate) ports: AgentPorts,
    pub(crate) port: AgentPort,
    pub(crate) stand_in: AgentStandIn<'a>,
}

impl<'a> Model for BenchAgent<'a> {
    ghost use Rattle.trace_lines.specs.Names.{name_of};
    ghost use Rattle.benches.specs.Agents.{BenchAgentValue, IsKept};

    ghost Value = { BenchAgentValue };

    ghost view = { λ a. record { name = name_of a.name; places = a.places; ports = a.ports; stand_in = a.stand_in } };

    ghost invariant = { λ a. IsKept a.port a.stand_in };
}

/// Writes a line.
fn put_line<K: Sink>(line: &Line, sink: &mut K) -> bool
    ensures all { OnTrue result (K.held sink.new ≡ with_more (K.held sink.old) (text_of (line.now ∷ []))) }
    ensures part { OnFalse result (HoldsPart (K.held sink.old) (K.held sink.new) (text_of (line.now ∷ []))) }
    ensures rose { OnFalse result (Rose (K.faults sink.old) (K.faults sink.new)) }
    ensures grows { K.faults sink.old ≤ K.faults sink.new }
    ensures below { K.faults sink.old < 2 ^ 64 → K.faults sink.new < 2 ^ 64 }
{
    put_all(sink, line.as_slice())
}

impl BenchAgent<'_> {
    /// The command signals in the present cycle.
    fn levels(&self, sim: &Simulator) -> CommandLevels
        requires stepped { sim.now.stepped ≡ true }
        requires fits { Fits self.now sim.now }
        ensures value { levels_of result ≡ commanded self.now sim.now }
        ensures word { result.word < 2 ^ (8 * self.now.stand_in.port.word_bytes) }
        ensures enables { result.enables < 2 ^ self.now.stand_in.port.word_bytes }
    {
        let ports = self.ports;
        CommandLevels {
            read: is_high(sim, ports.read),
            write: is_high(sim, ports.write),
            address: address_at(sim, ports.address),
            word: level_at(sim, ports.word, 0),
            enables: short_at(sim, ports.enables, all_lanes(self.port.word_bytes)),
            count: short_at(sim, ports.count, 1),
        }
    }

    /// What it shows, with this word on `readdata` and this code on `response`.
    fn levels_with(&self, word: u128, code: u8) -> AgentLevels
        ensures { result ≡ levels_with self.now (record { word = word; code = code }) }
    {
        AgentLevels {
            wait: self.stand_in.waits(),
            valid: self.stand_in.gives(),
            word,
            code,
        }
    }

    /// Whether it gives a word in the very cycle in which it takes the read.
    pub fn gives_at_once(&self) -> bool
        ensures { result ≡ gives_at_once self.now }
    {
        !self.port.readdatavalid && self.port.read_latency == 0
    }

    /// The word of the cycle, once the command is known.
    fn word_answered(&self, sim: &Simulator) -> u128
        requires stepped { sim.now.stepped ≡ true }
        requires fits { Fits self.now sim.now }
        ensures { result ≡ (word_answered self.now sim.now).word }
    {
        if self.gives_at_once() {
            self.stand_in.word_now(&self.levels(sim))
        } else {
            self.stand_in.word()
        }
    }

    /// The code of that word.
    fn code_answered(&self, sim: &Simulator) -> u8
        requires stepped { sim.now.stepped ≡ true }
        requires fits { Fits self.now sim.now }
        ensures { result ≡ (word_answered self.now sim.now).code }
    {
        if self.gives_at_once() {
            self.stand_in.code_now(&self.levels(sim))
        } else {
            self.stand_in.code()
        }
    }

    /// Sets what it shows in this cycle, once its command is known, in a row that has room for it.
    pub fn answer(&self, sim: &Simulator, row: &mut InputRow)
        requires stepped { sim.now.stepped ≡ true }
        requires fits { Fits self.now sim.now }
        requires room { AllFit row.old (sets_answered self.now sim.now) }
        ensures { row.new ≡ set_levels row.old (sets_answered self.now sim.now) }
    {
        let levels = self.levels_with(self.word_answered(sim), self.code_answered(sim));
        self.places.show(row, levels);
    }

    /// The line that tells of what it takes.
    fn taken_line(&self, cycle: u32, sim: &Simulator, levels: &CommandLevels) -> Line
        requires stepped { sim.now.stepped ≡ true }
        requires fits { Fits self.now sim.now }
        requires word { levels.now.word < 2 ^ (8 * self.now.stand_in.port.word_bytes) }
        requires enables { levels.now.enables < 2 ^ self.now.stand_in.port.word_bytes }
        ensures { result ≡ taken_line self.now sim.now cycle (levels_of levels.now) }
    {
        let taken = CommandTaken {
            cycle,
            agent: self.name,
            host: nibble_at(sim, self.ports.grant),
            offset: self.stand_in.offset(levels),
            enables: Val::new(self.port.word_bytes, u128::from(levels.enables)).unwrap(),
        };
        if levels.write {
            let word = Val::new(8 * self.port.word_bytes, levels.word).unwrap();
            write_line(&taken, word)
        } else {
            read_line(&taken, levels.count)
        }
    }

    /// How many beats it takes in a cycle with these levels: one of a write, and as many of a read as it asks words.
    fn beats_taken(&self, levels: &CommandLevels) -> u16
        ensures { result ≡ beats_taken self.now (levels_of levels.now) }
    {
        if !self.stand_in.accepts(levels) {
            return 0;
        }
        if levels.write { 1 } else { levels.count }
    }
}

impl Component for BenchAgent<'_> {
    ghost use Rattle.benches.specs.Agents.{sets, Fits, tells, counts, Follows};

    ghost sets = { sets };

    ghost fits = { Fits };

    ghost tells = { λ agent sim c. tells agent sim c };

    ghost counts = { counts };

    ghost follows = { Follows };

    fn show(&self, row: &mut InputRow) {
        let levels = self.levels_with(self.stand_in.word(), self.stand_in.code());
        self.places.show(row, levels);
    }

    fn tell<K: Sink>(&self, cycle: u32, sim: &Simulator, sink: &mut K) -> bool {
        let levels = self.levels(sim);
        if !self.stand_in.accepts(&levels) {
            return true;
        }
        put_line(&self.taken_line(cycle, sim, &levels), sink)
    }

    fn count(&self, sim: &Simulator) -> Counts {
        let beats = self.beats_taken(&self.levels(sim));
        Counts {
            taken: u64::from(beats),
            answered: 0,
            delivered: 0,
            dropped: 0,
        }
    }

    fn end_cycle(&mut self, sim: &Simulator) {
        let levels = self.levels(sim);
        self.stand_in.take(&levels);
    }
}
