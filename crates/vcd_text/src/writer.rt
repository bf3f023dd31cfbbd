//! The writer of a dump.

ghost use Rattle.std.specs.Prelude.{◌≡◌, ℕ, ◌+◌, ◌^◌, ◌<◌, ◌≤◌, ◌++◌, length, map, IfOk};
ghost use Rattle.std.specs.Bool.{OnTrue, OnFalse};
ghost use Rattle.av_base.specs.Word.{Word};
ghost use Rattle.netlist.specs.declared.line.PortLine.{PortLine};
ghost use Rattle.vcd_text.specs.Text.{head_text, time_line, row_text};
ghost use Rattle.vcd_text.specs.Dumps.{widths_of, port_of};
ghost use Rattle.vcd_text.specs.Sinks.{Puts, written_by};

use crate::port::DumpPort;
use crate::put::{put_first, put_head, put_later, put_time};
use av_base::{List, NoMemory, Text, Val};
use av_files::Sink;
use netlist::{Module, PortLine};
use std::alloc::Global;
use std::marker::Model;

/// Writes a dump of the ports of a module, cycle by cycle. It keeps the values of the last cycle.
#[derive(Drop)]
pub struct Dumper {
    name: Text,
    ports: List<DumpPort>,
    cycles: u32,
    row: Vec<Val>,
}

impl Model for Dumper {
    ghost use Rattle.vcd_text.specs.Dumps.{DumperValue, KeepsRow};

    ghost Value = { DumperValue };

    ghost view = { λ d. record { name = d.name; ports = d.ports; cycles = d.cycles; row = d.row.items } };

    ghost invariant = { λ d. KeepsRow (record { name = d.name; ports = d.ports; cycles = d.cycles; row = d.row.items }) };
}

/// The ports of a module.
fn ports_of(alloc: Global, ports: &[PortLine]) -> Result<List<DumpPort>, NoMemory>
    ensures { IfOk result (λ copies. copies ≡ map port_of ports.now) }
{
    let mut copies = List::new(alloc);
    'ports: for port in ports {
        copies.push(DumpPort {
            name: Text::copy(alloc, port.name.as_str())?,
            width: port.width,
        })?;
    }
    Ok(copies)
}

/// So many values of one bit.
fn blank_row(alloc: Global, count: usize) -> Result<Vec<Val>, NoMemory>
    ensures { IfOk result (λ row. length row.items ≡ count) }
{
    let mut row = Vec::new(alloc);
    row.resize(count, Val::new(1, 0).unwrap())?;
    Ok(row)
}

impl Dumper {
    /// A writer of the ports of a module.
    pub fn new(alloc: Global, module: &Module) -> Result<Dumper, NoMemory>
        ensures name { IfOk result (λ dumper. dumper.name ≡ «module».now.name) }
        ensures ports { IfOk result (λ dumper. dumper.ports ≡ map port_of «module».now.ports) }
        ensures none { IfOk result (λ dumper. dumper.cycles ≡ 0) }
    {
        module.well_made();
        let name = Text::copy(alloc, module.name())?;
        let ports = ports_of(alloc, module.ports())?;
        let row = blank_row(alloc, ports.len())?;
        Ok(Dumper {
            name,
            ports,
            cycles: 0,
            row,
        })
    }

    /// Writes the header.
    pub fn head<K: Sink>(&self, sink: &mut K) -> bool
        ensures puts { Puts (head_text self.now.name self.now.ports) (written_by K.held K.faults sink.old sink.new) result }
        ensures grows { K.faults sink.old ≤ K.faults sink.new }
        ensures below { K.faults sink.old < 2 ^ 64 → K.faults sink.new < 2 ^ 64 }
    {
        put_head(&self.name, self.ports.as_slice(), sink)
    }

    /// Writes the lines of one more cycle, in which the ports have these values.
    pub fn cycle<K: Sink>(&mut self, values: &[Val], sink: &mut K) -> bool
        requires widths { map (λ (value : Word). value.width) values.now ≡ widths_of self.old.ports }
        requires few { self.old.cycles + 1 < 2 ^ 32 }
        ensures puts { Puts (row_text self.old.cycles self.old.row values.now)
            (written_by K.held K.faults sink.old sink.new) result }
        ensures kept { OnTrue result (self.new ≡ record self.old { cycles = self.old.cycles + 1; row = values.now }) }
        ensures same { OnFalse result (self.new ≡ self.old) }
        ensures grows { K.faults sink.old ≤ K.faults sink.new }
        ensures below { K.faults sink.old < 2 ^ 64 → K.faults sink.new < 2 ^ 64 }
    {
        let put = if self.cycles == 0 {
            put_first(values, sink)
        } else {
            put_later(self.cycles, self.row.as_slice(), values, sink)
        };
        if !put {
            return false;
        }
        self.row.as_mut_slice().copy_from_slice(values);
        self.cycles += 1;
        true
    }

    /// Writes the last line, which tells how many cycles were written.
    pub fn finish<K: Sink>(&self, sink: &mut K) -> bool
        ensures puts { Puts (time_line self.now.cycles) (written_by K.held K.faults sink.old sink.new) result }
        ensures grows { K.faults sink.old ≤ K.faults sink.new }
        ensures below { K.faults sink.old < 2 ^ 64 → K.faults sink.new < 2 ^ 64 }
    {
        put_time(self.cycles, sink)
    }
}
