ghost use Rattle.std.specs.Prelude.{◌≡◌, ℕ, ◌^◌, ◌<◌, ◌≤◌, length, slice_get, Some};
ghost use Rattle.netlist.specs.Netlists.{Netlist, HasWidth, driver_of, IsOutputPort, IsModule, line_of, memory_of};

use crate::line::{Equation, Line, MemLine, Memory, PortLine};
use av_base::{List, Text};
use std::marker::Model;

/// A whole module: its header, its nets, what drives its outputs, and its memories.
pub struct Module {
    name: Text,
    ports: List<PortLine>,
    lines: Vec<Line>,
    drivers: Vec<Option<u32>>,
    memories: Vec<Memory>,
}

/// By hand, so that what drops one calls this, and isn't followed through its fields.
impl Drop for Module {
    fn drop(self) {
        let Module {
            name: _,
            ports: _,
            lines: _,
            drivers: _,
            memories: _,
        } = self;
    }
}

impl Model for Module {
    ghost use Rattle.netlist.specs.Netlists.{Netlist, IsModule};

    ghost Value = { Netlist };

    ghost view = { λ m. record
        { name = m.name; ports = m.ports; lines = m.lines.items; drivers = m.drivers.items; memories = m.memories.items } };

    ghost invariant = { λ m. IsModule
        (record
        { name = m.name; ports = m.ports; lines = m.lines.items; drivers = m.drivers.items; memories = m.memories.items }) };
}

impl Module {
    /// A module of its parts, which are to make one: nets first inputs in port order, each equation of earlier nets or registers.
    pub fn of_parts(
        name: Text,
        ports: List<PortLine>,
        lines: Vec<Line>,
        drivers: Vec<Option<u32>>,
        memories: Vec<Memory>,
    ) -> Module
        requires { IsModule
            (record { name = name; ports = ports; lines = lines.items; drivers = drivers.items; memories = memories.items }) }
        ensures same { result
            ≡ record { name = name; ports = ports; lines = lines.items; drivers = drivers.items; memories = memories.items } }
        ensures module { IsModule result }
    {
        Module {
            name,
            ports,
            lines,
            drivers,
            memories,
        }
    }

    pub fn name(&self) -> &str
        ensures { result.now ≡ self.now.name }
    {
        self.name.as_str()
    }

    /// The ports in header order, without the clock and `reset`.
    pub fn ports(&self) -> &[PortLine]
        ensures { result.now ≡ self.now.ports }
    {
        self.ports.as_slice()
    }

    pub fn net_count(&self) -> u32
        ensures count { result ≡ length self.now.lines }
        ensures few { result ≤ 2 ^ 20 }
    {
        self.lines.len() as u32
    }

    pub fn equation(&self, net: u32) -> Equation
        requires { net < length self.now.lines }
        ensures { (w : ℕ) → HasWidth self.now net w → slice_get self.now.lines net ≡ Some (line_of w result) }
    {
        self.lines[net as usize].equation
    }

    /// The net's width in bits.
    pub fn width(&self, net: u32) -> u8
        requires { net < length self.now.lines }
        ensures { HasWidth self.now net result }
    {
        self.lines[net as usize].width
    }

    /// The net that drives an output port.
    pub fn driver(&self, port: u32) -> u32
        requires { (w : ℕ) × IsOutputPort self.now.ports port w }
        ensures driver { driver_of self.now port ≡ Some result }
        ensures width { (w : ℕ) → IsOutputPort self.now.ports port w → HasWidth self.now result w }
    {
        self.drivers[port as usize].unwrap()
    }

    pub fn memory_count(&self) -> u32
        ensures count { result ≡ length self.now.memories }
        ensures few { result ≤ 2 ^ 16 }
    {
        self.memories.len() as u32
    }

    /// A memory with its write.
    pub fn memory(&self, k: u32) -> MemLine
        requires { k < length self.now.memories }
        ensures { slice_get self.now.memories k ≡ Some (memory_of result) }
    {
        let memory = &self.memories[k as usize];
        let write = memory.write.unwrap();
        MemLine {
            width: memory.width,
            address_bits: memory.address_bits,
            enable: write.enable,
            address: write.address,
            word: write.word,
        }
    }

    /// What a module keeps.
    pub fn well_made(&self)
        ensures { IsModule self.now }
    {
        let _ = &self.lines;
    }
}
