ghost use Rattle.std.specs.Prelude.{◌≡◌, ℕ, ◌<◌, ◌↔◌, length, IsTrue, IfOk, true, false};
ghost use Rattle.netlist.specs.Netlists.{HasWidth, IsOutputPort};
ghost use Rattle.netlist.specs.Runs.{Run};
ghost use Rattle.netlist.specs.Signals.{port_net};
ghost use Rattle.cycle_sim.specs.Sims.{present};
ghost use Rattle.cycle_sim.specs.Standing.{IsFirst, StandsFor};
ghost use Rattle.lane_sim.specs.LaneSims.{AreLaneInputs, AreLanesSims, IsEdge, IsStepWith, lane_of, lane_words};

use crate::cells::{Cells, first_cells, write_cells, zero};
use crate::nets::{are_inputs, evaluate, first_nets, take_next};
use crate::order::Change;
use crate::planes::LaneVal;
use crate::put::mark_written;
use av_base::{NoMemory, Val};
use cycle_sim::reading::{Readers, Register, block_count, registers_of};
use netlist::{Module, agree};
use std::alloc::Global;
use std::marker::Model;

/// A module and its present cycle in eight lanes.
#[derive(Drop)]
pub struct Lanes {
    module: Module,
    nets: Vec<LaneVal>,
    readers: Readers,
    /// for each block of nets, whether it has to be evaluated again
    stale: Vec<bool>,
    registers: Vec<Register>,
    /// room for what the registers take at the clock's edge
    changes: Vec<Change>,
    cells: Vec<Cells>,
    stepped: bool,
}

impl Model for Lanes {
    ghost use Rattle.std.specs.Prelude.{◌≡◌, length};
    ghost use Rattle.cycle_sim.specs.Registers.{AreRegisters};
    ghost use Rattle.cycle_sim.specs.Readers.{AreReaders};
    ghost use Rattle.lane_sim.specs.LaneSims.{LanesValue, AreLanesSims, AreLanesSettled};

    ghost Value = { LanesValue };

    ghost view = { λ s. record { netlist = s.module; nets = s.nets.items; cells = s.cells.items; stepped = s.stepped } };

    ghost invariant = { λ s. AreLanesSims
        (record { netlist = s.module; nets = s.nets.items; cells = s.cells.items; stepped = s.stepped })
        × AreReaders s.module s.readers.of_nets s.readers.of_memories
        × AreLanesSettled s.module s.nets.items s.cells.items s.stale.items 0 × AreRegisters s.module.lines s.registers.items
        × (length s.changes.items ≡ length s.registers.items) };
}

impl Lanes {
    /// Before the first cycle: in each lane registers hold their reset values, and memories 0.
    pub fn new(alloc: Global, module: Module) -> Result<Lanes, NoMemory>
        ensures netlist { IfOk result (λ lanes. lanes.netlist ≡ «module») }
        ensures stepped { IfOk result (λ lanes. lanes.stepped ≡ false) }
        ensures first { IfOk result (λ lanes. (j : ℕ) → j < 8 → IsFirst lanes.netlist (present (lane_of lanes j))) }
        ensures stands { IfOk result (λ lanes. (j : ℕ) → j < 8 → (run : Run) → StandsFor (lane_of lanes j) run 0) }
    {
        let nets = first_nets(alloc, &module)?;
        let readers = Readers::new(alloc, &module)?;
        let mut stale = Vec::new(alloc);
        stale.resize(block_count(&module) as usize, true)?;
        let registers = registers_of(alloc, &module)?;
        let mut changes = Vec::new(alloc);
        let nothing = Change {
            net: 0,
            value: LaneVal::splat(zero(1)),
        };
        changes.resize(registers.len(), nothing)?;
        let cells = first_cells(alloc, &module)?;
        module.well_made();
        Ok(Lanes {
            module,
            nets,
            readers,
            stale,
            registers,
            changes,
            cells,
            stepped: false,
        })
    }

    /// The module that it was made of.
    pub fn module(&self) -> &Module
        ensures { result.now ≡ self.now.netlist }
    {
        &self.module
    }

    /// Whether these are the inputs of a cycle: one value for each input port, of its width, in header order.
    pub fn fits(&self, inputs: &[LaneVal]) -> bool
        ensures { IsTrue result ↔ AreLaneInputs self.now.netlist inputs.now }
    {
        are_inputs(self.module.ports(), inputs)
    }

    /// Evaluates the present cycle of each lane with its inputs, one value for each input port in header order.
    /// It may be called again in the same cycle, with other inputs.
    pub fn step(&mut self, inputs: &[LaneVal])
        requires { AreLaneInputs self.old.netlist inputs.now }
        ensures stepped { self.new.stepped ≡ true }
        ensures netlist { self.new.netlist ≡ self.old.netlist }
        ensures lanes { (j : ℕ) → j < 8 → IsStepWith (lane_of self.old j) (lane_of self.new j) (lane_words j inputs.now) }
    {
        agree();
        evaluate(
            &self.module,
            &self.readers,
            inputs,
            self.cells.as_slice(),
            self.nets.as_mut_slice(),
            self.stale.as_mut_slice(),
        );
        self.stepped = true;
    }

    /// The clock's edge in each lane.
    pub fn advance(&mut self)
        requires { self.old.stepped ≡ true }
        ensures stepped { self.new.stepped ≡ false }
        ensures netlist { self.new.netlist ≡ self.old.netlist }
        ensures lanes { (j : ℕ) → j < 8 → IsEdge (lane_of self.old j) (lane_of self.new j) }
    {
        write_cells(
            &self.module,
            self.nets.as_slice(),
            self.cells.as_mut_slice(),
        );
        mark_written(
            &self.module,
            &self.readers,
            self.nets.as_slice(),
            self.stale.as_mut_slice(),
        );
        take_next(
            &self.module,
            &self.readers,
            self.registers.as_slice(),
            self.changes.as_mut_slice(),
            self.nets.as_mut_slice(),
            self.stale.as_mut_slice(),
        );
        self.stepped = false;
    }

    /// The value of a net in the present cycle of a lane.
    pub fn value(&self, net: u32, lane: u8) -> Val
        requires net_is { net < length self.now.netlist.lines }
        requires lane_is { lane < 8 }
        requires stepped { self.now.stepped ≡ true }
        ensures width { HasWidth self.now.netlist net result.width }
        ensures bits { result.bits ≡ (present (lane_of self.now lane)).net net }
    {
        self.nets[net as usize].lane(lane)
    }

    /// The value at an output port in the present cycle of a lane.
    pub fn output(&self, port: u32, lane: u8) -> Val
        requires port_is { (w : ℕ) × IsOutputPort self.now.netlist.ports port w }
        requires lane_is { lane < 8 }
        requires stepped { self.now.stepped ≡ true }
        ensures width { IsOutputPort self.now.netlist.ports port result.width }
        ensures bits { result.bits ≡ (present (lane_of self.now lane)).net (port_net self.now.netlist port) }
    {
        self.nets[self.module.driver(port) as usize].lane(lane)
    }

    /// Whether the present cycle was evaluated.
    pub fn is_stepped(&self) -> bool
        ensures { result ≡ self.now.stepped }
    {
        self.stepped
    }

    /// What a simulator of eight lanes keeps.
    pub fn well_made(&self)
        ensures { AreLanesSims self.now }
    {
        let _ = &self.stepped;
    }
}
