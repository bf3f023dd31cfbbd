ghost use Rattle.std.specs.Prelude.{◌≡◌, ℕ, ◌+◌, ◌<◌, ◌↔◌, length, IsTrue, IfOk, true, false};
ghost use Rattle.netlist.specs.Netlists.{HasWidth, IsInputPort, IsOutputPort};
ghost use Rattle.netlist.specs.Runs.{Cycle, Run, IsValuation, Steps, SameInputs, SameState, SameNets};
ghost use Rattle.netlist.specs.Signals.{port_net};
ghost use Rattle.cycle_sim.specs.Sims.{AreInputs, IsSim, given_to, present};
ghost use Rattle.cycle_sim.specs.Standing.{IsFirst, IsClearedRun, StandsFor, with_cycle};

use crate::cells::{Cells, zero};
use crate::nets::{are_inputs, evaluate, first_nets, take_next};
use crate::order::Change;
use crate::put::mark_written;
use crate::reading::{Readers, Register, block_count, registers_of};
use av_base::{NoMemory, Val};
use netlist::{Module, agree};
use std::alloc::Global;
use std::marker::Model;

/// A module and its present cycle.
#[derive(Drop)]
pub struct Sim {
    module: Module,
    nets: Vec<Val>,
    readers: Readers,
    /// for each block of nets, whether it has to be evaluated again
    stale: Vec<bool>,
    registers: Vec<Register>,
    /// room for what the registers take at the clock's edge
    changes: Vec<Change>,
    cells: Cells,
    stepped: bool,
}

impl Model for Sim {
    ghost use Rattle.std.specs.Prelude.{◌≡◌, length};
    ghost use Rattle.cycle_sim.specs.Sims.{SimValue, IsSim, ArePlaces};
    ghost use Rattle.cycle_sim.specs.Registers.{AreRegisters};
    ghost use Rattle.cycle_sim.specs.Readers.{AreReaders};
    ghost use Rattle.cycle_sim.specs.Settled.{AreSettled};

    ghost Value = { SimValue };

    ghost view = { λ s. record { netlist = s.module; nets = s.nets.items; words = s.cells.words.items; stepped = s.stepped } };

    ghost invariant = { λ s. IsSim
        (record { netlist = s.module; nets = s.nets.items; words = s.cells.words.items; stepped = s.stepped })
        × ArePlaces s.module.memories s.cells.places.items × AreReaders s.module s.readers.of_nets s.readers.of_memories
        × AreSettled s.module s.nets.items s.cells.words.items s.stale.items 0 × AreRegisters s.module.lines s.registers.items
        × (length s.changes.items ≡ length s.registers.items) };
}

impl Sim {
    /// Before the first cycle: registers hold their reset values, and memories 0.
    pub fn new(alloc: Global, module: Module) -> Result<Sim, NoMemory>
        ensures netlist { IfOk result (λ sim. sim.netlist ≡ «module») }
        ensures stepped { IfOk result (λ sim. sim.stepped ≡ false) }
        ensures first { IfOk result (λ sim. IsFirst sim.netlist (present sim)) }
        ensures stands { IfOk result (λ sim. (run : Run) → StandsFor sim run 0) }
    {
        let nets = first_nets(alloc, &module)?;
        let readers = Readers::new(alloc, &module)?;
        let mut stale = Vec::new(alloc);
        stale.resize(block_count(&module) as usize, true)?;
        let registers = registers_of(alloc, &module)?;
        let mut changes = Vec::new(alloc);
        let nothing = Change {
            net: 0,
            value: zero(1),
        };
        changes.resize(registers.len(), nothing)?;
        let cells = Cells::new(alloc, &module)?;
        module.well_made();
        Ok(Sim {
            module,
            nets,
            readers,
            stale,
            registers,
            changes,
            cells,
            stepped: false,
        })
    }

    /// The module that it was made of.
    pub fn module(&self) -> &Module
        ensures { result.now ≡ self.now.netlist }
    {
        &self.module
    }

    /// Whether these are the inputs of a cycle: one value for each input port, of its width, in header order.
    pub fn fits(&self, inputs: &[Val]) -> bool
        ensures { IsTrue result ↔ AreInputs self.now.netlist inputs.now }
    {
        are_inputs(self.module.ports(), inputs)
    }

    /// Evaluates the present cycle with these inputs, one value for each input port in header order.
    /// It may be called again in the same cycle, with other inputs.
    pub fn step(&mut self, inputs: &[Val])
        requires { AreInputs self.old.netlist inputs.now }
        ensures netlist { self.new.netlist ≡ self.old.netlist }
        ensures stepped { self.new.stepped ≡ true }
        ensures valuation { IsValuation self.new.netlist (present self.new) }
        ensures inputs { (k w : ℕ) → IsInputPort self.new.netlist.ports k w
            → (present self.new).input k ≡ given_to self.new.netlist inputs.now k }
        ensures state { SameState self.new.netlist (present self.old) (present self.new) }

        // No other values of the nets obey the module with these inputs and this state.
        ensures only { (other : Cycle) → IsValuation self.new.netlist other → SameInputs self.new.netlist other (present self.new)
            → SameState self.new.netlist other (present self.new)
            → SameNets self.new.netlist other (present self.new) }

        // It stands where it stood, and the run with this cycle is one cycle longer.
        ensures stands { (run : Run) (cycles : ℕ) → StandsFor self.old run cycles → StandsFor self.new run cycles }
        ensures run { (run : Run) (cycles : ℕ) → StandsFor self.old run cycles
            → IsClearedRun self.new.netlist (with_cycle run cycles (present self.new)) (cycles + 1) }
    {
        agree();
        evaluate(
            &self.module,
            &self.readers,
            inputs,
            &self.cells,
            self.nets.as_mut_slice(),
            self.stale.as_mut_slice(),
        );
        self.stepped = true;
    }

    /// The clock's edge.
    pub fn advance(&mut self)
        requires { self.old.stepped ≡ true }
        ensures netlist { self.new.netlist ≡ self.old.netlist }
        ensures stepped { self.new.stepped ≡ false }
        ensures steps { Steps self.new.netlist (present self.old) (present self.new) }
        ensures stands { (run : Run) (cycles : ℕ) → StandsFor self.old run cycles
            → StandsFor self.new (with_cycle run cycles (present self.old)) (cycles + 1) }
    {
        self.cells.write(&self.module, self.nets.as_slice());
        mark_written(
            &self.module,
            &self.readers,
            self.nets.as_slice(),
            self.stale.as_mut_slice(),
        );
        take_next(
            &self.module,
            &self.readers,
            self.registers.as_slice(),
            self.changes.as_mut_slice(),
            self.nets.as_mut_slice(),
            self.stale.as_mut_slice(),
        );
        self.stepped = false;
    }

    /// The value of a net in the present cycle.
    pub fn value(&self, net: u32) -> Val
        requires net_is { net < length self.now.netlist.lines }
        requires stepped { self.now.stepped ≡ true }
        ensures width { HasWidth self.now.netlist net result.width }
        ensures bits { result.bits ≡ (present self.now).net net }
    {
        self.nets[net as usize]
    }

    /// The value at an output port in the present cycle.
    pub fn output(&self, port: u32) -> Val
        requires port_is { (w : ℕ) × IsOutputPort self.now.netlist.ports port w }
        requires stepped { self.now.stepped ≡ true }
        ensures width { IsOutputPort self.now.netlist.ports port result.width }
        ensures bits { result.bits ≡ (present self.now).net (port_net self.now.netlist port) }
    {
        self.nets[self.module.driver(port) as usize]
    }

    /// Whether the present cycle was evaluated.
    pub fn is_stepped(&self) -> bool
        ensures { result ≡ self.now.stepped }
    {
        self.stepped
    }

    /// What a simulator keeps.
    pub fn well_made(&self)
        ensures { IsSim self.now }
    {
        let _ = &self.stepped;
    }
}
