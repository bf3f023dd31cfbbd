//! The values of the nets.

ghost use Rattle.std.specs.Prelude.{◌≡◌, ℕ, ◌+◌, ◌*◌, ◌<◌, ◌↔◌, List, length, slice_get, slice_index_or, Some, IfOk, IfSome, IsTrue, true, false};
ghost use Rattle.av_base.specs.Word.{Word};
ghost use Rattle.netlist.specs.declared.line.Line.{Line};
ghost use Rattle.netlist.specs.Netlists.{IsModule, IsInputPort, input_net, is_input, is_register, next_of};
ghost use Rattle.netlist.specs.Runs.{IsValuation, reset_of};
ghost use Rattle.cycle_sim.specs.Sims.{bits_at, cycle_with, given_to, input_widths};
ghost use Rattle.cycle_sim.specs.Given.{IsGiven};
ghost use Rattle.cycle_sim.specs.Settled.{AreSettled, StateStays};
ghost use Rattle.cycle_sim.specs.Registers.{AreRegisters};
ghost use Rattle.cycle_sim.specs.Readers.{AreReaders, StayStale, block_count};
ghost use Rattle.lane_sim.specs.LaneWords.{value_at};
ghost use Rattle.lane_sim.specs.LaneSims.{AreLaneInputs, AreLaneNets, AreLaneCells, AreLanesSettled, cells_at, lane_words, widths_in};

use crate::cells::{Cells, words_at, zero};
use crate::order::{Change, gather};
use crate::planes::LaneVal;
use crate::put::put;
use av_base::{NoMemory, Val};
use cycle_sim::reading::{BLOCK, Readers, Register, block_count};
use netlist::{Equation, Module, PortLine};
use std::alloc::Global;

/// Whether there is one value for each input port, of its width, in header order.
pub(crate) fn are_inputs(ports: &[PortLine], inputs: &[LaneVal]) -> bool
    ensures { IsTrue result ↔ (widths_in inputs.now ≡ input_widths ports.now) }
{
    let mut taken = 0;
    for port in ports {
        if !port.output {
            if taken >= inputs.len() || inputs[taken].width() != port.width {
                return false;
            }
            taken += 1;
        }
    }
    taken == inputs.len()
}

/// What each net has before the first cycle: a register its reset value, the others 0.
pub(crate) fn first_nets(alloc: Global, module: &Module) -> Result<Vec<LaneVal>, NoMemory>
    ensures nets { IfOk result (λ nets. AreLaneNets «module».now.lines nets.items) }
    ensures starts { IfOk result (λ nets. (j : ℕ) → j < 8 → (n : ℕ) (line : Line) → slice_get «module».now.lines n ≡ Some line
        → IfSome (reset_of line.equation) (λ x. bits_at (lane_words j nets.items) n ≡ x)) }
{
    module.well_made();
    let mut nets = Vec::new(alloc);
    for net in 0..module.net_count() {
        let value = first_value(module, net);
        prove!(value.width() == module.width(net));
        nets.push(LaneVal::splat(value))?;
    }
    Ok(nets)
}

fn first_value(module: &Module, net: u32) -> Val
    requires module { IsModule «module».now }
    requires net_is { net < length «module».now.lines }
    ensures width { (line : Line) → slice_get «module».now.lines net ≡ Some line → result.width ≡ line.width }
    ensures reset { (line : Line) → slice_get «module».now.lines net ≡ Some line
        → IfSome (reset_of line.equation) (λ x. result.bits ≡ x) }
{
    match module.equation(net) {
        Equation::Reg { reset, .. } => reset,
        _ => zero(module.width(net)),
    }
}

/// The value that its equation gives a net, from those before it; that of an input or a register stays.
fn value_in(module: &Module, cells: &[Cells], nets: &[LaneVal], net: u32) -> LaneVal
    requires module { IsModule «module».now }
    requires cells { AreLaneCells «module».now.memories cells.now }
    requires nets { AreLaneNets «module».now.lines nets.now }
    requires net_is { net < length «module».now.lines }
    ensures { (j : ℕ) → j < 8 → (line : Line) → slice_get «module».now.lines net ≡ Some line
        → IsGiven «module».now (cells_at cells.now j).words (lane_words j nets.now) net line (value_at result j) }
{
    match module.equation(net) {
        Equation::Input { .. } => nets[net as usize],
        Equation::Constant { value } => LaneVal::splat(value),
        Equation::And { a, b } => nets[a as usize].and(nets[b as usize]),
        Equation::Or { a, b } => nets[a as usize].or(nets[b as usize]),
        Equation::Xor { a, b } => nets[a as usize].xor(nets[b as usize]),
        Equation::Add { a, b } => nets[a as usize].add(nets[b as usize]),
        Equation::Sub { a, b } => nets[a as usize].sub(nets[b as usize]),
        Equation::Eq { a, b } => nets[a as usize].eq(nets[b as usize]),
        Equation::Less { a, b } => nets[a as usize].less(nets[b as usize]),
        Equation::Concat { a, b } => nets[a as usize].concat(nets[b as usize]),
        Equation::Not { a } => nets[a as usize].not(),
        Equation::Any { a } => nets[a as usize].any(),
        Equation::Mux { s, a, b } => nets[s as usize].mux(nets[a as usize], nets[b as usize]),
        Equation::Slice { a, high, low } => nets[a as usize].slice(high, low),
        Equation::Reg { .. } => nets[net as usize],
        Equation::Read { memory, address } => {
            words_at(module, cells, memory, nets[address as usize])
        }
    }
}

/// Gives the input nets the values of a cycle.
fn take_inputs(
    module: &Module,
    readers: &Readers,
    inputs: &[LaneVal],
    nets: &mut [LaneVal],
    stale: &mut [bool],
)
    requires module { IsModule «module».now }
    requires readers { AreReaders «module».now readers.now.of_nets readers.now.of_memories }
    requires inputs { AreLaneInputs «module».now inputs.now }
    requires nets { AreLaneNets «module».now.lines nets.old }
    requires stale { length stale.old ≡ block_count «module».now }
    ensures nets { AreLaneNets «module».now.lines nets.new }
    ensures stay { StayStale stale.old stale.new }
    ensures settled { (j : ℕ) → j < 8 → (words : List Word) → AreSettled «module».now (lane_words j nets.old) words stale.old 0
        → AreSettled «module».now (lane_words j nets.new) words stale.new 0 }
    ensures inputs { (j : ℕ) → j < 8 → (k w : ℕ) → IsInputPort «module».now.ports k w
        → bits_at (lane_words j nets.new) (input_net «module».now.ports k) ≡ given_to «module».now (lane_words j inputs.now) k }
    ensures registers { (j : ℕ) → j < 8 → (n : ℕ) (line : Line) → slice_get «module».now.lines n ≡ Some line
        → is_register line.equation ≡ true → bits_at (lane_words j nets.new) n ≡ bits_at (lane_words j nets.old) n }
{
    for (net, value) in inputs.iter().enumerate() {
        prove!(value.width() == module.width(net as u32));
        put(module, readers, net as u32, *value, nets, stale);
    }
}

/// Evaluates the nets of a block in their order. Those below it are settled.
fn evaluate_block(
    module: &Module,
    readers: &Readers,
    cells: &[Cells],
    block: u32,
    nets: &mut [LaneVal],
    stale: &mut [bool],
)
    requires module { IsModule «module».now }
    requires readers { AreReaders «module».now readers.now.of_nets readers.now.of_memories }
    requires cells { AreLaneCells «module».now.memories cells.now }
    requires block_is { block < block_count «module».now }
    requires nets { AreLaneNets «module».now.lines nets.old }
    requires settled { AreLanesSettled «module».now nets.old cells.now stale.old (block * 8) }
    ensures nets { AreLaneNets «module».now.lines nets.new }
    ensures settled { AreLanesSettled «module».now nets.new cells.now stale.new (block * 8 + 8) }
    ensures state { (j : ℕ) → j < 8 → StateStays «module».now.lines (lane_words j nets.old) (lane_words j nets.new) }
{
    let first = block * BLOCK;
    for net in first..(first + BLOCK).min(module.net_count()) {
        let value = value_in(module, cells, nets, net);
        prove!(value.width() == module.width(net));
        put(module, readers, net, value, nets, stale);
    }
    stale[block as usize] = false;
}

/// Evaluates a cycle: what isn't settled behind its inputs, block by block.
pub(crate) fn evaluate(
    module: &Module,
    readers: &Readers,
    inputs: &[LaneVal],
    cells: &[Cells],
    nets: &mut [LaneVal],
    stale: &mut [bool],
)
    requires module { IsModule «module».now }
    requires readers { AreReaders «module».now readers.now.of_nets readers.now.of_memories }
    requires inputs { AreLaneInputs «module».now inputs.now }
    requires cells { AreLaneCells «module».now.memories cells.now }
    requires nets { AreLaneNets «module».now.lines nets.old }
    requires settled { AreLanesSettled «module».now nets.old cells.now stale.old 0 }
    ensures nets { AreLaneNets «module».now.lines nets.new }
    ensures settled { AreLanesSettled «module».now nets.new cells.now stale.new 0 }
    ensures valuation { (j : ℕ) → j < 8
        → IsValuation «module».now (cycle_with «module».now (lane_words j nets.new) (cells_at cells.now j).words) }
    ensures inputs { (j : ℕ) → j < 8 → (k w : ℕ) → IsInputPort «module».now.ports k w
        → bits_at (lane_words j nets.new) (input_net «module».now.ports k) ≡ given_to «module».now (lane_words j inputs.now) k }
    ensures registers { (j : ℕ) → j < 8 → (n : ℕ) (line : Line) → slice_get «module».now.lines n ≡ Some line
        → is_register line.equation ≡ true → bits_at (lane_words j nets.new) n ≡ bits_at (lane_words j nets.old) n }
{
    take_inputs(module, readers, inputs, nets, stale);
    for block in 0..block_count(module) {
        if stale[block as usize] {
            evaluate_block(module, readers, cells, block, nets, stale);
        }
    }
}

/// The clock's edge: each register takes what its next net has, and the other nets keep theirs.
pub(crate) fn take_next(
    module: &Module,
    readers: &Readers,
    registers: &[Register],
    changes: &mut [Change],
    nets: &mut [LaneVal],
    stale: &mut [bool],
)
    requires module { IsModule «module».now }
    requires readers { AreReaders «module».now readers.now.of_nets readers.now.of_memories }
    requires registers { AreRegisters «module».now.lines registers.now }
    requires changes { length changes.old ≡ length registers.now }
    requires nets { AreLaneNets «module».now.lines nets.old }
    requires stale { length stale.old ≡ block_count «module».now }
    ensures nets { AreLaneNets «module».now.lines nets.new }
    ensures taken { (j : ℕ) → j < 8 → (n : ℕ) (line : Line) → slice_get «module».now.lines n ≡ Some line
        → IfSome (next_of line) (λ m. bits_at (lane_words j nets.new) n ≡ bits_at (lane_words j nets.old) m) }
    ensures others { (j : ℕ) → j < 8 → (n : ℕ) (line : Line) → slice_get «module».now.lines n ≡ Some line
        → is_register line.equation ≡ false → bits_at (lane_words j nets.new) n ≡ bits_at (lane_words j nets.old) n }
    ensures settled { (j : ℕ) → j < 8 → (words : List Word) → AreSettled «module».now (lane_words j nets.old) words stale.old 0
        → AreSettled «module».now (lane_words j nets.new) words stale.new 0 }
{
    let count = gather(module, registers, nets, changes);
    for place in 0..count {
        let change = changes[place];
        put(module, readers, change.net, change.value, nets, stale);
    }
}
