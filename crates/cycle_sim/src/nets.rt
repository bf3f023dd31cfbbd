//! The values of the nets.

ghost use Rattle.std.specs.Prelude.{◌≡◌, ℕ, ◌+◌, ◌*◌, ◌<◌, ◌↔◌, List, length, slice_get, slice_index_or, Some, IfOk, IfSome, IsTrue, true, false};
ghost use Rattle.av_base.specs.Word.{Word};
ghost use Rattle.netlist.specs.declared.line.Line.{Line};
ghost use Rattle.netlist.specs.Netlists.{IsModule, IsInputPort, input_net, is_input, is_register, next_of};
ghost use Rattle.netlist.specs.Runs.{IsValuation, reset_of};
ghost use Rattle.cycle_sim.specs.Sims.{AreInputs, AreNets, AreWords, ArePlaces, bits_at, cycle_with, given_to, input_widths, widths_of};
ghost use Rattle.cycle_sim.specs.Given.{IsGiven};
ghost use Rattle.cycle_sim.specs.Registers.{AreRegisters};
ghost use Rattle.cycle_sim.specs.Readers.{AreReaders, StayStale, block_count};
ghost use Rattle.cycle_sim.specs.Settled.{AreSettled, StateStays};

use crate::cells::{Cells, zero};
use crate::order::{Change, gather};
use crate::put::put;
use crate::reading::{BLOCK, Readers, Register, block_count};
use av_base::{NoMemory, Val};
use netlist::{Equation, Module, PortLine};
use std::alloc::Global;

/// Whether there is one value for each input port, of its width, in header order.
pub(crate) fn are_inputs(ports: &[PortLine], inputs: &[Val]) -> bool
    ensures { IsTrue result ↔ (widths_of inputs.now ≡ input_widths ports.now) }
{
    let mut taken = 0;
    for port in ports {
        if !port.output {
            if taken >= inputs.len() || inputs[taken].width() != port.width {
                return false;
            }
            taken += 1;
        }
    }
    taken == inputs.len()
}

/// What each net has before the first cycle: a register its reset value, the others 0.
pub(crate) fn first_nets(alloc: Global, module: &Module) -> Result<Vec<Val>, NoMemory>
    ensures nets { IfOk result (λ nets. AreNets «module».now.lines nets.items) }
    ensures starts { IfOk result (λ nets. (n : ℕ) (line : Line) → slice_get «module».now.lines n ≡ Some line
        → IfSome (reset_of line.equation) (λ x. bits_at nets.items n ≡ x)) }
{
    module.well_made();
    let mut nets = Vec::new(alloc);
    for net in 0..module.net_count() {
        let value = first_value(module, net);
        prove!(value.width() == module.width(net));
        nets.push(value)?;
    }
    Ok(nets)
}

fn first_value(module: &Module, net: u32) -> Val
    requires module { IsModule «module».now }
    requires net_is { net < length «module».now.lines }
    ensures width { (line : Line) → slice_get «module».now.lines net ≡ Some line → result.width ≡ line.width }
    ensures reset { (line : Line) → slice_get «module».now.lines net ≡ Some line
        → IfSome (reset_of line.equation) (λ x. result.bits ≡ x) }
{
    match module.equation(net) {
        Equation::Reg { reset, .. } => reset,
        _ => zero(module.width(net)),
    }
}

/// The value that its equation gives a net, from those before it; that of an input or a register stays.
fn value_in(module: &Module, cells: &Cells, nets: &[Val], net: u32) -> Val
    requires module { IsModule «module».now }
    requires places { ArePlaces «module».now.memories cells.now.places.items }
    requires words { AreWords «module».now.memories cells.now.words.items }
    requires nets { AreNets «module».now.lines nets.now }
    requires net_is { net < length «module».now.lines }
    ensures { (line : Line) → slice_get «module».now.lines net ≡ Some line
        → IsGiven «module».now cells.now.words.items nets.now net line result }
{
    match module.equation(net) {
        Equation::Input { .. } => nets[net as usize],
        Equation::Constant { value } => value,
        Equation::And { a, b } => nets[a as usize].and(nets[b as usize]),
        Equation::Or { a, b } => nets[a as usize].or(nets[b as usize]),
        Equation::Xor { a, b } => nets[a as usize].xor(nets[b as usize]),
        Equation::Add { a, b } => nets[a as usize].add(nets[b as usize]),
        Equation::Sub { a, b } => nets[a as usize].sub(nets[b as usize]),
        Equation::Eq { a, b } => nets[a as usize].eq(nets[b as usize]),
        Equation::Less { a, b } => nets[a as usize].less(nets[b as usize]),
        Equation::Concat { a, b } => nets[a as usize].concat(nets[b as usize]),
        Equation::Not { a } => nets[a as usize].not(),
        Equation::Any { a } => nets[a as usize].any(),
        Equation::Mux { s, a, b } => nets[s as usize].mux(nets[a as usize], nets[b as usize]),
        Equation::Slice { a, high, low } => nets[a as usize].slice(high, low),
        Equation::Reg { .. } => nets[net as usize],
        Equation::Read { memory, address } => {
            let address = nets[address as usize].bits() as usize;
            cells.words[cells.places[memory as usize] + address]
        }
    }
}

/// Gives the input nets the values of a cycle.
fn take_inputs(
    module: &Module,
    readers: &Readers,
    inputs: &[Val],
    nets: &mut [Val],
    stale: &mut [bool],
)
    requires module { IsModule «module».now }
    requires readers { AreReaders «module».now readers.now.of_nets readers.now.of_memories }
    requires inputs { AreInputs «module».now inputs.now }
    requires nets { AreNets «module».now.lines nets.old }
    requires stale { length stale.old ≡ block_count «module».now }
    ensures nets { AreNets «module».now.lines nets.new }
    ensures stay { StayStale stale.old stale.new }
    ensures settled { (words : List Word) → AreSettled «module».now nets.old words stale.old 0
        → AreSettled «module».now nets.new words stale.new 0 }
    ensures inputs { (k w : ℕ) → IsInputPort «module».now.ports k w
        → bits_at nets.new (input_net «module».now.ports k) ≡ given_to «module».now inputs.now k }
    ensures registers { (n : ℕ) (line : Line) → slice_get «module».now.lines n ≡ Some line → is_register line.equation ≡ true
        → bits_at nets.new n ≡ bits_at nets.old n }
{
    for (net, value) in inputs.iter().enumerate() {
        prove!(value.width() == module.width(net as u32));
        put(module, readers, net as u32, *value, nets, stale);
    }
}

/// Evaluates the nets of a block in their order. Those below it are settled.
fn evaluate_block(
    module: &Module,
    readers: &Readers,
    cells: &Cells,
    block: u32,
    nets: &mut [Val],
    stale: &mut [bool],
)
    requires module { IsModule «module».now }
    requires readers { AreReaders «module».now readers.now.of_nets readers.now.of_memories }
    requires places { ArePlaces «module».now.memories cells.now.places.items }
    requires words { AreWords «module».now.memories cells.now.words.items }
    requires block_is { block < block_count «module».now }
    requires nets { AreNets «module».now.lines nets.old }
    requires settled { AreSettled «module».now nets.old cells.now.words.items stale.old (block * 8) }
    ensures nets { AreNets «module».now.lines nets.new }
    ensures settled { AreSettled «module».now nets.new cells.now.words.items stale.new (block * 8 + 8) }
    ensures state { StateStays «module».now.lines nets.old nets.new }
{
    let first = block * BLOCK;
    for net in first..(first + BLOCK).min(module.net_count()) {
        let value = value_in(module, cells, nets, net);
        prove!(value.width() == module.width(net));
        put(module, readers, net, value, nets, stale);
    }
    stale[block as usize] = false;
}

/// Evaluates a cycle: what isn't settled behind its inputs, block by block.
pub(crate) fn evaluate(
    module: &Module,
    readers: &Readers,
    inputs: &[Val],
    cells: &Cells,
    nets: &mut [Val],
    stale: &mut [bool],
)
    requires module { IsModule «module».now }
    requires readers { AreReaders «module».now readers.now.of_nets readers.now.of_memories }
    requires inputs { AreInputs «module».now inputs.now }
    requires places { ArePlaces «module».now.memories cells.now.places.items }
    requires words { AreWords «module».now.memories cells.now.words.items }
    requires nets { AreNets «module».now.lines nets.old }
    requires settled { AreSettled «module».now nets.old cells.now.words.items stale.old 0 }
    ensures nets { AreNets «module».now.lines nets.new }
    ensures settled { AreSettled «module».now nets.new cells.now.words.items stale.new 0 }
    ensures valuation { IsValuation «module».now (cycle_with «module».now nets.new cells.now.words.items) }
    ensures inputs { (k w : ℕ) → IsInputPort «module».now.ports k w
        → bits_at nets.new (input_net «module».now.ports k) ≡ given_to «module».now inputs.now k }
    ensures registers { (n : ℕ) (line : Line) → slice_get «module».now.lines n ≡ Some line → is_register line.equation ≡ true
        → bits_at nets.new n ≡ bits_at nets.old n }
{
    take_inputs(module, readers, inputs, nets, stale);
    for block in 0..block_count(module) {
        if stale[block as usize] {
            evaluate_block(module, readers, cells, block, nets, stale);
        }
    }
}

/// The clock's edge: each register takes what its next net has, and the other nets keep theirs.
pub(crate) fn take_next(
    module: &Module,
    readers: &Readers,
    registers: &[Register],
    changes: &mut [Change],
    nets: &mut [Val],
    stale: &mut [bool],
)
    requires module { IsModule «module».now }
    requires readers { AreReaders «module».now readers.now.of_nets readers.now.of_memories }
    requires registers { AreRegisters «module».now.lines registers.now }
    requires changes { length changes.old ≡ length registers.now }
    requires nets { AreNets «module».now.lines nets.old }
    requires stale { length stale.old ≡ block_count «module».now }
    ensures nets { AreNets «module».now.lines nets.new }
    ensures taken { (n : ℕ) (line : Line) → slice_get «module».now.lines n ≡ Some line
        → IfSome (next_of line) (λ m. bits_at nets.new n ≡ bits_at nets.old m) }
    ensures others { (n : ℕ) (line : Line) → slice_get «module».now.lines n ≡ Some line → is_register line.equation ≡ false
        → bits_at nets.new n ≡ bits_at nets.old n }
    ensures settled { (words : List Word) → AreSettled «module».now nets.old words stale.old 0
        → AreSettled «module».now nets.new words stale.new 0 }
{
    let count = gather(module, registers, nets, changes);
    for place in 0..count {
        let change = changes[place];
        put(module, readers, change.net, change.value, nets, stale);
    }
}
