//! Parts of a module as they are, and its lines with constants.

ghost use Rattle.std.specs.Prelude.{◌≡◌, ◌<◌, ℕ, length, slice_get, slice_index_or, Some, None, IfOk};
ghost use Rattle.netlist.specs.Netlists.{driver_of};
ghost use Rattle.settled_netlists.specs.Values.{HaveWidths};
ghost use Rattle.settled_netlists.specs.Lines.{AreSettledLines};

use av_base::{NoMemory, Val};
use netlist::{Equation, Line, MemWrite, Memory, Module};
use std::alloc::Global;

/// The lines, a constant where a net has a value.
pub(crate) fn settled_lines(
    alloc: Global,
    module: &Module,
    values: &[Option<Val>],
) -> Result<Vec<Line>, NoMemory>
    requires { length values.now ≡ length «module».now.lines }
    ensures { IfOk result (λ lines. AreSettledLines «module».now values.now (length «module».now.lines) lines.items) }
{
    module.well_made();
    let mut lines = Vec::new(alloc);
    for net in 0..module.net_count() {
        let line = match values[net as usize] {
            Some(value) => Line {
                width: value.width(),
                equation: Equation::Constant { value },
                waits: false,
            },
            None => Line {
                width: module.width(net),
                equation: module.equation(net),
                waits: false,
            },
        };
        lines.push(line)?;
    }
    Ok(lines)
}

/// What drives each output.
pub(crate) fn copied_drivers(alloc: Global, module: &Module) -> Result<Vec<Option<u32>>, NoMemory>
    ensures count { IfOk result (λ drivers. length drivers.items ≡ length «module».now.ports) }
    ensures each { IfOk result (λ drivers. (k : ℕ) → slice_index_or drivers.items k None ≡ driver_of «module».now k) }
{
    module.well_made();
    let mut drivers = Vec::new(alloc);
    for (k, port) in module.ports().iter().enumerate() {
        if port.output {
            drivers.push(Some(module.driver(k as u32)))?;
        } else {
            drivers.push(None)?;
        }
    }
    Ok(drivers)
}

fn copied_memory(module: &Module, number: u32) -> Memory
    requires { number < length «module».now.memories }
    ensures { slice_get «module».now.memories number ≡ Some result }
{
    let line = module.memory(number);
    Memory {
        width: line.width,
        address_bits: line.address_bits,
        write: Some(MemWrite {
            enable: line.enable,
            address: line.address,
            word: line.word,
        }),
    }
}

/// The same memories.
pub(crate) fn copied_memories(alloc: Global, module: &Module) -> Result<Vec<Memory>, NoMemory>
    ensures { IfOk result (λ memories. memories.items ≡ «module».now.memories) }
{
    let mut memories = Vec::new(alloc);
    for number in 0..module.memory_count() {
        memories.push(copied_memory(module, number))?;
    }
    Ok(memories)
}
