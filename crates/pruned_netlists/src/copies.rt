//! Parts of a module with new numbers.

ghost use Rattle.std.specs.Prelude.{◌≡◌, ℕ, ◌<◌, None, length, slice_get, slice_index_or, option_map, Some, IfOk};
ghost use Rattle.netlist.specs.declared.line.Memory.{Memory};
ghost use Rattle.netlist.specs.Netlists.{driver_of};
ghost use Rattle.pruned_netlists.specs.Numbers.{place};
ghost use Rattle.pruned_netlists.specs.Moved.{moved, moved_memory, AreMovedLines, AreMovedMemories};

use crate::numbers::Numbers;
use av_base::{List, NoMemory, Text};
use netlist::{Equation, Line, MemWrite, Memory, Module, PortLine};
use std::alloc::Global;

/// The equation with the new numbers of nets and memories.
fn moved(equation: Equation, nets: &Numbers, memories: &Numbers) -> Equation
    ensures { result ≡ moved (place nets.now) (place memories.now) equation }
{
    match equation {
        Equation::Input { port } => Equation::Input { port },
        Equation::Constant { value } => Equation::Constant { value },
        Equation::And { a, b } => Equation::And {
            a: nets.place(a),
            b: nets.place(b),
        },
        Equation::Or { a, b } => Equation::Or {
            a: nets.place(a),
            b: nets.place(b),
        },
        Equation::Xor { a, b } => Equation::Xor {
            a: nets.place(a),
            b: nets.place(b),
        },
        Equation::Add { a, b } => Equation::Add {
            a: nets.place(a),
            b: nets.place(b),
        },
        Equation::Sub { a, b } => Equation::Sub {
            a: nets.place(a),
            b: nets.place(b),
        },
        Equation::Eq { a, b } => Equation::Eq {
            a: nets.place(a),
            b: nets.place(b),
        },
        Equation::Less { a, b } => Equation::Less {
            a: nets.place(a),
            b: nets.place(b),
        },
        Equation::Concat { a, b } => Equation::Concat {
            a: nets.place(a),
            b: nets.place(b),
        },
        Equation::Not { a } => Equation::Not { a: nets.place(a) },
        Equation::Any { a } => Equation::Any { a: nets.place(a) },
        Equation::Mux { s, a, b } => Equation::Mux {
            s: nets.place(s),
            a: nets.place(a),
            b: nets.place(b),
        },
        Equation::Slice { a, high, low } => Equation::Slice {
            a: nets.place(a),
            high,
            low,
        },
        Equation::Reg { reset, next } => Equation::Reg {
            reset,
            next: nets.place(next),
        },
        Equation::Read { memory, address } => Equation::Read {
            memory: memories.place(memory),
            address: nets.place(address),
        },
    }
}

/// The lines of the marked nets.
pub(crate) fn moved_lines(
    alloc: Global,
    module: &Module,
    nets: &Numbers,
    memories: &Numbers,
) -> Result<Vec<Line>, NoMemory>
    requires { length nets.now ≡ length «module».now.lines }
    ensures { IfOk result (λ lines. AreMovedLines «module».now nets.now memories.now (length «module».now.lines) lines.items) }
{
    module.well_made();
    let mut lines = Vec::new(alloc);
    for net in 0..module.net_count() {
        if nets.has(net) {
            lines.push(Line {
                width: module.width(net),
                equation: moved(module.equation(net), nets, memories),
                waits: false,
            })?;
        }
    }
    Ok(lines)
}

/// A memory with the new numbers of its write's nets.
fn moved_memory(module: &Module, number: u32, nets: &Numbers) -> Memory
    requires { number < length «module».now.memories }
    ensures { (memory : Memory) → slice_get «module».now.memories number ≡ Some memory
        → result ≡ moved_memory (place nets.now) memory }
{
    let line = module.memory(number);
    Memory {
        width: line.width,
        address_bits: line.address_bits,
        write: Some(MemWrite {
            enable: nets.place(line.enable),
            address: nets.place(line.address),
            word: nets.place(line.word),
        }),
    }
}

/// The marked memories.
pub(crate) fn moved_memories(
    alloc: Global,
    module: &Module,
    nets: &Numbers,
    memories: &Numbers,
) -> Result<Vec<Memory>, NoMemory>
    requires { length memories.now ≡ length «module».now.memories }
    ensures { IfOk result (λ moved. AreMovedMemories «module».now nets.now memories.now
        (length «module».now.memories) moved.items) }
{
    let mut moved = Vec::new(alloc);
    for number in 0..module.memory_count() {
        if memories.has(number) {
            moved.push(moved_memory(module, number, nets))?;
        }
    }
    Ok(moved)
}

/// What drives each output, by its new number.
pub(crate) fn moved_drivers(
    alloc: Global,
    module: &Module,
    nets: &Numbers,
) -> Result<Vec<Option<u32>>, NoMemory>
    ensures count { IfOk result (λ drivers. length drivers.items ≡ length «module».now.ports) }
    ensures each { IfOk result (λ drivers. (k : ℕ)
        → slice_index_or drivers.items k None ≡ option_map (place nets.now) (driver_of «module».now k)) }
{
    module.well_made();
    let mut drivers = Vec::new(alloc);
    for (k, port) in module.ports().iter().enumerate() {
        if port.output {
            let driver = module.driver(k as u32);
            drivers.push(Some(nets.place(driver)))?;
        } else {
            drivers.push(None)?;
        }
    }
    Ok(drivers)
}

fn copied_port(alloc: Global, port: &PortLine) -> Result<PortLine, NoMemory>
    ensures { IfOk result (λ copy. copy ≡ port.now) }
{
    Ok(PortLine {
        name: Text::copy(alloc, port.name.as_str())?,
        width: port.width,
        output: port.output,
    })
}

/// The same ports.
pub fn copied_ports(alloc: Global, ports: &[PortLine]) -> Result<List<PortLine>, NoMemory>
    ensures { IfOk result (λ copies. copies ≡ ports.now) }
{
    let mut copies = List::new(alloc);
    for port in ports {
        copies.push(copied_port(alloc, port)?)?;
    }
    Ok(copies)
}
