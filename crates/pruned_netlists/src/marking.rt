//! Which nets and memories an output depends on.

ghost use Rattle.std.specs.Prelude.{◌≡◌, ◌+◌, ◌<◌, ℕ, [], ◌∷◌, ◌++◌, length, replicate, false, slice_get, Some, IfOk, OnOk};
ghost use Rattle.netlist.specs.declared.line.Line.{Line};
ghost use Rattle.netlist.specs.Netlists.{IsModule};
ghost use Rattle.pruned_netlists.specs.Needed.{memory_nets, sources};
ghost use Rattle.pruned_netlists.specs.Numbers.{ReadsWithin, AreMarks, AreMemoryMarks, AreInputs, AreRoots};

use av_base::NoMemory;
use netlist::{Equation, Module};
use std::alloc::Global;

/// So many marks, none of them set.
fn unmarked(alloc: Global, count: u32) -> Result<Vec<bool>, NoMemory>
    ensures { IfOk result (λ marks. marks.items ≡ replicate count false) }
{
    let mut marks = Vec::new(alloc);
    'marks: for _ in 0..count {
        marks.push(false)?;
    }
    Ok(marks)
}

/// Appends a net.
fn push_one(pending: &mut Vec<u32>, a: u32) -> Result<(), NoMemory>
    ensures { OnOk result (pending.new.items ≡ pending.old.items ++ a ∷ []) }
{
    pending.push(a)?;
    Ok(())
}

/// Appends two nets.
fn push_two(pending: &mut Vec<u32>, a: u32, b: u32) -> Result<(), NoMemory>
    ensures { OnOk result (pending.new.items ≡ pending.old.items ++ a ∷ b ∷ []) }
{
    pending.push(a)?;
    pending.push(b)?;
    Ok(())
}

/// Appends the nets of a memory's write.
fn push_write(module: &Module, memory: u32, pending: &mut Vec<u32>) -> Result<(), NoMemory>
    requires { memory < length «module».now.memories }
    ensures { OnOk result (pending.new.items ≡ pending.old.items ++ memory_nets (slice_get «module».now.memories memory)) }
{
    let line = module.memory(memory);
    push_one(pending, line.enable)?;
    push_two(pending, line.address, line.word)
}

/// Appends the nets that an equation goes by.
fn push_sources_of(
    module: &Module,
    equation: Equation,
    pending: &mut Vec<u32>,
) -> Result<(), NoMemory>
    requires { ReadsWithin «module».now equation }
    ensures { OnOk result (pending.new.items ≡ pending.old.items ++ sources «module».now.memories equation) }
{
    match equation {
        Equation::Input { .. } => Ok(()),
        Equation::Constant { .. } => Ok(()),
        Equation::And { a, b } => push_two(pending, a, b),
        Equation::Or { a, b } => push_two(pending, a, b),
        Equation::Xor { a, b } => push_two(pending, a, b),
        Equation::Add { a, b } => push_two(pending, a, b),
        Equation::Sub { a, b } => push_two(pending, a, b),
        Equation::Eq { a, b } => push_two(pending, a, b),
        Equation::Less { a, b } => push_two(pending, a, b),
        Equation::Concat { a, b } => push_two(pending, a, b),
        Equation::Not { a } => push_one(pending, a),
        Equation::Any { a } => push_one(pending, a),
        Equation::Mux { s, a, b } => {
            push_one(pending, s)?;
            push_two(pending, a, b)
        }
        Equation::Slice { a, .. } => push_one(pending, a),
        Equation::Reg { next, .. } => push_one(pending, next),
        Equation::Read { memory, address } => {
            push_one(pending, address)?;
            push_write(module, memory, pending)
        }
    }
}

/// Appends the nets that a net goes by.
fn push_sources(module: &Module, net: u32, pending: &mut Vec<u32>) -> Result<(), NoMemory>
    requires { net < length «module».now.lines }
    ensures { OnOk result
        ((line : Line) → slice_get «module».now.lines net ≡ Some line
        → pending.new.items ≡ pending.old.items ++ sources «module».now.memories line.equation) }
{
    module.well_made();
    push_sources_of(module, module.equation(net), pending)
}

/// Appends the nets of inputs.
fn push_inputs(module: &Module, pending: &mut Vec<u32>) -> Result<(), NoMemory>
    requires { pending.old.items ≡ [] }
    ensures { OnOk result (AreInputs «module».now (length «module».now.lines) pending.new.items) }
{
    for net in 0..module.net_count() {
        if let Equation::Input { .. } = module.equation(net) {
            pending.push(net)?;
        }
    }
    Ok(())
}

/// Appends the nets that drive outputs.
fn push_drivers(module: &Module, pending: &mut Vec<u32>) -> Result<(), NoMemory>
    requires { AreInputs «module».now (length «module».now.lines) pending.old.items }
    ensures { OnOk result (AreRoots «module».now (length «module».now.ports) pending.new.items) }
{
    module.well_made();
    for (k, port) in module.ports().iter().enumerate() {
        if port.output {
            pending.push(module.driver(k as u32))?;
        }
    }
    Ok(())
}

/// Which nets an output depends on, and those of inputs. Each net is marked once, so the time grows with the number of nets.
pub(crate) fn needed_nets(alloc: Global, module: &Module) -> Result<Vec<bool>, NoMemory>
    ensures { IfOk result (λ marks. AreMarks «module».now marks.items) }
{
    module.well_made();
    let mut marks = unmarked(alloc, module.net_count())?;
    let mut pending = Vec::new(alloc);
    push_inputs(module, &mut pending)?;
    push_drivers(module, &mut pending)?;
    while let Some(net) = pending.pop() {
        if marks[net as usize] {
            continue;
        }
        marks[net as usize] = true;
        push_sources(module, net, &mut pending)?;
    }
    Ok(marks)
}

/// Which memories a needed net reads.
pub(crate) fn read_memories(
    alloc: Global,
    module: &Module,
    marks: &[bool],
) -> Result<Vec<bool>, NoMemory>
    requires { AreMarks «module».now marks.now }
    ensures { IfOk result (λ read. AreMemoryMarks «module».now read.items) }
{
    module.well_made();
    let mut read = unmarked(alloc, module.memory_count())?;
    for net in 0..module.net_count() {
        if marks[net as usize] {
            if let Equation::Read { memory, .. } = module.equation(net) {
                read[memory as usize] = true;
            }
        }
    }
    Ok(read)
}
