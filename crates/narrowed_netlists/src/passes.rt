//! All nets of a module made anew, and then their next nets, writes and outputs.

ghost use Rattle.std.specs.Prelude.{◌≡◌, ◌<◌, ℕ, length, None, IfOk, OnOk};
ghost use Rattle.netlist.specs.Netlists.{IsModule, IsClocked, IsWritten, driver_of, input_lines};
ghost use Rattle.netlist.specs.Longer.{Extends};
ghost use Rattle.narrowed_netlists.specs.Masks.{AreMemoryGaps, AreNetGaps};
ghost use Rattle.narrowed_netlists.specs.Copies.{HaveCopies, HaveNext, HaveMemories, HaveWrites, AreMems, AreWaiting, KeepsFixed, MemoriesWait, AreDriven};

use crate::copies::{Copies, copied_net, copied_register, gap_at, narrowed, net_at};
use crate::gaps::Gap;
use netlist::{Builder, Equation, Mem, Module, Net, NetFault};
use std::alloc::Global;

/// The nets, registers without the bits in their gaps; no register has its next net yet.
pub(crate) fn copied_nets(
    alloc: Global,
    builder: &mut Builder,
    module: &Module,
    mems: &[Mem],
    masks: &[u128],
    registers: &[Gap],
    memories: &[Gap],
) -> Result<Copies, NetFault>
    requires module { IsModule «module».now }
    requires ports { builder.old.ports ≡ «module».now.ports }
    requires begins { builder.old.lines ≡ input_lines 0 «module».now.ports }
    requires clocked { IsClocked builder.old }
    requires mems { AreMems «module».now memories.now mems.now (length «module».now.memories) }
    requires many_mems { length mems.now ≡ length «module».now.memories }
    requires narrow { HaveMemories «module».now builder.old memories.now (length «module».now.memories) }
    requires registers_fit { AreNetGaps «module».now masks.now registers.now (length «module».now.lines) }
    requires many_registers { length registers.now ≡ length «module».now.lines }
    requires memories_fit { AreMemoryGaps «module».now memories.now (length «module».now.memories) }
    requires many_memories { length memories.now ≡ length «module».now.memories }
    ensures copies { IfOk result (λ copies. HaveCopies «module».now builder.new registers.now memories.now copies.nets.items
        copies.cores.items (length «module».now.lines)) }
    ensures nets { IfOk result (λ copies. length copies.nets.items ≡ length «module».now.lines) }
    ensures cores { IfOk result (λ copies. length copies.cores.items ≡ length «module».now.lines) }
    ensures fixed { IfOk result (λ copies. KeepsFixed «module».now builder.new copies.nets.items (length «module».now.lines)) }
    ensures waiting { IfOk result (λ copies. AreWaiting «module».now builder.new copies.cores.items 0
        (length «module».now.lines)) }
    ensures extends { IfOk result (λ copies. Extends builder.old builder.new) }
    ensures memories { IfOk result (λ copies. builder.new.memories ≡ builder.old.memories) }
    ensures drivers { IfOk result (λ copies. builder.new.drivers ≡ builder.old.drivers) }
{
    let mut nets = Vec::new(alloc);
    let mut cores = Vec::new(alloc);
    for net in 0..module.net_count() {
        let equation = module.equation(net);
        if let Equation::Reg { reset, .. } = equation {
            let copied = copied_register(builder, reset, gap_at(registers, net))?;
            nets.push(copied.net)?;
            cores.push(copied.core)?;
        } else {
            let copy = copied_net(
                builder,
                module,
                nets.as_slice(),
                mems,
                memories,
                net,
                equation,
            )?;
            nets.push(copy)?;
            cores.push(copy)?;
        }
    }
    Ok(Copies { nets, cores })
}

/// Gives each register its next net.
pub(crate) fn set_registers(
    builder: &mut Builder,
    module: &Module,
    nets: &[Net],
    cores: &[Net],
    masks: &[u128],
    registers: &[Gap],
    memories: &[Gap],
) -> Result<(), NetFault>
    requires module { IsModule «module».now }
    requires copies { HaveCopies «module».now builder.old registers.now memories.now nets.now cores.now
        (length «module».now.lines) }
    requires nets { length nets.now ≡ length «module».now.lines }
    requires cores { length cores.now ≡ length «module».now.lines }
    requires waiting { AreWaiting «module».now builder.old cores.now 0 (length «module».now.lines) }
    requires registers_fit { AreNetGaps «module».now masks.now registers.now (length «module».now.lines) }
    requires many_registers { length registers.now ≡ length «module».now.lines }
    ensures next { OnOk result (HaveNext «module».now builder.new registers.now nets.now cores.now (length «module».now.lines)) }
    ensures clocked { OnOk result (IsClocked builder.new) }
    ensures extends { OnOk result (Extends builder.old builder.new) }
    ensures memories { OnOk result (builder.new.memories ≡ builder.old.memories) }
    ensures drivers { OnOk result (builder.new.drivers ≡ builder.old.drivers) }
{
    for net in 0..module.net_count() {
        if let Equation::Reg { next, .. } = module.equation(net) {
            let narrow = narrowed(builder, net_at(nets, next), gap_at(registers, net))?;
            builder.set_next(net_at(cores, net), narrow);
        }
    }
    Ok(())
}

/// Gives each memory its write.
pub(crate) fn set_writes(
    builder: &mut Builder,
    module: &Module,
    nets: &[Net],
    cores: &[Net],
    mems: &[Mem],
    registers: &[Gap],
    memories: &[Gap],
) -> Result<(), NetFault>
    requires module { IsModule «module».now }
    requires copies { HaveCopies «module».now builder.old registers.now memories.now nets.now cores.now
        (length «module».now.lines) }
    requires nets { length nets.now ≡ length «module».now.lines }
    requires clocked { IsClocked builder.old }
    requires mems { AreMems «module».now memories.now mems.now (length «module».now.memories) }
    requires many_mems { length mems.now ≡ length «module».now.memories }
    requires narrow { HaveMemories «module».now builder.old memories.now (length «module».now.memories) }
    requires waits { MemoriesWait builder.old 0 (length «module».now.memories) }
    requires memories_fit { AreMemoryGaps «module».now memories.now (length «module».now.memories) }
    requires many_memories { length memories.now ≡ length «module».now.memories }
    ensures writes { OnOk result (HaveWrites «module».now builder.new memories.now nets.now (length «module».now.memories)) }
    ensures written { OnOk result (IsWritten builder.new) }
    ensures clocked { OnOk result (IsClocked builder.new) }
    ensures extends { OnOk result (Extends builder.old builder.new) }
    ensures drivers { OnOk result (builder.new.drivers ≡ builder.old.drivers) }
{
    module.well_made();
    for number in 0..module.memory_count() {
        let line = module.memory(number);
        let word = narrowed(builder, net_at(nets, line.word), gap_at(memories, number))?;
        builder.set_write(
            mems[number as usize],
            net_at(nets, line.enable),
            net_at(nets, line.address),
            word,
        );
    }
    Ok(())
}

/// Lets the nets drive what they drove.
pub(crate) fn drive_outputs(
    builder: &mut Builder,
    module: &Module,
    nets: &[Net],
    cores: &[Net],
    registers: &[Gap],
    memories: &[Gap],
)
    requires module { IsModule «module».now }
    requires copies { HaveCopies «module».now builder.old registers.now memories.now nets.now cores.now
        (length «module».now.lines) }
    requires nets { length nets.now ≡ length «module».now.lines }
    requires ports { builder.old.ports ≡ «module».now.ports }
    requires undriven { (k : ℕ) → driver_of builder.old k ≡ None }
    ensures driven { AreDriven «module».now builder.new nets.now (length «module».now.ports) }
    ensures clocked { IsClocked builder.old → IsClocked builder.new }
    ensures memories { builder.new.memories ≡ builder.old.memories }
    ensures extends { Extends builder.old builder.new }
{
    module.well_made();
    let ports = module.ports();
    for k in 0..ports.len() {
        if ports[k].output {
            let driver = module.driver(k as u32);
            builder.drive(k as u32, net_at(nets, driver));
        }
    }
}
