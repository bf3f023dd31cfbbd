//! Values that nets take, and what has to be evaluated again for them.

ghost use Rattle.std.specs.Prelude.{◌≡◌, ◌≢◌, ◌<◌, ℕ, length, slice_get, slice_set, Some, IfSome};
ghost use Rattle.netlist.specs.declared.line.Memory.{Memory};
ghost use Rattle.netlist.specs.Netlists.{IsModule};
ghost use Rattle.cycle_sim.specs.Readers.{AreReaders, AreStale, StayStale, block_count, list_at};
ghost use Rattle.cycle_sim.specs.Sims.{bits_at, AreNets};

use crate::reading::{Readers, mark};
use av_base::Val;
use netlist::Module;

/// Gives a net a value, and makes the blocks that read it stale where it had another.
pub(crate) fn put(
    module: &Module,
    readers: &Readers,
    net: u32,
    value: Val,
    nets: &mut [Val],
    stale: &mut [bool],
)
    requires readers { AreReaders «module».now readers.now.of_nets readers.now.of_memories }
    requires net_is { net < length «module».now.lines }
    requires nets { length nets.old ≡ length «module».now.lines }
    requires stale { length stale.old ≡ block_count «module».now }
    ensures value { nets.new ≡ slice_set nets.old net value }
    ensures stay { StayStale stale.old stale.new }
    ensures stale { bits_at nets.old net ≢ value.bits → AreStale stale.new (list_at readers.now.of_nets net) }
{
    let changes = nets[net as usize].bits() != value.bits();
    nets[net as usize] = value;
    if changes {
        mark(readers.of_nets.list(net), stale);
    }
}

/// Makes the blocks stale that read a memory which the clock's edge writes.
pub(crate) fn mark_written(module: &Module, readers: &Readers, nets: &[Val], stale: &mut [bool])
    requires module { IsModule «module».now }
    requires readers { AreReaders «module».now readers.now.of_nets readers.now.of_memories }
    requires nets { AreNets «module».now.lines nets.now }
    requires stale { length stale.old ≡ block_count «module».now }
    ensures stay { StayStale stale.old stale.new }
    ensures stale { (m : ℕ) (memory : Memory) → slice_get «module».now.memories m ≡ Some memory
        → IfSome memory.write (λ write. bits_at nets.now write.enable ≡ 1
        → AreStale stale.new (list_at readers.now.of_memories m)) }
{
    for m in 0..module.memory_count() {
        if nets[module.memory(m).enable as usize].bits() == 1 {
            mark(readers.of_memories.list(m), stale);
        }
    }
}
