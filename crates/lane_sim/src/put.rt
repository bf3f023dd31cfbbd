//! Values that nets take, and what has to be evaluated again for them.

ghost use Rattle.std.specs.Prelude.{◌≡◌, ◌≢◌, ◌<◌, ℕ, true, length, slice_get, slice_set, Some, IfSome};
ghost use Rattle.netlist.specs.declared.line.Memory.{Memory};
ghost use Rattle.netlist.specs.Netlists.{IsModule};
ghost use Rattle.cycle_sim.specs.Sims.{bits_at};
ghost use Rattle.cycle_sim.specs.Readers.{AreReaders, AreStale, StayStale, block_count, list_at};
ghost use Rattle.lane_sim.specs.LaneWords.{value_at};
ghost use Rattle.lane_sim.specs.LaneSims.{AreLaneNets, lane_words};

use crate::planes::LaneVal;
use av_base::Val;
use cycle_sim::reading::{Readers, mark};
use netlist::Module;

/// Gives a net a value, and makes the blocks that read it stale where it had another in some lane.
#[inline(always)]
pub(crate) fn put(
    module: &Module,
    readers: &Readers,
    net: u32,
    value: LaneVal,
    nets: &mut [LaneVal],
    stale: &mut [bool],
)
    requires readers { AreReaders «module».now readers.now.of_nets readers.now.of_memories }
    requires net_is { net < length «module».now.lines }
    requires nets { length nets.old ≡ length «module».now.lines }
    requires stale { length stale.old ≡ block_count «module».now }
    ensures value { nets.new ≡ slice_set nets.old net value }
    ensures stay { StayStale stale.old stale.new }
    ensures stale { (j : ℕ) → j < 8 → bits_at (lane_words j nets.old) net ≢ (value_at value j).bits
        → AreStale stale.new (list_at readers.now.of_nets net) }
{
    let same = nets[net as usize].is_same(value);
    nets[net as usize] = value;
    if !same {
        mark(readers.of_nets.list(net), stale);
    }
}

/// Whether some lane has the bit.
fn is_set_somewhere(bit: LaneVal) -> bool
    requires { bit.width ≡ 1 }
    ensures { (j : ℕ) → j < 8 → (value_at bit j).bits ≡ 1 → result ≡ true }
{
    !bit.is_same(LaneVal::splat(Val::new(1, 0).unwrap()))
}

/// Makes the blocks stale that read a memory which the clock's edge writes in some lane.
pub(crate) fn mark_written(module: &Module, readers: &Readers, nets: &[LaneVal], stale: &mut [bool])
    requires module { IsModule «module».now }
    requires readers { AreReaders «module».now readers.now.of_nets readers.now.of_memories }
    requires nets { AreLaneNets «module».now.lines nets.now }
    requires stale { length stale.old ≡ block_count «module».now }
    ensures stay { StayStale stale.old stale.new }
    ensures stale { (j : ℕ) → j < 8 → (m : ℕ) (memory : Memory) → slice_get «module».now.memories m ≡ Some memory
        → IfSome memory.write (λ write. bits_at (lane_words j nets.now) write.enable ≡ 1
        → AreStale stale.new (list_at readers.now.of_memories m)) }
{
    for m in 0..module.memory_count() {
        if is_set_somewhere(nets[module.memory(m).enable as usize]) {
            mark(readers.of_memories.list(m), stale);
        }
    }
}
