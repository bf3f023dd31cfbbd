//! Memories for all nets of an item at once: made, read and written at one place of each.

ghost use Rattle.std.specs.Prelude.{◌≡◌, ℕ, ◌+◌, ◌^◌, ◌<◌, ◌≤◌, length, IfOk};
ghost use Rattle.netlist.specs.Netlists.{IsNet, IsWaiting, IsMem, WaitsForWrite};
ghost use Rattle.netlist.specs.Runs.{Always};
ghost use Rattle.net_parts.specs.Nets.{IsBit, IsNetOfWidth};
ghost use Rattle.net_parts.specs.Growth.{AddsNets, GrowsInMemory, StillWait, StillWaitForWrite, WriteWaitsBeside, WriteWaitsWithout};
ghost use Rattle.net_parts.specs.Groups.{AreNets, group_widths, values_of, IsInRow};
ghost use Rattle.item_queues.specs.Memories.{AreMems, AreMemsFrom, AreMemsInRow, InMems, mem_widths, item_at, TakesItems};

use netlist::{Builder, Mem, Net, NetFault};

/// A memory for words of the width of a net, that waits for its write.
fn make_memory(builder: &mut Builder, like: Net, address_bits: u8) -> Result<Mem, NetFault>
    requires like { IsNet builder.old like }
    requires some { 1 ≤ address_bits }
    requires few { address_bits ≤ 10 }
    ensures mem { IfOk result (λ made. IsMem builder.new made) }
    ensures width { IfOk result (λ made. made.width ≡ like.width) }
    ensures address { IfOk result (λ made. made.address_bits ≡ address_bits) }
    ensures number { IfOk result (λ made. made.number ≡ length builder.old.memories) }
    ensures count { IfOk result (λ made. length builder.new.memories ≡ length builder.old.memories + 1) }
    ensures waits { IfOk result (λ made. WaitsForWrite builder.new made.number) }
    ensures grows { GrowsInMemory 0 1 builder.old builder.new }
    ensures lines { builder.new.lines ≡ builder.old.lines }
    ensures still_wait_for_write { StillWaitForWrite builder.old builder.new }
    ensures newly_written { WriteWaitsBeside (λ m. m ≡ length builder.old.memories) builder.old builder.new }
    ensures full { result ≡ Err NetFault.TooManyNets → 2 ^ 16 < length builder.old.memories + 1 }
{
    let width = builder.width(like);
    builder.memory(width, address_bits)
}

/// A memory for each net of an item, with words of its width.
pub(crate) fn make_memories<const N: usize>(
    builder: &mut Builder,
    like: &[Net; N],
    address_bits: u8,
) -> Result<[Mem; N], NetFault>
    requires some_net { 1 ≤ N }
    requires like { AreNets builder.old like.now }
    requires some { 1 ≤ address_bits }
    requires few { address_bits ≤ 10 }
    ensures mems { IfOk result (λ made. AreMems builder.new address_bits made) }
    ensures numbers { IfOk result (λ made. AreMemsFrom (length builder.old.memories) made) }
    ensures widths { IfOk result (λ made. mem_widths made ≡ group_widths like.now) }
    ensures owned { IfOk result (λ made. (m : ℕ) → InMems made m
        → (length builder.old.memories ≤ m) × (m < length builder.new.memories)) }
    ensures grows { GrowsInMemory 0 N builder.old builder.new }
    ensures lines { builder.new.lines ≡ builder.old.lines }
    ensures still_wait_for_write { StillWaitForWrite builder.old builder.new }
    ensures own_wait_for_write { IfOk result (λ made. (m : ℕ) → InMems made m → WaitsForWrite builder.new m) }
    ensures newly_written { IfOk result (λ made. WriteWaitsBeside (InMems made) builder.old builder.new) }
    ensures full { result ≡ Err NetFault.TooManyNets → 2 ^ 16 < length builder.old.memories + N }
{
    let first = make_memory(builder, like[0], address_bits)?;
    let mut made = [first; N];
    for k in 1..N {
        made[k] = make_memory(builder, like[k], address_bits)?;
    }
    Ok(made)
}

/// What stands at a place of the memories; `like` has the widths of their words.
pub(crate) fn read_item<const N: usize>(
    builder: &mut Builder,
    memories: &[Mem; N],
    place: Net,
    like: &[Net; N],
) -> Result<[Net; N], NetFault>
    requires place { IsNet builder.old place }
    requires memories { AreMems builder.old place.width memories.now }
    requires widths { mem_widths memories.now ≡ group_widths like.now }
    ensures nets { IfOk result (λ made. AreNets builder.new made) }
    ensures widths { IfOk result (λ made. group_widths made ≡ group_widths like.now) }
    ensures value { IfOk result (λ made. Always builder.new (λ cycle. values_of cycle made
        ≡ item_at cycle memories.now (cycle.net place.number))) }
    ensures adds { AddsNets N builder.old builder.new }
    ensures full { result ≡ Err NetFault.TooManyNets → 2 ^ 20 < length builder.old.lines + N }
{
    let mut made = *like;
    for (k, mem) in memories.iter().enumerate() {
        made[k] = builder.read_memory(*mem, place)?;
    }
    Ok(made)
}

/// Gives the memories their writes: where the bit is high the item goes to the place.
pub(crate) fn write_item<const N: usize>(
    builder: &mut Builder,
    memories: &[Mem; N],
    comes: Net,
    place: Net,
    item: &[Net; N],
)
    requires comes { IsBit builder.old comes }
    requires place { IsNet builder.old place }
    requires memories { AreMems builder.old place.width memories.now }
    requires numbers { AreMemsInRow memories.now }
    requires item { AreNets builder.old item.now }
    requires widths { mem_widths memories.now ≡ group_widths item.now }
    requires waits { (m : ℕ) → InMems memories.now m → WaitsForWrite builder.old m }
    ensures value { TakesItems builder.new memories.now comes place item.now }
    ensures grows { GrowsInMemory 0 0 builder.old builder.new }
    ensures lines { builder.new.lines ≡ builder.old.lines }
    ensures still_wait_for_write { (m : ℕ) → ¬ InMems memories.now m → WaitsForWrite builder.old m → WaitsForWrite builder.new m }
    ensures no_more_write { WriteWaitsWithout (InMems memories.now) builder.old builder.new }
{
    for (k, mem) in memories.iter().enumerate() {
        builder.set_write(*mem, comes, place, item[k]);
    }
}
