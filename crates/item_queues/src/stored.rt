//! Items in memories, a memory for each net of an item: they stand in a row from the place of the oldest one on, and from the
//! last place to the first.

ghost use Rattle.std.specs.Prelude.{◌≡◌, ℕ, ◌+◌, ◌^◌, ◌<◌, ◌≤◌, ◌⊎◌, length, IfOk, OnOk};
ghost use Rattle.netlist.specs.Netlists.{IsWaiting, WaitsForWrite};
ghost use Rattle.net_parts.specs.Nets.{IsBit};
ghost use Rattle.net_parts.specs.Growth.{GrowsInMemory, StillWait, WaitsBeside, WaitsWithout, AreMadeBetween, StillWaitForWrite, WriteWaitsBeside, WriteWaitsWithout};
ghost use Rattle.net_parts.specs.Groups.{AreNets};
ghost use Rattle.item_queues.specs.Registers.{owns_pointers};
ghost use Rattle.item_queues.specs.Memories.{InMems};
ghost use Rattle.item_queues.specs.Stored.{IsStored, StoredGoesOn};

use crate::bits::address_bits;
use crate::memories::{make_memories, write_item};
use crate::pointers::{Pointers, finish_pointers, hold_pointers};
use netlist::{Builder, Mem, Net, NetFault};

/// The memories of a queue, and the places of its oldest item and of the next one.
#[derive(Clone, Copy)]
pub struct StoredItems<const N: usize> {
    pub memories: [Mem; N],
    pub pointers: Pointers,
}

/// Makes the memories and pointers for at most `bound` items like this one.
pub(crate) fn make_stored<const N: usize>(
    builder: &mut Builder,
    like: &[Net; N],
    bound: u8,
) -> Result<StoredItems<N>, NetFault>
    requires some_net { 1 ≤ N }
    requires few_nets { N < 2 ^ 32 }
    requires like { AreNets builder.old like.now }
    ensures made { IfOk result (λ stored. IsStored builder.new like.now bound stored) }
    ensures owned { IfOk result (λ stored. AreMadeBetween (owns_pointers stored.pointers) builder.old builder.new) }
    ensures owned_memories { IfOk result (λ stored. (m : ℕ) → InMems stored.memories m
        → (length builder.old.memories ≤ m) × (m < length builder.new.memories)) }
    ensures grows { GrowsInMemory 2 N builder.old builder.new }
    ensures still_wait { StillWait builder.old builder.new }
    ensures own_wait { IfOk result (λ stored. (n : ℕ) → owns_pointers stored.pointers n → IsWaiting builder.new n) }
    ensures newly { IfOk result (λ stored. WaitsBeside (owns_pointers stored.pointers) builder.old builder.new) }
    ensures still_wait_for_write { StillWaitForWrite builder.old builder.new }
    ensures own_wait_for_write { IfOk result (λ stored. (m : ℕ) → InMems stored.memories m → WaitsForWrite builder.new m) }
    ensures newly_written { IfOk result (λ stored. WriteWaitsBeside (InMems stored.memories) builder.old builder.new) }
    ensures full { result ≡ Err NetFault.TooManyNets
        → (2 ^ 20 < length builder.old.lines + 2) ⊎ (2 ^ 16 < length builder.old.memories + N) }
{
    let bits = address_bits(bound);
    let memories = make_memories(builder, like, bits)?;
    let pointers = hold_pointers(builder, bits)?;
    Ok(StoredItems { memories, pointers })
}

/// Writes the item that comes to the next place, and lets the pointers go on.
pub(crate) fn finish_stored<const N: usize>(
    builder: &mut Builder,
    stored: &StoredItems<N>,
    bound: u8,
    item: &[Net; N],
    comes: Net,
    goes: Net,
) -> Result<(), NetFault>
    requires few_nets { N < 2 ^ 32 }
    requires stored { IsStored builder.old item.now bound stored.now }
    requires item { AreNets builder.old item.now }
    requires comes { IsBit builder.old comes }
    requires goes { IsBit builder.old goes }
    requires waits { (n : ℕ) → owns_pointers stored.now.pointers n → IsWaiting builder.old n }
    requires waits_for_write { (m : ℕ) → InMems stored.now.memories m → WaitsForWrite builder.old m }
    ensures on { OnOk result (StoredGoesOn builder.new stored.now item.now comes goes) }
    ensures grows { GrowsInMemory 6 0 builder.old builder.new }
    ensures waits { (n : ℕ) → ¬ owns_pointers stored.now.pointers n → IsWaiting builder.old n → IsWaiting builder.new n }
    ensures no_more_wait { OnOk result (WaitsWithout (owns_pointers stored.now.pointers) builder.old builder.new) }
    ensures still_wait_for_write { (m : ℕ) → ¬ InMems stored.now.memories m → WaitsForWrite builder.old m
        → WaitsForWrite builder.new m }
    ensures no_more_write { OnOk result (WriteWaitsWithout (InMems stored.now.memories) builder.old builder.new) }
    ensures full { result ≡ Err NetFault.TooManyNets → 2 ^ 20 < length builder.old.lines + 6 }
{
    finish_pointers(builder, stored.pointers, comes, goes)?;
    write_item(builder, &stored.memories, comes, stored.pointers.next, item);
    Ok(())
}
