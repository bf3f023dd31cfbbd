//! What holds the items of a queue: a few places that shift, or memories.

ghost use Rattle.std.specs.Prelude.{◌≡◌, ℕ, ◌+◌, ◌*◌, ◌^◌, ◌<◌, ◌≤◌, ◌⊎◌, ◌∷◌, List, length, IfOk, OnOk};
ghost use Rattle.netlist.specs.Netlists.{IsNet, IsWaiting, WaitsForWrite};
ghost use Rattle.netlist.specs.Runs.{Always};
ghost use Rattle.net_parts.specs.Nets.{IsBit};
ghost use Rattle.net_parts.specs.Growth.{AddsNets, GrowsInMemory, StillWait, WaitsBeside, WaitsWithout, AreMadeBetween, StillWaitForWrite, WriteWaitsBeside, WriteWaitsWithout};
ghost use Rattle.net_parts.specs.Groups.{AreNets, group_widths, values_of};
ghost use Rattle.item_queues.specs.Storages.{owns_in, owns_memories_in, IsStorage, StorageGoesOn, held_of, shown_oldest};

use crate::memories::read_item;
use crate::places::{choose_held, make_places, shift_places};
use crate::stored::{StoredItems, finish_stored, make_stored};
use netlist::{Builder, Net, NetFault};

/// The fewest items that stand in memories.
pub const FEWEST_STORED: u8 = 4;

/// Where items stand.
#[derive(Clone, Copy)]
pub enum Storage<const N: usize> {
    /// In registers that shift, the newest item first; of these places only so many are used as there may be items.
    InRegisters([[Net; N]; 3]),
    /// In memories.
    InMemories(StoredItems<N>),
}

/// Makes the registers or the memories for at most `bound` items like this one.
pub(crate) fn make_storage<const N: usize>(
    builder: &mut Builder,
    like: &[Net; N],
    bound: u8,
) -> Result<Storage<N>, NetFault>
    requires some_net { 1 ≤ N }
    requires few_nets { N < 2 ^ 32 }
    requires like { AreNets builder.old like.now }
    ensures made { IfOk result (λ storage. IsStorage builder.new like.now bound storage) }
    ensures owned { IfOk result (λ storage. AreMadeBetween (owns_in bound storage) builder.old builder.new) }
    ensures owned_memories { IfOk result (λ storage. (m : ℕ) → owns_memories_in storage m
        → (length builder.old.memories ≤ m) × (m < length builder.new.memories)) }
    ensures grows { GrowsInMemory (3 * N) N builder.old builder.new }
    ensures still_wait { StillWait builder.old builder.new }
    ensures own_wait { IfOk result (λ storage. (n : ℕ) → owns_in bound storage n → IsWaiting builder.new n) }
    ensures newly { IfOk result (λ storage. WaitsBeside (owns_in bound storage) builder.old builder.new) }
    ensures still_wait_for_write { StillWaitForWrite builder.old builder.new }
    ensures own_wait_for_write { IfOk result (λ storage. (m : ℕ) → owns_memories_in storage m → WaitsForWrite builder.new m) }
    ensures newly_written { IfOk result (λ storage. WriteWaitsBeside (owns_memories_in storage) builder.old builder.new) }
    ensures full { result ≡ Err NetFault.TooManyNets
        → (2 ^ 20 < length builder.old.lines + 3 * N) ⊎ (2 ^ 16 < length builder.old.memories + N) }
{
    if bound < FEWEST_STORED {
        let places = make_places(builder, like, bound)?;
        Ok(Storage::InRegisters(places))
    } else {
        let stored = make_stored(builder, like, bound)?;
        Ok(Storage::InMemories(stored))
    }
}

/// The oldest item, where the count says that one is held; `like` has the widths of its nets.
pub(crate) fn oldest_item<const N: usize>(
    builder: &mut Builder,
    storage: &Storage<N>,
    bound: u8,
    count: Net,
    like: &[Net; N],
) -> Result<[Net; N], NetFault>
    requires few_nets { N < 2 ^ 32 }
    requires some { 1 ≤ bound }
    requires count { IsNet builder.old count }
    requires wide { bound < 2 ^ count.width }
    requires storage { IsStorage builder.old like.now bound storage.now }
    ensures nets { IfOk result (λ made. AreNets builder.new made) }
    ensures widths { IfOk result (λ made. group_widths made ≡ group_widths like.now) }
    ensures value { IfOk result (λ made. Always builder.new (λ cycle. 1 ≤ cycle.net count.number → (coming : List ℕ)
        → shown_oldest (held_of cycle bound (cycle.net count.number) storage.now) coming ≡ 1 ∷ values_of cycle made)) }
    ensures adds { AddsNets (2 * N + 4) builder.old builder.new }
    ensures full { result ≡ Err NetFault.TooManyNets → 2 ^ 20 < length builder.old.lines + (2 * N + 4) }
{
    match storage {
        Storage::InRegisters(places) => match places[..usize::from(bound)].split_first() {
            None => Ok(*like),
            Some((first, rest)) => choose_held(builder, count, first, rest),
        },
        Storage::InMemories(stored) => {
            read_item(builder, &stored.memories, stored.pointers.first, like)
        }
    }
}

/// Lets the items go on: one that comes is taken.
pub(crate) fn finish_storage<const N: usize>(
    builder: &mut Builder,
    storage: &Storage<N>,
    bound: u8,
    item: &[Net; N],
    comes: Net,
    goes: Net,
) -> Result<(), NetFault>
    requires few_nets { N < 2 ^ 32 }
    requires storage { IsStorage builder.old item.now bound storage.now }
    requires item { AreNets builder.old item.now }
    requires comes { IsBit builder.old comes }
    requires goes { IsBit builder.old goes }
    requires waits { (n : ℕ) → owns_in bound storage.now n → IsWaiting builder.old n }
    requires waits_for_write { (m : ℕ) → owns_memories_in storage.now m → WaitsForWrite builder.old m }
    ensures on { OnOk result (StorageGoesOn builder.new bound storage.now item.now comes goes) }
    ensures grows { GrowsInMemory (3 * N + 6) 0 builder.old builder.new }
    ensures waits { (n : ℕ) → ¬ owns_in bound storage.now n → IsWaiting builder.old n → IsWaiting builder.new n }
    ensures no_more_wait { OnOk result (WaitsWithout (owns_in bound storage.now) builder.old builder.new) }
    ensures still_wait_for_write { (m : ℕ) → ¬ owns_memories_in storage.now m → WaitsForWrite builder.old m
        → WaitsForWrite builder.new m }
    ensures no_more_write { OnOk result (WriteWaitsWithout (owns_memories_in storage.now) builder.old builder.new) }
    ensures full { result ≡ Err NetFault.TooManyNets → 2 ^ 20 < length builder.old.lines + (3 * N + 6) }
{
    match storage {
        Storage::InRegisters(places) => {
            shift_places(builder, &places[..usize::from(bound)], comes, item)
        }
        Storage::InMemories(stored) => finish_stored(builder, stored, bound, item, comes, goes),
    }
}
