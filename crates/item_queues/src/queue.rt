//! A queue of items: its nets, what it shows, and what it does from cycle to cycle.

ghost use Rattle.std.specs.Prelude.{◌≡◌, ℕ, ◌+◌, ◌*◌, ◌^◌, ◌<◌, ◌≤◌, ◌⊎◌, ◌==◌, ◌&&◌, ◌∷◌, List, nat_lt, length, IfOk, OnOk};
ghost use Rattle.netlist.specs.Netlists.{IsNet, IsWaiting, WaitsForWrite};
ghost use Rattle.netlist.specs.Runs.{Always};
ghost use Rattle.net_parts.specs.Nets.{IsBit, StartsLow};
ghost use Rattle.net_parts.specs.Growth.{AddsNets, GrowsInMemory, StillWait, WaitsBeside, WaitsWithout, AreMadeBetween, StillWaitForWrite, WriteWaitsBeside, WriteWaitsWithout};
ghost use Rattle.net_parts.specs.Groups.{AreNets, group_widths, values_of};
ghost use Rattle.net_parts.specs.PlaceRows.{nets_of, ArePlaceNets, HaveSameWidths};
ghost use Rattle.item_queues.specs.Storages.{owns_in, shown_oldest};
ghost use Rattle.item_queues.specs.Queues.{owns, owns_memories, IsQueueMade, StartsEmpty, StepsQueue, held_in};

use crate::count::{hold_count, move_count};
use crate::storage::{Storage, finish_storage, make_storage, oldest_item};
use net_parts::{PlaceNets, choose_all, constant};
use netlist::{Builder, Net, NetFault};

/// A queue of items: a count, and the registers or the memories in which they stand.
#[derive(Clone, Copy)]
pub struct ItemQueue<const N: usize> {
    /// The most items.
    pub bound: u8,
    /// How many items are held.
    pub count: Net,
    pub storage: Storage<N>,
}

/// Makes the registers or the memories of an empty queue of at most `bound` items like this one, whose count stands.
pub fn hold_items<const N: usize>(
    builder: &mut Builder,
    like: &[Net; N],
    bound: u8,
    count: Net,
) -> Result<ItemQueue<N>, NetFault>
    requires some { 1 ≤ bound }
    requires some_net { 1 ≤ N }
    requires few_nets { N < 2 ^ 32 }
    requires like { AreNets builder.old like.now }
    requires count { IsNet builder.old count }
    requires wide { bound < 2 ^ count.width }
    requires least { (bits : ℕ) → 1 ≤ bits → bound < 2 ^ bits → count.width ≤ bits }
    requires low { StartsLow builder.old count }
    ensures made { IfOk result (λ queue. IsQueueMade builder.new like.now queue) }
    ensures bound { IfOk result (λ queue. queue.bound ≡ bound) }
    ensures count { IfOk result (λ queue. queue.count ≡ count) }
    ensures starts { IfOk result (λ queue. StartsEmpty builder.new queue) }
    ensures owned { IfOk result (λ queue. AreMadeBetween (owns_in queue.bound queue.storage) builder.old builder.new) }
    ensures owned_memories { IfOk result (λ queue. (m : ℕ) → owns_memories queue m
        → (length builder.old.memories ≤ m) × (m < length builder.new.memories)) }
    ensures grows { GrowsInMemory (3 * N) N builder.old builder.new }
    ensures still_wait { StillWait builder.old builder.new }
    ensures own_wait { IfOk result (λ queue. (n : ℕ) → owns_in queue.bound queue.storage n → IsWaiting builder.new n) }
    ensures newly { IfOk result (λ queue. WaitsBeside (owns_in queue.bound queue.storage) builder.old builder.new) }
    ensures still_wait_for_write { StillWaitForWrite builder.old builder.new }
    ensures own_wait_for_write { IfOk result (λ queue. (m : ℕ) → owns_memories queue m → WaitsForWrite builder.new m) }
    ensures newly_written { IfOk result (λ queue. WriteWaitsBeside (owns_memories queue) builder.old builder.new) }
    ensures full { result ≡ Err NetFault.TooManyNets
        → (2 ^ 20 < length builder.old.lines + 3 * N) ⊎ (2 ^ 16 < length builder.old.memories + N) }
{
    let storage = make_storage(builder, like, bound)?;
    Ok(ItemQueue {
        bound,
        count,
        storage,
    })
}

/// Makes the nets of an empty queue of at most `bound` items like this one.
pub fn make_queue<const N: usize>(
    builder: &mut Builder,
    like: &[Net; N],
    bound: u8,
) -> Result<ItemQueue<N>, NetFault>
    requires some { 1 ≤ bound }
    requires some_net { 1 ≤ N }
    requires few_nets { N < 2 ^ 32 }
    requires like { AreNets builder.old like.now }
    ensures made { IfOk result (λ queue. IsQueueMade builder.new like.now queue) }
    ensures bound { IfOk result (λ queue. queue.bound ≡ bound) }
    ensures starts { IfOk result (λ queue. StartsEmpty builder.new queue) }
    ensures owned { IfOk result (λ queue. AreMadeBetween (owns queue) builder.old builder.new) }
    ensures owned_memories { IfOk result (λ queue. (m : ℕ) → owns_memories queue m
        → (length builder.old.memories ≤ m) × (m < length builder.new.memories)) }
    ensures grows { GrowsInMemory (3 * N + 1) N builder.old builder.new }
    ensures still_wait { StillWait builder.old builder.new }
    ensures own_wait { IfOk result (λ queue. (n : ℕ) → owns queue n → IsWaiting builder.new n) }
    ensures newly { IfOk result (λ queue. WaitsBeside (owns queue) builder.old builder.new) }
    ensures still_wait_for_write { StillWaitForWrite builder.old builder.new }
    ensures own_wait_for_write { IfOk result (λ queue. (m : ℕ) → owns_memories queue m → WaitsForWrite builder.new m) }
    ensures newly_written { IfOk result (λ queue. WriteWaitsBeside (owns_memories queue) builder.old builder.new) }
    ensures full { result ≡ Err NetFault.TooManyNets
        → (2 ^ 20 < length builder.old.lines + (3 * N + 1)) ⊎ (2 ^ 16 < length builder.old.memories + N) }
{
    let count = hold_count(builder, bound)?;
    hold_items(builder, like, bound, count)
}

/// The oldest item where one is held, and else the one that comes.
#[tactic(auto, using(net_parts::specs::Laws::growing))]
pub fn show_oldest<const N: usize>(
    builder: &mut Builder,
    queue: &ItemQueue<N>,
    coming: &PlaceNets<N>,
) -> Result<PlaceNets<N>, NetFault>
    requires few_nets { N < 2 ^ 32 }
    requires queue { IsQueueMade builder.old coming.now.item queue.now }
    requires coming { ArePlaceNets builder.old coming.now }
    ensures place { IfOk result (λ made. ArePlaceNets builder.new made) }
    ensures widths { IfOk result (λ made. HaveSameWidths made coming.now) }
    ensures value { IfOk result (λ made. Always builder.new (λ cycle. values_of cycle (nets_of made)
        ≡ shown_oldest (held_in cycle queue.now) (values_of cycle (nets_of coming.now)))) }
    ensures adds { AddsNets (3 * N + 6) builder.old builder.new }
    ensures full { result ≡ Err NetFault.TooManyNets → 2 ^ 20 < length builder.old.lines + (3 * N + 6) }
{
    let some = builder.any(queue.count)?;
    let oldest = oldest_item(
        builder,
        &queue.storage,
        queue.bound,
        queue.count,
        &coming.item,
    )?;
    let item = choose_all(builder, some, &oldest, &coming.item)?;
    let full = builder.or(some, coming.full)?;
    Ok(PlaceNets { full, item })
}

/// The oldest item, where one is held; `like` has the widths of its nets.
pub fn read_oldest<const N: usize>(
    builder: &mut Builder,
    queue: &ItemQueue<N>,
    like: &[Net; N],
) -> Result<[Net; N], NetFault>
    requires few_nets { N < 2 ^ 32 }
    requires queue { IsQueueMade builder.old like.now queue.now }
    ensures nets { IfOk result (λ made. AreNets builder.new made) }
    ensures widths { IfOk result (λ made. group_widths made ≡ group_widths like.now) }
    ensures value { IfOk result (λ made. Always builder.new (λ cycle. 1 ≤ cycle.net queue.now.count.number → (coming : List ℕ)
        → shown_oldest (held_in cycle queue.now) coming ≡ 1 ∷ values_of cycle made)) }
    ensures adds { AddsNets (2 * N + 4) builder.old builder.new }
    ensures full { result ≡ Err NetFault.TooManyNets → 2 ^ 20 < length builder.old.lines + (2 * N + 4) }
{
    oldest_item(builder, &queue.storage, queue.bound, queue.count, like)
}

/// Whether there is room for an item, by registers alone.
#[tactic(auto, using(net_parts::specs::Laws::growing))]
pub fn has_room<const N: usize>(
    builder: &mut Builder,
    queue: &ItemQueue<N>,
) -> Result<Net, NetFault>
    requires count { IsNet builder.old queue.now.count }
    requires wide { queue.now.bound < 2 ^ queue.now.count.width }
    ensures net { IfOk result (λ room. IsBit builder.new room) }
    ensures value { IfOk result (λ room. Always builder.new (λ cycle. (cycle.net room.number == 1)
        ≡ nat_lt (cycle.net queue.now.count.number) queue.now.bound)) }
    ensures adds { AddsNets 2 builder.old builder.new }
    ensures full { result ≡ Err NetFault.TooManyNets → 2 ^ 20 < length builder.old.lines + 2 }
{
    let count = queue.count;
    let width = builder.width(count);
    let limit = constant(builder, width, queue.bound)?;
    builder.less(count, limit)
}

/// Lets the queue go on: an item that comes becomes the newest one, and the oldest one goes.
pub fn finish_queue<const N: usize>(
    builder: &mut Builder,
    queue: &ItemQueue<N>,
    item: &[Net; N],
    comes: Net,
    goes: Net,
) -> Result<(), NetFault>
    requires few_nets { N < 2 ^ 32 }
    requires queue { IsQueueMade builder.old item.now queue.now }
    requires item { AreNets builder.old item.now }
    requires comes { IsBit builder.old comes }
    requires goes { IsBit builder.old goes }
    requires waits { (n : ℕ) → owns queue.now n → IsWaiting builder.old n }
    requires waits_for_write { (m : ℕ) → owns_memories queue.now m → WaitsForWrite builder.old m }
    ensures steps { OnOk result (StepsQueue builder.new queue.now item.now comes goes) }
    ensures grows { GrowsInMemory (3 * N + 12) 0 builder.old builder.new }
    ensures waits { (n : ℕ) → ¬ owns queue.now n → IsWaiting builder.old n → IsWaiting builder.new n }
    ensures no_more_wait { OnOk result (WaitsWithout (owns queue.now) builder.old builder.new) }
    ensures still_wait_for_write { (m : ℕ) → ¬ owns_memories queue.now m → WaitsForWrite builder.old m
        → WaitsForWrite builder.new m }
    ensures no_more_write { OnOk result (WriteWaitsWithout (owns_memories queue.now) builder.old builder.new) }
    ensures full { result ≡ Err NetFault.TooManyNets → 2 ^ 20 < length builder.old.lines + (3 * N + 12) }
{
    move_count(builder, queue.count, comes, goes)?;
    finish_storage(builder, &queue.storage, queue.bound, item, comes, goes)
}
