//! The places of the oldest item and of the next one in memories.

ghost use Rattle.std.specs.Prelude.{◌≡◌, ℕ, ◌+◌, ◌^◌, ◌<◌, ◌≤◌, length, IfOk, OnOk};
ghost use Rattle.netlist.specs.Netlists.{IsNet, IsWaiting};
ghost use Rattle.net_parts.specs.Nets.{IsBit};
ghost use Rattle.net_parts.specs.Growth.{GrowsBy, StillWait, WaitsBeside, WaitsWithout, AreMadeBetween};
ghost use Rattle.item_queues.specs.Steps.{MovesBy};
ghost use Rattle.item_queues.specs.Registers.{owns_pointers, ArePointers, PointersGoOn};

use net_parts::{fit_bits, register, take_next};
use netlist::{Builder, Net, NetFault};

/// Two places of memories, in registers.
#[derive(Clone, Copy)]
pub struct Pointers {
    /// The place of the oldest item.
    pub first: Net,
    /// The place of the next one that comes.
    pub next: Net,
}

/// The places of a queue of no items yet.
pub(crate) fn hold_pointers(builder: &mut Builder, address_bits: u8) -> Result<Pointers, NetFault>
    requires some { 1 ≤ address_bits }
    requires few { address_bits ≤ 128 }
    ensures pointers { IfOk result (λ made. ArePointers builder.new made) }
    ensures width { IfOk result (λ made. made.first.width ≡ address_bits) }
    ensures owned { IfOk result (λ made. AreMadeBetween (owns_pointers made) builder.old builder.new) }
    ensures grows { GrowsBy 2 builder.old builder.new }
    ensures still_wait { StillWait builder.old builder.new }
    ensures own_wait { IfOk result (λ made. (n : ℕ) → owns_pointers made n → IsWaiting builder.new n) }
    ensures newly { IfOk result (λ made. WaitsBeside (owns_pointers made) builder.old builder.new) }
    ensures full { result ≡ Err NetFault.TooManyNets → 2 ^ 20 < length builder.old.lines + 2 }
{
    let first = register(builder, address_bits)?;
    let next = register(builder, address_bits)?;
    Ok(Pointers { first, next })
}

/// Lets a pointer go on by a place where the bit is high, and from the last place to the first.
#[tactic(auto, using(net_parts::specs::Laws::growing))]
pub fn move_pointer(builder: &mut Builder, pointer: Net, moves: Net) -> Result<(), NetFault>
    requires pointer { IsNet builder.old pointer }
    requires moves { IsBit builder.old moves }
    requires waits { IsWaiting builder.old pointer.number }
    ensures value { OnOk result (MovesBy builder.new pointer moves) }
    ensures grows { GrowsBy 3 builder.old builder.new }
    ensures waits { (n : ℕ) → ¬ (n ≡ pointer.number) → IsWaiting builder.old n → IsWaiting builder.new n }
    ensures no_more_wait { OnOk result (WaitsWithout (λ n. n ≡ pointer.number) builder.old builder.new) }
    ensures full { result ≡ Err NetFault.TooManyNets → 2 ^ 20 < length builder.old.lines + 3 }
{
    let bits = builder.width(pointer);
    let step = fit_bits(builder, moves, 1, bits)?;
    let next = builder.add(pointer, step)?;
    take_next(builder, pointer, next);
    Ok(())
}

/// Gives the registers their next nets.
#[tactic(auto, using(net_parts::specs::Laws::growing))]
pub(crate) fn finish_pointers(
    builder: &mut Builder,
    pointers: Pointers,
    comes: Net,
    goes: Net,
) -> Result<(), NetFault>
    requires pointers { ArePointers builder.old pointers }
    requires comes { IsBit builder.old comes }
    requires goes { IsBit builder.old goes }
    requires waits { (n : ℕ) → owns_pointers pointers n → IsWaiting builder.old n }
    ensures on { OnOk result (PointersGoOn builder.new pointers comes goes) }
    ensures grows { GrowsBy 6 builder.old builder.new }
    ensures waits { (n : ℕ) → ¬ owns_pointers pointers n → IsWaiting builder.old n → IsWaiting builder.new n }
    ensures no_more_wait { OnOk result (WaitsWithout (owns_pointers pointers) builder.old builder.new) }
    ensures full { result ≡ Err NetFault.TooManyNets → 2 ^ 20 < length builder.old.lines + 6 }
{
    move_pointer(builder, pointers.first, goes)?;
    move_pointer(builder, pointers.next, comes)
}
