//! The count of the unanswered reads, and the places of the oldest one and of the next one in the memory.

ghost use Rattle.std.specs.Prelude.{◌≡◌, ℕ, ◌+◌, ◌^◌, ◌<◌, ◌≤◌, length, IfOk, OnOk};
ghost use Rattle.netlist.specs.Netlists.{IsNet, IsWaiting};
ghost use Rattle.netlist.specs.Runs.{Always};
ghost use Rattle.net_parts.specs.Nets.{IsBit, IsNetOfWidth};
ghost use Rattle.net_parts.specs.Growth.{GrowsBy, AddsNets, StillWait, WaitsBeside, WaitsWithout, AreMadeBetween};
ghost use Rattle.read_queues.specs.Held.{owns_pointers, ArePointers};

use item_queues::count_bits;
use net_parts::register;
use netlist::{Builder, Net, NetFault};

/// The registers of a queue in a memory.
#[derive(Clone, Copy)]
pub struct Pointers {
    /// How many reads are unanswered.
    pub unanswered: Net,
    /// The place of the oldest one.
    pub first: Net,
    /// The place of the next one that is taken.
    pub next: Net,
}

/// The registers of a queue of no reads yet.
pub(crate) fn hold_pointers(
    builder: &mut Builder,
    bound: u8,
    address_bits: u8,
) -> Result<Pointers, NetFault>
    requires bound { bound ≤ 64 }
    requires some { 1 ≤ address_bits }
    requires few { address_bits ≤ 128 }
    ensures pointers { IfOk result (λ made. ArePointers builder.new bound address_bits made) }
    ensures owned { IfOk result (λ made. AreMadeBetween (owns_pointers made) builder.old builder.new) }
    ensures grows { GrowsBy 3 builder.old builder.new }
    ensures still_wait { StillWait builder.old builder.new }
    ensures own_wait { IfOk result (λ made. (n : ℕ) → owns_pointers made n → IsWaiting builder.new n) }
    ensures newly { IfOk result (λ made. WaitsBeside (owns_pointers made) builder.old builder.new) }
    ensures full { result ≡ Err NetFault.TooManyNets → 2 ^ 20 < length builder.old.lines + 3 }
{
    let unanswered = register(builder, count_bits(bound))?;
    let first = register(builder, address_bits)?;
    let next = register(builder, address_bits)?;
    Ok(Pointers {
        unanswered,
        first,
        next,
    })
}
