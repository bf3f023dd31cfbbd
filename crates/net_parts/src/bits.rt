//! Bits of a row of places: whether there is room, whether an item comes, and whether one goes.

ghost use Rattle.std.specs.Prelude.{◌≡◌, ◌+◌, ◌^◌, ◌<◌, not, ◌&&◌, ◌||◌, ◌==◌, length, IfOk};
ghost use Rattle.netlist.specs.Runs.{Always};
ghost use Rattle.net_parts.specs.Nets.{IsBit};
ghost use Rattle.net_parts.specs.Growth.{AddsNets};
ghost use Rattle.net_parts.specs.Places.{AreQueueBits};

use netlist::{Builder, Net, NetFault};

/// The bits that say what a queue takes in a cycle.
#[derive(Clone, Copy)]
pub struct QueueBits {
    /// There is an empty place.
    pub room: Net,
    /// An item comes in.
    pub comes: Net,
}

/// The bits of a queue from the bit that its last place is full, and the bit that an item is shown.
#[tactic(auto, using(crate::specs::Laws::growing))]
pub fn queue_bits(builder: &mut Builder, last: Net, shown: Net) -> Result<QueueBits, NetFault>
    requires last { IsBit builder.old last }
    requires shown { IsBit builder.old shown }
    ensures room { IfOk result (λ bits. IsBit builder.new bits.room) }
    ensures comes { IfOk result (λ bits. IsBit builder.new bits.comes) }
    ensures value { IfOk result (λ bits. Always builder.new (λ cycle. AreQueueBits (cycle.net last.number == 1)
        (cycle.net shown.number == 1) (cycle.net bits.room.number == 1) (cycle.net bits.comes.number == 1))) }
    ensures adds { AddsNets 2 builder.old builder.new }
    ensures full { result ≡ Err NetFault.TooManyNets → 2 ^ 20 < length builder.old.lines + 2 }
{
    let room = builder.not(last)?;
    let comes = builder.and(shown, room)?;
    Ok(QueueBits { room, comes })
}

/// An item goes where one is held in the first place or shown upstream, and ready is high.
#[tactic(auto, using(crate::specs::Laws::growing))]
pub fn gives_item(
    builder: &mut Builder,
    first: Net,
    shown: Net,
    ready: Net,
) -> Result<Net, NetFault>
    requires first { IsBit builder.old first }
    requires shown { IsBit builder.old shown }
    requires ready { IsBit builder.old ready }
    ensures net { IfOk result (λ gives. IsBit builder.new gives) }
    ensures value { IfOk result (λ gives. Always builder.new (λ cycle. (cycle.net gives.number == 1)
        ≡ (((cycle.net first.number == 1) || (cycle.net shown.number == 1)) && (cycle.net ready.number == 1)))) }
    ensures adds { AddsNets 2 builder.old builder.new }
    ensures full { result ≡ Err NetFault.TooManyNets → 2 ^ 20 < length builder.old.lines + 2 }
{
    let some = builder.or(first, shown)?;
    builder.and(some, ready)
}

/// Whether there is room for an item: none is held, or the one that is held goes.
#[tactic(auto, using(crate::specs::Laws::growing))]
pub fn has_room(builder: &mut Builder, held: Net, goes: Net) -> Result<Net, NetFault>
    requires held { IsBit builder.old held }
    requires goes { IsBit builder.old goes }
    ensures net { IfOk result (λ room. IsBit builder.new room) }
    ensures value { IfOk result (λ room. Always builder.new (λ cycle. (cycle.net room.number == 1)
        ≡ (not (cycle.net held.number == 1) || (cycle.net goes.number == 1)))) }
    ensures adds { AddsNets 2 builder.old builder.new }
    ensures full { result ≡ Err NetFault.TooManyNets → 2 ^ 20 < length builder.old.lines + 2 }
{
    let empty = builder.not(held)?;
    builder.or(empty, goes)
}
