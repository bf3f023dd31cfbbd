//! The queue of the places of the reads under way, oldest first.

ghost use Rattle.std.specs.Prelude.{◌≡◌, ◌+◌, ◌*◌, ◌^◌, ◌<◌, ◌≤◌, ◌&&◌, nat_lt, [], ◌∷◌, length, IfOk};
ghost use Rattle.histories.specs.History.{is_raised};
ghost use Rattle.netlist.specs.Netlists.{IsNet};
ghost use Rattle.netlist.specs.Runs.{Always};
ghost use Rattle.net_parts.specs.Nets.{IsBit, IsNetOfWidth};
ghost use Rattle.net_parts.specs.Growth.{AddsNets};
ghost use Rattle.item_queues.specs.Queues.{IsQueueMade};
ghost use Rattle.mm_select.specs.Queue.{TakesOldest};

use crate::places::take_place;
use command_nets::both;
use item_queues::{ItemQueue, read_oldest};
use netlist::{Builder, Net, NetFault};

/// The only net of an item.
fn only_net(item: &[Net; 1]) -> Net
    ensures { item.now ≡ result ∷ [] }
{
    let [net] = *item;
    net
}

/// Whether the oldest read goes: a word comes, and a read is under way.
#[tactic(auto, using(net_parts::specs::Laws::growing))]
pub(crate) fn goes_now(builder: &mut Builder, count: Net, valid: Net) -> Result<Net, NetFault>
    requires count { IsNet builder.old count }
    requires valid { IsBit builder.old valid }
    ensures net { IfOk result (λ goes. IsBit builder.new goes) }
    ensures value { IfOk result (λ goes. Always builder.new (λ cycle. is_raised (cycle.net goes.number)
        ≡ (is_raised (cycle.net valid.number) && nat_lt 0 (cycle.net count.number)))) }
    ensures adds { AddsNets 2 builder.old builder.new }
    ensures full { result ≡ Err NetFault.TooManyNets → 2 ^ 20 < length builder.old.lines + 2 }
{
    let some = builder.any(count)?;
    both(builder, valid, some)
}

/// The narrow word at the place of the oldest read, of a wide word. Places are as wide as `place`.
#[tactic(auto, using(net_parts::specs::Laws::growing))]
pub(crate) fn take_oldest(
    builder: &mut Builder,
    queue: &ItemQueue<1>,
    place: Net,
    wide: Net,
    width: u8,
) -> Result<Net, NetFault>
    requires queue { IsQueueMade builder.old (place ∷ []) queue.now }
    requires few_places { place.width ≤ 4 }
    requires wide { IsNetOfWidth builder.old wide (width * 2 ^ place.width) }
    requires few { width * 2 ^ place.width ≤ 128 }
    requires width { 1 ≤ width }
    requires place { IsNet builder.old place }
    ensures net { IfOk result (λ word. IsNetOfWidth builder.new word width) }
    ensures value { IfOk result (λ word. TakesOldest builder.new queue.now wide word width) }
    ensures adds { AddsNets 26 builder.old builder.new }
    ensures full { result ≡ Err NetFault.TooManyNets → 2 ^ 20 < length builder.old.lines + 26 }
{
    let places = builder.width(place);
    let oldest = read_oldest(builder, queue, &[place])?;
    let first = only_net(&oldest);
    take_place(builder, wide, width, first, places)
}
