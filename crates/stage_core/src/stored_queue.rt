//! A queue of beats, in shifting registers or in memories: the oldest beat is shown, and the newest one taken in in one cycle.
//! From four places on its registers are as few as its depth needs, whatever a beat's width.

ghost use Rattle.std.specs.Prelude.{◌≡◌, ◌+◌, ◌^◌, ◌<◌, ◌≤◌, ◌&&◌, ◌==◌, length, IfOk};
ghost use Rattle.netlist.specs.Runs.{Always};
ghost use Rattle.net_parts.specs.Nets.{IsBit};
ghost use Rattle.net_parts.specs.Growth.{AddsNets};
ghost use Rattle.item_queues.specs.Queues.{owns, owns_memories};
ghost use Rattle.stage_core.specs.RegisterNets.{IsBufferShape};
ghost use Rattle.stage_core.specs.StoredNets.{StoredKeeps, StoredForward, StoredBackward, stored_keeps_lasts, stored_forward_lasts, stored_backward_lasts};

use crate::beat::BeatNets;
use crate::stage::Stage;
use item_queues::{ItemQueue, finish_queue, has_room, make_queue, show_oldest};
use netlist::{Builder, Net, NetFault};
use stream_machines::machines::queue_is_a_stage;

/// A queue of so many places.
#[derive(Clone, Copy)]
pub struct StoredQueue {
    pub depth: u8,
    pub ghost some: { 1 ≤ depth },
}

impl StoredQueue {
    /// A queue of so many places, one at least.
    pub fn new(depth: u8) -> StoredQueue
        requires { 1 ≤ depth }
        ensures { result.depth ≡ depth }
    {
        StoredQueue { depth }
    }
}

/// The queue, the nets of the beat that it takes, and the `valid` that it shows.
#[derive(Clone, Copy)]
pub struct StoredKept {
    pub queue: ItemQueue<6>,
    pub from: BeatNets,
    pub shown: Net,
}

/// Whether both bits are high.
#[tactic(auto, using(net_parts::specs::Laws::growing))]
fn both(builder: &mut Builder, one: Net, other: Net) -> Result<Net, NetFault>
    requires one { IsBit builder.old one }
    requires other { IsBit builder.old other }
    ensures net { IfOk result (λ made. IsBit builder.new made) }
    ensures value { IfOk result (λ made. Always builder.new (λ cycle. (cycle.net made.number == 1)
        ≡ ((cycle.net one.number == 1) && (cycle.net other.number == 1)))) }
    ensures adds { AddsNets 1 builder.old builder.new }
    ensures full { result ≡ Err NetFault.TooManyNets → 2 ^ 20 < length builder.old.lines + 1 }
{
    builder.and(one, other)
}

impl Stage for StoredQueue {
    type Held = StoredKept;

    ghost has_shape = { λ s shape. IsBufferShape s.depth shape };

    ghost passes_ready = { λ s shape. IsBufferShape s.depth shape };

    ghost shows_ready = { λ s. ⊥ };

    ghost takes = { λ s widths. Unit {0} };

    ghost gives = { λ s widths. widths };

    ghost forward_nets = { λ s. 43 };

    ghost backward_nets = { λ s. 34 };

    ghost memories = { λ s. 6 };

    ghost owns = { λ kept n. owns kept.queue n };

    ghost owns_memories = { λ kept m. owns_memories kept.queue m };

    ghost is_kept = { λ s kept netlist. StoredKeeps kept s.depth netlist };

    ghost forward_in = { λ s from to kept netlist. StoredForward from to kept s.depth netlist };

    ghost backward_in = { λ s kept ready up netlist. StoredBackward kept ready up netlist };

    fn emit_forward(
        &self,
        builder: &mut Builder,
        from: BeatNets,
    ) -> Result<(BeatNets, StoredKept), NetFault> {
        let coming = from.place();
        let queue = make_queue(builder, &coming.item, self.depth)?;
        let to = show_oldest(builder, &queue, &coming)?;
        let shown = to.full;
        Ok((BeatNets::of_place(to), StoredKept { queue, from, shown }))
    }

    #[tactic(auto, using(net_parts::specs::Laws::growing))]
    fn emit_backward(
        &self,
        builder: &mut Builder,
        kept: StoredKept,
        ready: Net,
    ) -> Result<Net, NetFault> {
        let StoredKept { queue, from, shown } = kept;
        let room = has_room(builder, &queue)?;
        let comes = both(builder, from.valid, room)?;
        let goes = both(builder, shown, ready)?;
        finish_queue(builder, &queue, &from.place().item, comes, goes)?;
        Ok(room)
    }

    fn law(&self) {
        queue_is_a_stage();
    }

    ghost kept_lasts = { λ s kept old new h e w v. stored_keeps_lasts kept s.depth old new h e w v };

    ghost forward_lasts = { λ s from to kept old new h e. stored_forward_lasts from to kept s.depth old new h e };

    ghost backward_lasts = { λ s kept ready up old new h e. stored_backward_lasts kept ready up old new h e };
}
