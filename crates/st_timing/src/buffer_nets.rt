//! The nets of a buffer behind a ready latency.

ghost use Rattle.std.specs.Prelude.{◌≡◌, ◌≤◌};
ghost use Rattle.st_timing.specs.BufferNets.{IsReadyBufferShape, buffer_owns, buffer_owns_memories, BufferKeeps, BufferForward, BufferBackward, keeps_lasts, forward_lasts, backward_lasts};

use crate::buffer::{BufferKept, ReadyBuffer};
use crate::promises::{finish_promises, has_free, hold_promises};
use crate::transfer::transfers;
use item_queues::finish_queue;
use netlist::{Builder, Net, NetFault};
use stage_core::stored_queue::{StoredKept, StoredQueue};
use stage_core::{BeatNets, Stage};
use stream_machines::machines::buffer_is_a_stage;

impl Stage for ReadyBuffer {
    type Held = BufferKept;

    ghost has_shape = { λ s shape. IsReadyBufferShape s.latency shape };

    ghost passes_ready = { λ s shape. IsReadyBufferShape s.latency shape };

    ghost shows_ready = { λ s. ⊥ };

    ghost takes = { λ s widths. Unit {0} };

    ghost gives = { λ s widths. widths };

    ghost forward_nets = { λ s. 45 };

    ghost backward_nets = { λ s. 46 };

    ghost memories = { λ s. 6 };

    ghost owns = { λ kept n. buffer_owns kept n };

    ghost owns_memories = { λ kept m. buffer_owns_memories kept m };

    ghost is_kept = { λ s kept netlist. BufferKeeps kept s.latency netlist };

    ghost forward_in = { λ s from to kept netlist. BufferForward from to kept s.latency netlist };

    ghost backward_in = { λ s kept ready up netlist. BufferBackward kept ready up netlist };

    fn emit_forward(
        &self,
        builder: &mut Builder,
        from: BeatNets,
    ) -> Result<(BeatNets, BufferKept), NetFault> {
        let latency = self.latency;
        let queue = StoredQueue::new(latency + 1);
        let (to, stored) = queue.emit_forward(builder, from)?;
        let promises = hold_promises(builder, latency)?;
        Ok((
            to,
            BufferKept {
                latency,
                stored,
                promises,
            },
        ))
    }

    #[tactic(auto, using(net_parts::specs::Laws::growing))]
    fn emit_backward(
        &self,
        builder: &mut Builder,
        kept: BufferKept,
        ready: Net,
    ) -> Result<Net, NetFault> {
        let BufferKept {
            latency,
            stored,
            promises,
            ..
        } = kept;
        let StoredKept { queue, from, shown } = stored;
        let up = has_free(builder, &promises)?;
        let goes = transfers(builder, 0, shown, ready)?;
        finish_promises(builder, &promises, latency, up, from.valid, goes)?;
        finish_queue(builder, &queue, &from.place().item, from.valid, goes)?;
        Ok(up)
    }

    fn law(&self) {
        buffer_is_a_stage();
    }

    ghost kept_lasts = { λ s kept old new h e w v. keeps_lasts kept s.latency old new h e w v };

    ghost forward_lasts = { λ s from to kept old new h e. forward_lasts from to kept s.latency old new h e };

    ghost backward_lasts = { λ s kept ready up old new h e. backward_lasts kept ready up old new h e };
}
