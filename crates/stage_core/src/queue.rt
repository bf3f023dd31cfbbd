//! A queue of beats: a short one in registers, a longer one in memories. A beat that meets the queue empty goes through in the
//! same cycle, and the queue shows ready exactly in the cycles that begin with an empty place. Its hold is so many beats as it
//! has places. Its law is that of `queue_is_a_stage`.

ghost use Rattle.std.specs.Prelude.{◌≡◌};
ghost use Rattle.stage_core.specs.RegisterNets.{IsBufferShape};
ghost use Rattle.stage_core.specs.FifoNets.{fifo_owns, fifo_owns_memories, FifoKeeps, FifoForward, FifoBackward, fifo_keeps_lasts, fifo_forward_lasts, fifo_backward_lasts};

use crate::beat::BeatNets;
use crate::stage::Stage;
use crate::stored_queue::{StoredKept, StoredQueue};
use netlist::{Builder, Net, NetFault};
use stream_machines::machines::queue_is_a_stage;

/// A stage that holds so many beats, between ends of ready latency 0. Without places it is a wire.
#[derive(Clone, Copy)]
pub struct Fifo {
    pub depth: u8,
}

impl Fifo {
    /// A queue of so many places.
    pub fn new(depth: u8) -> Fifo
        ensures { result.depth ≡ depth }
    {
        Fifo { depth }
    }
}

/// What is kept of a queue.
#[derive(Clone, Copy)]
pub enum FifoKept {
    /// It has no place.
    Wire,
    Stored(StoredKept),
}

impl Stage for Fifo {
    type Held = FifoKept;

    ghost has_shape = { λ s shape. IsBufferShape s.depth shape };

    ghost passes_ready = { λ s shape. IsBufferShape s.depth shape };

    ghost shows_ready = { λ s. ⊥ };

    ghost takes = { λ s widths. Unit {0} };

    ghost gives = { λ s widths. widths };

    ghost forward_nets = { λ s. 43 };

    ghost backward_nets = { λ s. 34 };

    ghost memories = { λ s. 6 };

    ghost owns = { λ kept n. fifo_owns kept n };

    ghost owns_memories = { λ kept m. fifo_owns_memories kept m };

    ghost is_kept = { λ s kept netlist. FifoKeeps kept s.depth netlist };

    ghost forward_in = { λ s from to kept netlist. FifoForward from to kept s.depth netlist };

    ghost backward_in = { λ s kept ready up netlist. FifoBackward netlist kept ready up };

    fn emit_forward(
        &self,
        builder: &mut Builder,
        from: BeatNets,
    ) -> Result<(BeatNets, FifoKept), NetFault> {
        if self.depth == 0 {
            return Ok((from, FifoKept::Wire));
        }
        let (to, kept) = StoredQueue::new(self.depth).emit_forward(builder, from)?;
        Ok((to, FifoKept::Stored(kept)))
    }

    fn emit_backward(
        &self,
        builder: &mut Builder,
        kept: FifoKept,
        ready: Net,
    ) -> Result<Net, NetFault> {
        match kept {
            FifoKept::Wire => Ok(ready),
            FifoKept::Stored(kept) => {
                StoredQueue::new(self.depth).emit_backward(builder, kept, ready)
            }
        }
    }

    fn law(&self) {
        queue_is_a_stage();
    }

    ghost kept_lasts = { λ s kept old new h e w v. fifo_keeps_lasts kept s.depth old new h e w v };

    ghost forward_lasts = { λ s from to kept old new h e. fifo_forward_lasts from to kept s.depth old new h e };

    ghost backward_lasts = { λ s kept ready up old new h e. fifo_backward_lasts old new kept ready up h e };
}
