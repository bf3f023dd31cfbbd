//! What holds of the registers of a queue of beats. The function does nothing of its own; its contract is the law.

ghost use Rattle.std.specs.Prelude.{ℕ, ◌≤◌};
ghost use Rattle.netlist.specs.Netlists.{Netlist};
ghost use Rattle.netlist.specs.Longer.{Extends};
ghost use Rattle.item_queues.specs.RegisterBits.{HaveFewBits};
ghost use Rattle.stage_core.specs.declared.queue.FifoKept.{FifoKept};

use crate::queue::Fifo;
use crate::stage::Stage;
use item_queues::stored_queue_keeps_few_bits;

/// A queue of four places and more keeps at most 24 bits in registers, whatever its depth and however wide its beats are: in the
/// netlist between its two calls, and in each longer one.
pub fn fifo_keeps_few_bits(queue: Fifo)
    ensures { let stage = ⟦<Fifo as Stage>⟧ in
        (kept : FifoKept) (old new : Netlist) → 4 ≤ queue.depth → stage.is_kept queue kept old → Extends old new
        → HaveFewBits 24 (stage.owns kept) new }
{
    stored_queue_keeps_few_bits();
}
