//! What holds of the registers of the buffers. The functions do nothing of their own; their contracts are the laws.

ghost use Rattle.std.specs.Prelude.{ℕ, ◌≤◌};
ghost use Rattle.netlist.specs.Netlists.{Netlist};
ghost use Rattle.netlist.specs.Longer.{Extends};
ghost use Rattle.item_queues.specs.RegisterBits.{HaveFewBits};
ghost use Rattle.st_timing.specs.declared.allowance.AllowanceKept.{AllowanceKept};
ghost use Rattle.st_timing.specs.declared.buffer.BufferKept.{BufferKept};

use crate::allowance::AllowanceBuffer;
use crate::buffer::ReadyBuffer;
use item_queues::stored_queue_keeps_few_bits;
use stage_core::Stage;

/// A buffer of four places and more keeps at most 36 bits in registers, whatever its latency and however wide its beats are: 24
/// in its queue, 4 for the free places and 8 of ready. So it is in the netlist between its two calls, and in each longer one.
pub fn buffer_keeps_few_bits(buffer: ReadyBuffer)
    ensures { let stage = ⟦<ReadyBuffer as Stage>⟧ in
        (kept : BufferKept) (old new : Netlist) → 3 ≤ buffer.latency → stage.is_kept buffer kept old → Extends old new
        → HaveFewBits 36 (stage.owns kept) new }
{
    stored_queue_keeps_few_bits();
}

/// A buffer behind a ready allowance keeps at most 24 bits in registers, whatever its allowance and however wide its beats are.
/// So it is in the netlist between its two calls, and in each longer one.
pub fn allowance_buffer_keeps_few_bits(buffer: AllowanceBuffer)
    ensures { let stage = ⟦<AllowanceBuffer as Stage>⟧ in
        (kept : AllowanceKept) (old new : Netlist) → stage.is_kept buffer kept old → Extends old new
        → HaveFewBits 24 (stage.owns kept) new }
{
    stored_queue_keeps_few_bits();
}
