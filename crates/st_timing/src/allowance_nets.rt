//! The nets of a buffer behind a ready allowance.

ghost use Rattle.std.specs.Prelude.{◌≡◌, ◌+◌, ◌^◌, ◌<◌, ◌==◌, nat_lt, length, IfOk};
ghost use Rattle.netlist.specs.Netlists.{IsNet};
ghost use Rattle.netlist.specs.Runs.{Always};
ghost use Rattle.net_parts.specs.Nets.{IsBit};
ghost use Rattle.net_parts.specs.Growth.{AddsNets};
ghost use Rattle.item_queues.specs.Queues.{owns, owns_memories};
ghost use Rattle.st_timing.specs.AllowanceNets.{IsAllowanceShape, AllowanceKeeps, AllowanceForward, AllowanceBackward, keeps_lasts, forward_lasts, backward_lasts};

use crate::allowance::{AllowanceBuffer, AllowanceKept};
use crate::transfer::transfers;
use item_queues::finish_queue;
use net_parts::constant;
use netlist::{Builder, Net, NetFault};
use stage_core::stored_queue::{StoredKept, StoredQueue};
use stage_core::{BeatNets, Stage};
use stream_machines::machines::buffer_is_a_stage;

/// Whether a count is 1 at most.
#[tactic(auto, using(net_parts::specs::Laws::growing))]
fn is_below_two(builder: &mut Builder, count: Net) -> Result<Net, NetFault>
    requires count { IsNet builder.old count }
    requires wide { 2 < 2 ^ count.width }
    ensures net { IfOk result (λ below. IsBit builder.new below) }
    ensures value { IfOk result (λ below. Always builder.new (λ cycle. (cycle.net below.number == 1)
        ≡ nat_lt (cycle.net count.number) 2)) }
    ensures adds { AddsNets 2 builder.old builder.new }
    ensures full { result ≡ Err NetFault.TooManyNets → 2 ^ 20 < length builder.old.lines + 2 }
{
    let width = builder.width(count);
    let limit = constant(builder, width, 2)?;
    builder.less(count, limit)
}

impl Stage for AllowanceBuffer {
    type Held = AllowanceKept;

    ghost has_shape = { λ s shape. IsAllowanceShape s.latency s.allowance shape };

    ghost passes_ready = { λ s shape. IsAllowanceShape s.latency s.allowance shape };

    ghost shows_ready = { λ s. ⊥ };

    ghost takes = { λ s widths. Unit {0} };

    ghost gives = { λ s widths. widths };

    ghost forward_nets = { λ s. 43 };

    ghost backward_nets = { λ s. 33 };

    ghost memories = { λ s. 6 };

    ghost owns = { λ kept n. owns kept.stored.queue n };

    ghost owns_memories = { λ kept m. owns_memories kept.stored.queue m };

    ghost is_kept = { λ s kept netlist. AllowanceKeeps kept s.allowance netlist };

    ghost forward_in = { λ s from to kept netlist. AllowanceForward from to kept s.allowance netlist };

    ghost backward_in = { λ s kept ready up netlist. AllowanceBackward kept ready up netlist };

    fn emit_forward(
        &self,
        builder: &mut Builder,
        from: BeatNets,
    ) -> Result<(BeatNets, AllowanceKept), NetFault> {
        let queue = StoredQueue::new(self.allowance + 2);
        let (to, stored) = queue.emit_forward(builder, from)?;
        let buffer = *self;
        Ok((to, AllowanceKept { buffer, stored }))
    }

    #[tactic(auto, using(net_parts::specs::Laws::growing))]
    fn emit_backward(
        &self,
        builder: &mut Builder,
        kept: AllowanceKept,
        ready: Net,
    ) -> Result<Net, NetFault> {
        let StoredKept { queue, from, shown } = kept.stored;
        let up = is_below_two(builder, queue.count)?;
        let goes = transfers(builder, 0, shown, ready)?;
        finish_queue(builder, &queue, &from.place().item, from.valid, goes)?;
        Ok(up)
    }

    fn law(&self) {
        buffer_is_a_stage();
    }

    ghost kept_lasts = { λ s kept old new h e w v. keeps_lasts kept s.allowance old new h e w v };

    ghost forward_lasts = { λ s from to kept old new h e. forward_lasts from to kept s.allowance old new h e };

    ghost backward_lasts = { λ s kept ready up old new h e. backward_lasts kept ready up old new h e };
}
