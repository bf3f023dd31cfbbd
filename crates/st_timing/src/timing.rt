//! The front part of what lies between a source and a sink: it leads from the source's ready latency to 0. Ready is tied where
//! the sink is always ready, a buffer stands behind a latency above 0, a longer one where the allowance is above that, and else
//! there is nothing.

ghost use Rattle.std.specs.Prelude.{◌≡◌, ◌<◌, ◌≤◌, ℕ, Bool};
ghost use Rattle.stream_runs.specs.View.{Side};
ghost use Rattle.stream_runs.specs.Ends.{pace_of};
ghost use Rattle.stream_machines.specs.Stage.{PassesAll};
ghost use Rattle.st_timing.specs.Ends.{declared, IsPaced};
ghost use Rattle.st_timing.specs.TimingNets.{IsTimingOf, timing_shape, LeadsToZero, timing_forward_nets, timing_backward_nets, timing_memories, timing_owns, timing_owns_memories, TimingKeeps, TimingForward, TimingBackward, timing_keeps_lasts, timing_forward_lasts, timing_backward_lasts};

use crate::allowance::{AllowanceBuffer, AllowanceKept};
use crate::buffer::{BufferKept, ReadyBuffer};
use crate::tie::TieReady;
use iface_roles::{SinkPort, SourcePort};
use netlist::{Builder, Net, NetFault};
use stage_core::pass::{Nothing, Pass};
use stage_core::{BeatNets, Stage};
use stream_machines::machines::{buffer_is_a_stage, tie_is_a_stage};
use stream_machines::stages::pass_is_a_stage;

/// A stage from a source's ready latency to 0.
#[derive(Clone, Copy)]
pub enum Timing {
    Tie(TieReady),
    Buffer(ReadyBuffer),
    Allowance(AllowanceBuffer),
    Wire(Pass),
}

/// What is kept of a timing.
#[derive(Clone, Copy)]
pub enum TimingKept {
    /// Ready is tied.
    Tied,
    Buffered(BufferKept),
    Allowed(AllowanceKept),
    /// The beat goes straight through.
    Straight,
}

/// The timing of a source and a sink. What delays ready to the sink's own latency stands last, behind all other stages, and isn't
/// part of it.
pub fn timing_of(source: &SourcePort, sink: &SinkPort) -> Timing
    requires some { 1 ≤ source.now.symbols }
    requires pace { IsPaced (pace_of (declared source.now)) }
    ensures timing { IsTimingOf source.now sink.now result }
    ensures leads { (passes : ℕ → Bool) (side : Side) → side.pace ≡ pace_of (declared source.now)
        → 0 < side.symbols → PassesAll passes side → LeadsToZero result passes side }
{
    if !sink.ready && sink.symbols % source.symbols == 0 {
        return Timing::Tie(TieReady::new());
    }
    let latency = source.ready_latency();
    if latency == 0 {
        return Timing::Wire(Pass);
    }
    if source.allowance > latency {
        return Timing::Allowance(AllowanceBuffer::new(latency, source.allowance));
    }
    Timing::Buffer(ReadyBuffer::new(latency))
}

impl Stage for Timing {
    type Held = TimingKept;

    ghost has_shape = { λ s shape. timing_shape s shape };

    ghost passes_ready = { λ s shape. timing_shape s shape };

    ghost shows_ready = { λ s. ⊥ };

    ghost takes = { λ s widths. Unit {0} };

    ghost gives = { λ s widths. widths };

    ghost forward_nets = { λ s. timing_forward_nets s };

    ghost backward_nets = { λ s. timing_backward_nets s };

    ghost memories = { λ s. timing_memories s };

    ghost owns = { λ kept n. timing_owns kept n };

    ghost owns_memories = { λ kept m. timing_owns_memories kept m };

    ghost is_kept = { λ s kept netlist. TimingKeeps s kept netlist };

    ghost forward_in = { λ s from to kept netlist. TimingForward s from to kept netlist };

    ghost backward_in = { λ s kept ready up netlist. TimingBackward kept ready up netlist };

    #[tactic(auto, using(net_parts::specs::Laws::growing))]
    fn emit_forward(
        &self,
        builder: &mut Builder,
        from: BeatNets,
    ) -> Result<(BeatNets, TimingKept), NetFault> {
        match self {
            Timing::Tie(_) => Ok((from, TimingKept::Tied)),
            Timing::Buffer(stage) => {
                let (to, kept) = stage.emit_forward(builder, from)?;
                Ok((to, TimingKept::Buffered(kept)))
            }
            Timing::Allowance(stage) => {
                let (to, kept) = stage.emit_forward(builder, from)?;
                Ok((to, TimingKept::Allowed(kept)))
            }
            Timing::Wire(_) => Ok((from, TimingKept::Straight)),
        }
    }

    #[tactic(auto, using(net_parts::specs::Laws::growing))]
    fn emit_backward(
        &self,
        builder: &mut Builder,
        kept: TimingKept,
        ready: Net,
    ) -> Result<Net, NetFault> {
        match kept {
            TimingKept::Tied => TieReady::new().emit_backward(builder, Nothing, ready),
            TimingKept::Buffered(kept) => {
                ReadyBuffer::new(kept.latency).emit_backward(builder, kept, ready)
            }
            TimingKept::Allowed(kept) => {
                let buffer = kept.buffer;
                buffer.emit_backward(builder, kept, ready)
            }
            TimingKept::Straight => Ok(ready),
        }
    }

    fn law(&self) {
        tie_is_a_stage();
        buffer_is_a_stage();
        pass_is_a_stage();
    }

    ghost kept_lasts = { λ s kept old new h e w v. timing_keeps_lasts s kept old new h e w v };

    ghost forward_lasts = { λ s from to kept old new h e. timing_forward_lasts s from to kept old new h e };

    ghost backward_lasts = { λ s kept ready up old new h e. timing_backward_lasts kept ready up old new h e };
}
