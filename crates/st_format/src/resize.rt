//! What changes how many symbols a beat has: nothing where both ends have equally many, what takes beats apart or joins them
//! where the symbols of one end divide those of the other, and else a window of symbols. In each cycle it takes or gives a whole
//! beat, so that it carries as many symbols as the smaller beat has.

ghost use Rattle.std.specs.Prelude.{◌≡◌, ◌+◌, ◌*◌, ◌≤◌};
ghost use Rattle.st_format.specs.ResizeNets.{IsResizeOf, resize_has, resize_passes, resize_takes, resize_gives, resize_forward, resize_backward, resize_owns, ResizeKeeps, ResizeForward, ResizeBackward, resize_keeps_lasts, resize_forward_lasts, resize_backward_lasts};

use crate::narrow::{Narrow, NarrowKept};
use crate::sizes::Sizes;
use crate::widen::{Widen, WidenKept};
use netlist::{Builder, Net, NetFault};
use st_windows::window::WindowKept;
use st_windows::{Window, WindowSizes};
use stage_core::{BeatNets, Stage};
use stream_machines::stages::pass_is_a_stage;

/// A stage from beats of some symbols to beats of some others, between ends of ready latency 0.
#[derive(Clone, Copy)]
pub enum Resize {
    /// Both have equally many.
    Equal,
    /// Beats come apart.
    Cut(Narrow),
    /// Beats are joined.
    Join(Widen),
    /// Neither number divides the other.
    Slide(Window),
}

/// What is kept of it: the stage, and what is kept of that.
#[derive(Clone, Copy)]
pub enum ResizeKept {
    Straight,
    OfCut(Narrow, NarrowKept),
    OfJoin(Widen, WidenKept),
    OfSlide(Window, WindowKept),
}

/// The stage from beats of so many symbols, of packets or not, to beats of so many others, each symbol of so many bits.
pub(crate) fn resize_of(from: u8, into: u8, bits: u8, packets: bool) -> Resize
    requires some_from { 1 ≤ from }
    requires some_into { 1 ≤ into }
    requires some_bits { 1 ≤ bits }
    requires from_fits { bits * from ≤ 128 }
    requires into_fits { bits * into ≤ 128 }
    ensures { IsResizeOf from into bits packets result }
{
    if from == into {
        return Resize::Equal;
    }
    if from % into == 0 {
        return Resize::Cut(Narrow::new(Sizes::new(into, from / into, bits)));
    }
    if into % from == 0 {
        return Resize::Join(Widen::new(Sizes::new(from, into / from, bits), packets));
    }
    Resize::Slide(Window::new(WindowSizes::new(from, into, bits)))
}

impl Stage for Resize {
    type Held = ResizeKept;

    ghost has_shape = { λ s shape. resize_has s shape };

    ghost passes_ready = { λ s shape. resize_passes s shape };

    ghost shows_ready = { λ s. ⊥ };

    ghost takes = { λ s widths. resize_takes s widths };

    ghost gives = { λ s widths. resize_gives s widths };

    ghost forward_nets = { λ s. resize_forward s };

    ghost backward_nets = { λ s. resize_backward s };

    ghost memories = { λ s. 0 };

    ghost owns = { λ kept n. resize_owns kept n };

    ghost owns_memories = { λ kept m. ⊥ };

    ghost is_kept = { λ s kept netlist. ResizeKeeps s kept netlist };

    ghost forward_in = { λ s from to kept netlist. ResizeForward s from to kept netlist };

    ghost backward_in = { λ s kept ready up netlist. ResizeBackward s kept ready up netlist };

    #[tactic(auto, using(net_parts::specs::Laws::growing))]
    fn emit_forward(
        &self,
        builder: &mut Builder,
        from: BeatNets,
    ) -> Result<(BeatNets, ResizeKept), NetFault> {
        match self {
            Resize::Equal => Ok((from, ResizeKept::Straight)),
            Resize::Cut(stage) => {
                let (to, kept) = stage.emit_forward(builder, from)?;
                Ok((to, ResizeKept::OfCut(*stage, kept)))
            }
            Resize::Join(stage) => {
                let (to, kept) = stage.emit_forward(builder, from)?;
                Ok((to, ResizeKept::OfJoin(*stage, kept)))
            }
            Resize::Slide(stage) => {
                let (to, kept) = stage.emit_forward(builder, from)?;
                Ok((to, ResizeKept::OfSlide(*stage, kept)))
            }
        }
    }

    #[tactic(auto, using(net_parts::specs::Laws::growing))]
    fn emit_backward(
        &self,
        builder: &mut Builder,
        kept: ResizeKept,
        ready: Net,
    ) -> Result<Net, NetFault> {
        match kept {
            ResizeKept::Straight => Ok(ready),
            ResizeKept::OfCut(stage, kept) => stage.emit_backward(builder, kept, ready),
            ResizeKept::OfJoin(stage, kept) => stage.emit_backward(builder, kept, ready),
            ResizeKept::OfSlide(stage, kept) => stage.emit_backward(builder, kept, ready),
        }
    }

    fn law(&self) {
        match self {
            Resize::Equal => pass_is_a_stage(),
            Resize::Cut(stage) => stage.law(),
            Resize::Join(stage) => stage.law(),
            Resize::Slide(stage) => stage.law(),
        }
    }

    ghost kept_lasts = { λ s kept old new h e w v. resize_keeps_lasts s kept old new h e w };

    ghost forward_lasts = { λ s from to kept old new h e. resize_forward_lasts s from to kept old new h e };

    ghost backward_lasts = { λ s kept ready up old new h e. resize_backward_lasts s kept ready up old new h e };
}
