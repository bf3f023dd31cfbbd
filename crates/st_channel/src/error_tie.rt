//! The error of each beat tied to 0, behind a source without an error port: a beat and ready go straight through, and no state
//! is kept. It makes one net. Its law is that of `error_tie_is_a_stage`.

ghost use Rattle.std.specs.Prelude.{◌≡◌, ◌≤◌};
ghost use Rattle.st_channel.specs.ErrorNets.{IsErrorTieShape, TiesError, ties_lasts};

use net_parts::constant;
use netlist::{Builder, Net, NetFault};
use stage_core::pass::Nothing;
use stage_core::{BeatNets, Stage};
use stream_machines::machines::error_tie_is_a_stage;

/// A stage from a source without an error port to a sink with one, at any pace.
#[derive(Clone, Copy)]
pub struct ErrorTie {
    /// The bits of the sink's error port.
    pub width: u8,
    pub ghost some: { 1 ≤ width },
    pub ghost few: { width ≤ 128 },
}

impl ErrorTie {
    /// Before a sink with an error port of so many bits.
    pub fn new(width: u8) -> ErrorTie
        requires some { 1 ≤ width }
        requires few { width ≤ 128 }
        ensures { result.width ≡ width }
    {
        ErrorTie { width }
    }
}

impl Stage for ErrorTie {
    type Held = Nothing;

    ghost has_shape = { λ s shape. IsErrorTieShape s.width shape };

    ghost passes_ready = { λ s shape. IsErrorTieShape s.width shape };

    ghost shows_ready = { λ s. Unit {0} };

    ghost takes = { λ s widths. Unit {0} };

    ghost gives = { λ s widths. record widths { error = s.width } };

    ghost forward_nets = { λ s. 1 };

    ghost backward_nets = { λ s. 0 };

    ghost memories = { λ s. 0 };

    ghost owns = { λ kept n. ⊥ };

    ghost owns_memories = { λ kept m. ⊥ };

    ghost is_kept = { λ s kept netlist. Unit {0} };

    ghost forward_in = { λ s from to kept netlist. TiesError from to netlist };

    ghost backward_in = { λ s kept ready up netlist. up ≡ ready };

    #[tactic(auto, using(net_parts::specs::Laws::growing))]
    fn emit_forward(
        &self,
        builder: &mut Builder,
        from: BeatNets,
    ) -> Result<(BeatNets, Nothing), NetFault> {
        let error = constant(builder, self.width, 0)?;
        let to = BeatNets {
            error,
            ..from.copied()
        };
        Ok((to, Nothing))
    }

    fn emit_backward(
        &self,
        builder: &mut Builder,
        kept: Nothing,
        ready: Net,
    ) -> Result<Net, NetFault> {
        Ok(ready)
    }

    fn law(&self) {
        error_tie_is_a_stage();
    }

    ghost kept_lasts = { λ s kept old new h e w v. tt };

    ghost forward_lasts = { λ s from to kept old new h e. ties_lasts from to old new h e };

    ghost backward_lasts = { λ s kept ready up old new h e. h };
}
