//! The stage that passes each beat as it is: no net, no state, hold 0. Its law is that of `pass_is_a_stage`.

ghost use Rattle.std.specs.Prelude.{◌≡◌, ◌<◌, IsTrue};
ghost use Rattle.stage_core.specs.PassNets.{IsPassShape};

use crate::beat::BeatNets;
use crate::stage::Stage;
use netlist::{Builder, Net, NetFault};
use stream_machines::stages::pass_is_a_stage;

/// A stage of no nets: the beat and ready go straight through, between ends of any pace.
#[derive(Clone, Copy)]
pub struct Pass;

/// Nothing is kept.
#[derive(Drop)]
pub struct Nothing;

impl Stage for Pass {
    type Held = Nothing;

    ghost has_shape = { λ s shape. IsPassShape shape };

    ghost passes_ready = { λ s shape. IsPassShape shape };

    ghost shows_ready = { λ s. Unit {0} };

    ghost takes = { λ s widths. Unit {0} };

    ghost gives = { λ s widths. widths };

    ghost forward_nets = { λ s. 0 };

    ghost backward_nets = { λ s. 0 };

    ghost memories = { λ s. 0 };

    ghost owns = { λ kept n. ⊥ };

    ghost owns_memories = { λ kept m. ⊥ };

    ghost is_kept = { λ s kept netlist. Unit {0} };

    ghost forward_in = { λ s from to kept netlist. to ≡ from };

    ghost backward_in = { λ s kept ready up netlist. up ≡ ready };

    fn emit_forward(
        &self,
        builder: &mut Builder,
        from: BeatNets,
    ) -> Result<(BeatNets, Nothing), NetFault> {
        Ok((from, Nothing))
    }

    fn emit_backward(
        &self,
        builder: &mut Builder,
        kept: Nothing,
        ready: Net,
    ) -> Result<Net, NetFault> {
        Ok(ready)
    }

    fn law(&self) {
        pass_is_a_stage();
    }

    ghost kept_lasts = { λ s kept old new h e w v. tt };

    ghost forward_lasts = { λ s from to kept old new h e. h };

    ghost backward_lasts = { λ s kept ready up old new h e. h };
}
