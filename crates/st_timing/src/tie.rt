//! Ready tied to 1, for a sink that is always ready: a beat goes straight through, and no state is kept. It makes one net.
//! Its law is that of `tie_is_a_stage`.

ghost use Rattle.std.specs.Prelude.{◌≡◌};
ghost use Rattle.st_timing.specs.TieNets.{IsTieShape, IsTied};

use net_parts::level;
use netlist::{Builder, Net, NetFault};
use stage_core::pass::Nothing;
use stage_core::{BeatNets, Stage};
use stream_machines::machines::tie_is_a_stage;

/// A stage that always shows ready upstream, between a source of any pace and a sink that is always ready.
#[derive(Clone, Copy)]
pub struct TieReady;

impl TieReady {
    pub fn new() -> TieReady {
        TieReady
    }
}

impl Stage for TieReady {
    type Held = Nothing;

    ghost has_shape = { λ s shape. IsTieShape shape };

    ghost passes_ready = { λ s shape. IsTieShape shape };

    ghost shows_ready = { λ s. ⊥ };

    ghost takes = { λ s widths. Unit {0} };

    ghost gives = { λ s widths. widths };

    ghost forward_nets = { λ s. 0 };

    ghost backward_nets = { λ s. 1 };

    ghost memories = { λ s. 0 };

    ghost owns = { λ kept n. ⊥ };

    ghost owns_memories = { λ kept m. ⊥ };

    ghost is_kept = { λ s kept netlist. Unit {0} };

    ghost forward_in = { λ s from to kept netlist. to ≡ from };

    ghost backward_in = { λ s kept ready up netlist. IsTied netlist up };

    fn emit_forward(
        &self,
        builder: &mut Builder,
        from: BeatNets,
    ) -> Result<(BeatNets, Nothing), NetFault> {
        Ok((from, Nothing))
    }

    #[tactic(auto, using(net_parts::specs::Laws::growing))]
    fn emit_backward(
        &self,
        builder: &mut Builder,
        kept: Nothing,
        ready: Net,
    ) -> Result<Net, NetFault> {
        level(builder, true)
    }

    fn law(&self) {
        tie_is_a_stage();
    }

    ghost kept_lasts = { λ s kept old new h e w v. tt };

    ghost forward_lasts = { λ s from to kept old new h e. h };

    ghost backward_lasts = { λ s kept ready up old new h e. λ cycle v. h cycle (e.valuations cycle v) };
}
