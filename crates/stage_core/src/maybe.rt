//! A stage where one is needed, and else nothing, so that no nets stand between ends that agree. Its law is that of the part,
//! or of `pass_is_a_stage`.

ghost use Rattle.std.specs.Prelude.{◌≡◌, unwrap_or, option_map, IfSome, IsSomeAnd};
ghost use Rattle.stage_core.specs.MaybeNets.{shape_of, kept_of, forward_of, backward_of, kept_lasts, forward_lasts, backward_lasts};

use crate::beat::BeatNets;
use crate::stage::Stage;
use netlist::{Builder, Net, NetFault};
use stream_machines::stages::pass_is_a_stage;

/// A stage, or none: a beat and ready go straight through.
#[derive(Clone, Copy)]
pub struct Maybe<S> {
    pub stage: Option<S>,
}

impl<S: Stage> Stage for Maybe<S> {
    type Held = Option<S::Held>;

    ghost has_shape = { λ s shape. shape_of S.has_shape s.stage shape };

    ghost passes_ready = { λ s shape. shape_of S.passes_ready s.stage shape };

    ghost shows_ready = { λ s. IfSome s.stage S.shows_ready };

    ghost takes = { λ s widths. IfSome s.stage (λ stage. S.takes stage widths) };

    ghost gives = { λ s widths. unwrap_or (option_map (λ stage. S.gives stage widths) s.stage) widths };

    ghost forward_nets = { λ s. unwrap_or (option_map S.forward_nets s.stage) 0 };

    ghost backward_nets = { λ s. unwrap_or (option_map S.backward_nets s.stage) 0 };

    ghost memories = { λ s. unwrap_or (option_map S.memories s.stage) 0 };

    ghost owns = { λ kept n. IsSomeAnd kept (λ held. S.owns held n) };

    ghost owns_memories = { λ kept m. IsSomeAnd kept (λ held. S.owns_memories held m) };

    ghost is_kept = { λ s kept netlist. kept_of S.is_kept s.stage kept netlist };

    ghost forward_in = { λ s from to kept netlist. forward_of S.forward_in s.stage from to kept netlist };

    ghost backward_in = { λ s kept ready up netlist. backward_of S.backward_in s.stage kept ready up netlist };

    fn emit_forward(
        &self,
        builder: &mut Builder,
        from: BeatNets,
    ) -> Result<(BeatNets, Option<S::Held>), NetFault> {
        match &self.stage {
            None => Ok((from, None)),
            Some(stage) => {
                let (to, held) = stage.emit_forward(builder, from)?;
                Ok((to, Some(held)))
            }
        }
    }

    fn emit_backward(
        &self,
        builder: &mut Builder,
        kept: Option<S::Held>,
        ready: Net,
    ) -> Result<Net, NetFault> {
        match &self.stage {
            None => Ok(ready),
            Some(stage) => stage.emit_backward(builder, kept.unwrap(), ready),
        }
    }

    fn law(&self) {
        match &self.stage {
            None => pass_is_a_stage(),
            Some(stage) => stage.law(),
        }
    }

    ghost kept_lasts = { λ s kept old new h e w v. kept_lasts S.is_kept S.owns S.owns_memories (λ stage held. S.kept_lasts stage held) s.stage kept old new h e w v };

    ghost forward_lasts = { λ s from to kept old new h e. forward_lasts S.forward_in (λ stage before behind held. S.forward_lasts stage before behind held) s.stage from to kept old new h e };

    ghost backward_lasts = { λ s kept ready up old new h e. backward_lasts S.backward_in (λ stage held before behind. S.backward_lasts stage held before behind) s.stage kept ready up old new h e };
}
