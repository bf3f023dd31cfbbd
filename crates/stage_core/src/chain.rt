//! Two stages, one behind the other: a beat goes through the first and then through the second, the state is that of both,
//! and the holds add up. Its law is that of `chain_is_a_stage`, from the laws of the parts alone.

ghost use Rattle.std.specs.Prelude.{◌≡◌, ℕ, ◌+◌, ◌⊎◌};
ghost use Rattle.std.proofs.Common.{inl, inr};
ghost use Rattle.stage_core.specs.ChainNets.{IsChainOf, AreBothKept, HasMiddle};

use crate::beat::BeatNets;
use crate::stage::Stage;
use netlist::{Builder, Net, NetFault};
use stream_machines::stages::chain_is_a_stage;

/// A stage of two parts that fit.
#[derive(Clone, Copy)]
pub struct Chain<A, B> {
    /// At the side of the source.
    pub first: A,
    /// At the side of the sink.
    pub second: B,
}

impl<A: Stage, B: Stage> Stage for Chain<A, B> {
    type Held = (A::Held, B::Held);

    ghost has_shape = { λ s shape. IsChainOf (A.has_shape s.first) (B.has_shape s.second) (B.passes_ready s.second)
        (A.shows_ready s.first) shape };

    ghost passes_ready = { λ s shape. IsChainOf (λ first. A.has_shape s.first first × A.passes_ready s.first first)
        (B.passes_ready s.second) (B.passes_ready s.second) (A.shows_ready s.first) shape };

    ghost shows_ready = { λ s. A.shows_ready s.first × B.shows_ready s.second };

    ghost takes = { λ s widths. A.takes s.first widths × B.takes s.second (A.gives s.first widths) };

    ghost gives = { λ s widths. B.gives s.second (A.gives s.first widths) };

    ghost forward_nets = { λ s. A.forward_nets s.first + B.forward_nets s.second };

    ghost backward_nets = { λ s. A.backward_nets s.first + B.backward_nets s.second };

    ghost memories = { λ s. A.memories s.first + B.memories s.second };

    ghost owns = { λ kept n. A.owns kept.0 n ⊎ B.owns kept.1 n };

    ghost owns_memories = { λ kept m. A.owns_memories kept.0 m ⊎ B.owns_memories kept.1 m };

    ghost is_kept = { λ s kept netlist. AreBothKept (A.is_kept s.first kept.0) (B.is_kept s.second kept.1) (A.owns kept.0)
        (B.owns kept.1) (A.owns_memories kept.0) (B.owns_memories kept.1) netlist };

    ghost forward_in = { λ s from to kept netlist. HasMiddle (λ middle. A.forward_in s.first from middle kept.0 netlist) (λ middle. B.forward_in s.second middle to kept.1 netlist) };

    ghost backward_in = { λ s kept ready up netlist. HasMiddle (λ middle. A.backward_in s.first kept.0 middle up netlist) (λ middle. B.backward_in s.second kept.1 ready middle netlist) };

    #[tactic(auto, using(net_parts::specs::Laws::growing))]
    fn emit_forward(
        &self,
        builder: &mut Builder,
        from: BeatNets,
    ) -> Result<(BeatNets, (A::Held, B::Held)), NetFault> {
        let (middle, first) = self.first.emit_forward(builder, from)?;
        let (to, second) = self.second.emit_forward(builder, middle)?;
        Ok((to, (first, second)))
    }

    #[tactic(auto, using(net_parts::specs::Laws::growing))]
    fn emit_backward(
        &self,
        builder: &mut Builder,
        kept: (A::Held, B::Held),
        ready: Net,
    ) -> Result<Net, NetFault> {
        let (first, second) = kept;
        let middle = self.second.emit_backward(builder, second, ready)?;
        self.first.emit_backward(builder, first, middle)
    }

    fn law(&self) {
        self.first.law();
        self.second.law();
        chain_is_a_stage();
    }

    ghost kept_lasts = { λ s kept old new h e w v. record {
      first = A.kept_lasts s.first kept.0 old new h.first e (λ n o. w n (inl o)) (λ m o. v m (inl o));
      second = B.kept_lasts s.second kept.1 old new h.second e (λ n o. w n (inr o)) (λ m o. v m (inr o));
      apart = h.apart;
      memories_apart = h.memories_apart;
    } };

    ghost forward_lasts = { λ s from to kept old new h e. record {
      middle = h.middle;
      first = A.forward_lasts s.first from h.middle kept.0 old new h.first e;
      second = B.forward_lasts s.second h.middle to kept.1 old new h.second e;
    } };

    ghost backward_lasts = { λ s kept ready up old new h e. record {
      middle = h.middle;
      first = A.backward_lasts s.first kept.0 h.middle up old new h.first e;
      second = B.backward_lasts s.second kept.1 ready h.middle old new h.second e;
    } };
}
