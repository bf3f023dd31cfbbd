//! Two links, one behind the other: a command goes through the first and then through the second, an answer the other way,
//! and the holds add up. Its law is that of `chain_is_a_link`, from the laws of the parts alone.

ghost use Rattle.std.specs.Prelude.{◌≡◌, ℕ, ◌+◌, ◌⊎◌};
ghost use Rattle.std.proofs.Common.{inl, inr};
ghost use Rattle.memory_machines.specs.Link.{Port};
ghost use Rattle.link_core.specs.ChainNets.{IsChainOf, IsStraightChainOf, AreBothKept, HasMiddle, HasMiddleAnswer};

use crate::link::Link;
use command_nets::{AnswerNets, CommandNets};
use memory_links::drops::plain_commands_act;
use memory_links::rows::{chain_is_a_link, chain_is_straight};
use netlist::{Builder, Net, NetFault};

/// A link of two parts that fit.
#[derive(Clone, Copy)]
pub struct Chain<A, B> {
    /// At the side of the host.
    pub first: A,
    /// At the side of the agent.
    pub second: B,
}

impl<A: Link, B: Link> Link for Chain<A, B> {
    type Held = (A::Held, B::Held);

    ghost has_form = { λ s form. IsChainOf (A.has_form s.first) (B.has_form s.second) form };

    ghost is_straight = { λ s form. IsStraightChainOf (λ first. A.has_form s.first first
        × A.is_straight s.first first) (λ second. B.has_form s.second second × B.is_straight s.second second) form };

    ghost runs = { λ s target up down. HasMiddle (λ middle. A.runs s.first target up middle) (λ middle. B.runs s.second target middle down) };

    ghost asks = { λ s target up end. A.asks s.first target up end
        × ((middle : Port) → A.runs s.first target up middle → B.asks s.second target middle end) };

    ghost takes = { λ s widths. A.takes s.first widths × B.takes s.second (A.gives s.first widths) };

    ghost gives = { λ s widths. B.gives s.second (A.gives s.first widths) };

    ghost takes_words = { λ s bits. B.takes_words s.second bits × A.takes_words s.first (B.gives_words s.second bits) };

    ghost gives_words = { λ s bits. A.gives_words s.first (B.gives_words s.second bits) };

    ghost command_nets = { λ s. A.command_nets s.first + B.command_nets s.second };

    ghost answer_nets = { λ s. A.answer_nets s.first + B.answer_nets s.second };

    ghost memories = { λ s. A.memories s.first + B.memories s.second };

    ghost owns = { λ kept n. A.owns kept.0 n ⊎ B.owns kept.1 n };

    ghost owns_memories = { λ kept m. A.owns_memories kept.0 m ⊎ B.owns_memories kept.1 m };

    ghost is_kept = { λ s kept netlist. AreBothKept (A.is_kept s.first kept.0) (B.is_kept s.second kept.1) (A.owns kept.0)
        (B.owns kept.1) (A.owns_memories kept.0) (B.owns_memories kept.1) netlist };

    ghost command_in = { λ s from to kept netlist. HasMiddle (λ middle. A.command_in s.first from middle kept.0 netlist) (λ middle. B.command_in s.second middle to kept.1 netlist) };

    ghost answer_in = { λ s kept wait answer up back netlist. HasMiddleAnswer (λ middle inner. A.answer_in s.first kept.0 middle inner up back netlist) (λ middle inner. B.answer_in s.second kept.1 wait answer middle inner netlist) };

    #[tactic(auto, using(net_parts::specs::Laws::growing))]
    fn emit_command(
        &self,
        builder: &mut Builder,
        from: CommandNets,
    ) -> Result<(CommandNets, (A::Held, B::Held)), NetFault> {
        let (middle, first) = self.first.emit_command(builder, from)?;
        let (to, second) = self.second.emit_command(builder, middle)?;
        Ok((to, (first, second)))
    }

    #[tactic(auto, using(net_parts::specs::Laws::growing))]
    fn emit_answer(
        &self,
        builder: &mut Builder,
        kept: (A::Held, B::Held),
        wait: Net,
        answer: AnswerNets,
    ) -> Result<(Net, AnswerNets), NetFault> {
        let (first, second) = kept;
        let (middle, inner) = self.second.emit_answer(builder, second, wait, answer)?;
        self.first.emit_answer(builder, first, middle, inner)
    }

    fn law(&self) {
        self.first.law();
        self.second.law();
        chain_is_a_link();
        chain_is_straight();
        plain_commands_act();
    }

    ghost kept_lasts = { λ s kept old new h e w v. record {
      first = A.kept_lasts s.first kept.0 old new h.first e (λ n o. w n (inl o)) (λ m o. v m (inl o));
      second = B.kept_lasts s.second kept.1 old new h.second e (λ n o. w n (inr o)) (λ m o. v m (inr o));
      apart = h.apart;
      memories_apart = h.memories_apart;
    } };

    ghost command_lasts = { λ s from to kept old new h e. record {
      middle = h.middle;
      first = A.command_lasts s.first from h.middle kept.0 old new h.first e;
      second = B.command_lasts s.second h.middle to kept.1 old new h.second e;
    } };

    ghost answer_lasts = { λ s kept wait answer up back old new h e. record {
      wait = h.wait;
      answer = h.answer;
      first = A.answer_lasts s.first kept.0 h.wait h.answer up back old new h.first e;
      second = B.answer_lasts s.second kept.1 wait answer h.wait h.answer old new h.second e;
    } };
}
