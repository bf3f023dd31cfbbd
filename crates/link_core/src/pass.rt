//! The link that passes each command and each answer as it is: no net, no state, hold 0. Its law is that of `pass_is_a_link`.

ghost use Rattle.std.specs.Prelude.{◌≡◌};
ghost use Rattle.link_core.specs.PassNets.{IsPassForm};

use crate::link::Link;
use command_nets::{AnswerNets, CommandNets};
use memory_links::rows::{pass_goes_in_step, pass_is_a_link};
use netlist::{Builder, Net, NetFault};

/// A link of no nets, between sides of one shape.
#[derive(Clone, Copy)]
pub struct Pass;

/// Nothing is kept.
#[derive(Drop)]
pub struct Nothing;

impl Link for Pass {
    type Held = Nothing;

    ghost has_form = { λ s form. IsPassForm form };

    ghost is_straight = { λ s form. IsPassForm form };

    ghost runs = { λ s target up down. up ≡ down };

    ghost asks = { λ s target up end. Unit {0} };

    ghost takes = { λ s widths. Unit {0} };

    ghost gives = { λ s widths. widths };

    ghost takes_words = { λ s bits. Unit {0} };

    ghost gives_words = { λ s bits. bits };

    ghost command_nets = { λ s. 0 };

    ghost answer_nets = { λ s. 0 };

    ghost memories = { λ s. 0 };

    ghost owns = { λ kept n. ⊥ };

    ghost owns_memories = { λ kept m. ⊥ };

    ghost is_kept = { λ s kept netlist. Unit {0} };

    ghost command_in = { λ s from to kept netlist. to ≡ from };

    ghost answer_in = { λ s kept wait answer up back netlist. (up ≡ wait) × (back ≡ answer) };

    fn emit_command(
        &self,
        builder: &mut Builder,
        from: CommandNets,
    ) -> Result<(CommandNets, Nothing), NetFault> {
        Ok((from, Nothing))
    }

    fn emit_answer(
        &self,
        builder: &mut Builder,
        kept: Nothing,
        wait: Net,
        answer: AnswerNets,
    ) -> Result<(Net, AnswerNets), NetFault> {
        Ok((wait, answer))
    }

    fn law(&self) {
        pass_is_a_link();
        pass_goes_in_step();
    }

    ghost kept_lasts = { λ s kept old new h e w v. tt };

    ghost command_lasts = { λ s from to kept old new h e. h };

    ghost answer_lasts = { λ s kept wait answer up back old new h e. h };
}
