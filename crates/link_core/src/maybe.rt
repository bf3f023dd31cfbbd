//! A link where one is needed, and else nothing. Its laws are those of the part, or of a wire.

ghost use Rattle.std.specs.Prelude.{◌≡◌, unwrap_or, option_map, IfSome, IsSomeAnd};
ghost use Rattle.link_core.specs.MaybeNets.{form_of, runs_of, kept_of, command_of, answer_of, kept_lasts, command_lasts, answer_lasts};

use crate::delay::Delay;
use crate::link::Link;
use command_nets::{AnswerNets, CommandNets};
use memory_links::rows::{pass_goes_in_step, pass_is_a_link};
use memory_machines::lines::registers_are_a_pipe;
use netlist::{Builder, Net, NetFault};

/// A link, or none: commands and answers go straight through.
#[derive(Clone, Copy)]
pub struct Maybe<L> {
    pub link: Option<L>,
}

impl<L: Link> Link for Maybe<L> {
    type Held = Option<L::Held>;

    ghost has_form = { λ s form. form_of L.has_form s.link form };

    ghost is_straight = { λ s form. form_of L.is_straight s.link form };

    ghost runs = { λ s target up down. runs_of L.runs s.link target up down };

    ghost asks = { λ s target up end. IfSome s.link (λ link. L.asks link target up end) };

    ghost takes = { λ s widths. IfSome s.link (λ link. L.takes link widths) };

    ghost gives = { λ s widths. unwrap_or (option_map (λ link. L.gives link widths) s.link) widths };

    ghost takes_words = { λ s bits. IfSome s.link (λ link. L.takes_words link bits) };

    ghost gives_words = { λ s bits. unwrap_or (option_map (λ link. L.gives_words link bits) s.link) bits };

    ghost command_nets = { λ s. unwrap_or (option_map L.command_nets s.link) 0 };

    ghost answer_nets = { λ s. unwrap_or (option_map L.answer_nets s.link) 0 };

    ghost memories = { λ s. unwrap_or (option_map L.memories s.link) 0 };

    ghost owns = { λ kept n. IsSomeAnd kept (λ held. L.owns held n) };

    ghost owns_memories = { λ kept m. IsSomeAnd kept (λ held. L.owns_memories held m) };

    ghost is_kept = { λ s kept netlist. kept_of L.is_kept s.link kept netlist };

    ghost command_in = { λ s from to kept netlist. command_of L.command_in s.link from to kept netlist };

    ghost answer_in = { λ s kept wait answer up back netlist. answer_of L.answer_in s.link kept wait answer up back netlist };

    fn emit_command(
        &self,
        builder: &mut Builder,
        from: CommandNets,
    ) -> Result<(CommandNets, Option<L::Held>), NetFault> {
        match &self.link {
            None => Ok((from, None)),
            Some(link) => {
                let (to, held) = link.emit_command(builder, from)?;
                Ok((to, Some(held)))
            }
        }
    }

    fn emit_answer(
        &self,
        builder: &mut Builder,
        kept: Option<L::Held>,
        wait: Net,
        answer: AnswerNets,
    ) -> Result<(Net, AnswerNets), NetFault> {
        match &self.link {
            None => Ok((wait, answer)),
            Some(link) => link.emit_answer(builder, kept.unwrap(), wait, answer),
        }
    }

    fn law(&self) {
        match &self.link {
            None => {
                pass_is_a_link();
                pass_goes_in_step()
            }
            Some(link) => link.law(),
        }
    }

    ghost kept_lasts = { λ s kept old new h e w v. kept_lasts L.is_kept L.owns L.owns_memories (λ link held. L.kept_lasts link held) s.link kept old new h e w v };

    ghost command_lasts = { λ s from to kept old new h e. command_lasts L.command_in (λ link before behind held. L.command_lasts link before behind held) s.link from to kept old new h e };

    ghost answer_lasts = { λ s kept wait answer up back old new h e. answer_lasts L.answer_in (λ link held below given above back. L.answer_lasts link held below given above back) s.link kept wait answer up back old new h e };
}

impl<L: Delay> Delay for Maybe<L> {
    ghost stages = { λ s. unwrap_or (option_map L.stages s.link) 0 };

    ghost has_line = { λ s form. form_of L.has_line s.link form };

    fn line(&self) {
        match &self.link {
            None => registers_are_a_pipe(),
            Some(link) => link.line(),
        }
    }
}
