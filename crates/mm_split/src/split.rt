//! The splitter: a command of one beat of wide words goes on as commands of narrow words, one for each piece with an enabled
//! lane, and their answers are gathered into a wide word. It holds no beat. Its law is that of `split_is_a_link`.

ghost use Rattle.std.specs.Prelude.{◌≡◌, ◌*◌, ◌+◌};
ghost use Rattle.mm_split.specs.Registers.{owns};
ghost use Rattle.mm_split.specs.SplitNets.{IsSplitForm, SplitRuns, TakesWide, narrow_widths, SplitKeeps, SplitCommand, SplitAnswer, split_keeps_lasts, split_command_lasts, split_answer_lasts};

use crate::answer::{come, next_registers, take};
use crate::command::{Part, make_part};
use crate::registers::{SplitRegisters, hold};
use crate::sizes::Sizes;
use command_nets::{AnswerNets, CommandNets, both};
use link_core::Link;
use memory_links::widths::split_is_a_link;
use net_parts::set_all_next;
use netlist::{Builder, Net, NetFault};

/// A link from wide words to narrow ones.
#[derive(Clone, Copy)]
pub struct Split {
    /// The bytes of a word above.
    pub wide_bytes: u8,
    /// The bytes of a word below.
    pub narrow_bytes: u8,
    /// How many wide reads may be under way.
    pub reads: u8,
    /// Whether the host has no byte enables, so that all pieces are asked. The law holds either way, the nets are leaner.
    pub all_lanes: bool,
}

/// The state, the command above, and what is told of it.
#[derive(Clone, Copy)]
pub struct SplitKept {
    pub sizes: Sizes,
    pub registers: SplitRegisters,
    pub from: CommandNets,
    pub part: Part,
}

impl Link for Split {
    type Held = SplitKept;

    ghost has_form = { λ s form. IsSplitForm s form };

    ghost is_straight = { λ s form. ⊥ };

    ghost runs = { λ s target up down. SplitRuns s target up down };

    ghost asks = { λ s target up end. Unit {0} };

    ghost takes = { λ s widths. TakesWide s widths };

    ghost gives = { λ s widths. narrow_widths s widths };

    ghost takes_words = { λ s bits. bits ≡ s.narrow_bytes * 8 };

    ghost gives_words = { λ s bits. s.wide_bytes * 8 };

    ghost command_nets = { λ s. 337 };

    ghost answer_nets = { λ s. 239 };

    ghost memories = { λ s. 0 };

    ghost owns = { λ kept n. owns kept.registers n };

    ghost owns_memories = { λ kept m. ⊥ };

    ghost is_kept = { λ s kept netlist. SplitKeeps s kept netlist };

    ghost command_in = { λ s from to kept netlist. SplitCommand s from to kept netlist };

    ghost answer_in = { λ s kept wait answer up back netlist. SplitAnswer s kept wait answer up back netlist };

    fn emit_command(
        &self,
        builder: &mut Builder,
        from: CommandNets,
    ) -> Result<(CommandNets, SplitKept), NetFault> {
        let sizes = self.sizes();
        let registers = hold(builder, &sizes)?;
        let part = make_part(builder, &from, &registers, &sizes)?;
        let to = part.below.copied();
        Ok((
            to,
            SplitKept {
                sizes,
                registers,
                from,
                part,
            },
        ))
    }

    fn emit_answer(
        &self,
        builder: &mut Builder,
        kept: SplitKept,
        wait: Net,
        answer: AnswerNets,
    ) -> Result<(Net, AnswerNets), NetFault> {
        let SplitKept {
            sizes,
            registers,
            from,
            part,
        } = kept;
        let taken = take(builder, &from, &part, wait, &sizes)?;
        let coming = come(builder, &registers, &answer, &sizes)?;
        let arrives = answer.valid;
        let valid = both(builder, arrives, coming.completes)?;
        let next = next_registers(
            builder, &registers, &from, &part, &taken, &coming, arrives, valid, &sizes,
        )?;
        let held = registers.group();
        let after = next.group();
        set_all_next(builder, &held, &after);
        Ok((
            taken.waits,
            AnswerNets {
                valid,
                word: coming.word,
                code: coming.code,
            },
        ))
    }

    fn law(&self) {
        split_is_a_link();
    }

    ghost kept_lasts = { λ s kept old new h e w v. split_keeps_lasts s kept old new h e w };

    ghost command_lasts = { λ s from to kept old new h e. split_command_lasts s from to kept old new h e };

    ghost answer_lasts = { λ s kept wait answer up back old new h e. split_answer_lasts s kept wait answer up back old new h e };
}
