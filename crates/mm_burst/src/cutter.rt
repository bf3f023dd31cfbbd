//! A cutter of bursts: each burst of a host goes on as bursts that an agent takes, or as single beats. It accepts a read with
//! its first burst and sends the others by itself; the beats of a write come from above. Answers are wires. Its law is that of
//! `cut_is_a_link`.

ghost use Rattle.std.specs.Prelude.{◌≡◌, ◌+◌, ◌*◌, ℕ};
ghost use Rattle.mm_burst.specs.Ways.{more_nets};
ghost use Rattle.mm_burst.specs.CutterNets.{IsCutterForm, CutterRuns, TakesWidths, given_widths, owns_cutter, CutterKeeps, CutterCommand, CutterAnswer, cutter_keeps_lasts, cutter_command_lasts, cutter_answer_lasts};

use crate::addresses::{start_of, wide_bits};
use crate::bits::longest_net;
use crate::pieces::{PieceNets, Way, make_piece};
use crate::registers::{CutterRegisters, hold_registers, next_registers};
use crate::shows::below;
use command_nets::{AnswerNets, CommandNets, either, lane_bits, unless};
use link_core::Link;
use memory_links::bursts::{cut_goes_in_step, cut_is_a_link, cut_is_straight};
use net_parts::{fit_bits, set_all_next};
use netlist::{Builder, Net, NetFault};

/// A link from bursts that so many bits count to those that fewer bits count.
#[derive(Clone, Copy)]
pub struct Cutter {
    /// The bytes of a word, on both sides.
    pub word_bytes: u8,
    /// The most bits of the count above.
    pub count_bits: u8,
    /// The bits of the count below; 1 for single beats.
    pub below_bits: u8,
    /// The bits of a word's place in a wide one, at whose end reads are cut, where writes go beat by beat; 0 where reads are cut
    /// like writes.
    pub place_bits: u8,
}

/// The registers, and what is shown below.
#[derive(Clone, Copy)]
pub struct CutterKept {
    pub registers: CutterRegisters,
    pub piece: PieceNets,
}

impl Link for Cutter {
    type Held = CutterKept;

    ghost has_form = { λ s form. IsCutterForm s form };

    ghost is_straight = { λ s form. IsCutterForm s form };

    ghost runs = { λ s target up down. CutterRuns s target up down };

    ghost asks = { λ s target up end. Unit {0} };

    ghost takes = { λ s widths. TakesWidths s widths };

    ghost gives = { λ s widths. given_widths s widths };

    ghost takes_words = { λ s bits. bits ≡ s.word_bytes * 8 };

    ghost gives_words = { λ s bits. s.word_bytes * 8 };

    ghost command_nets = { λ s. 50 + 7 * more_nets s.place_bits };

    ghost answer_nets = { λ s. 20 };

    ghost memories = { λ s. 0 };

    ghost owns = { λ kept n. owns_cutter kept n };

    ghost owns_memories = { λ kept m. ⊥ };

    ghost is_kept = { λ s kept netlist. CutterKeeps s kept netlist };

    ghost command_in = { λ s from to kept netlist. CutterCommand s from to kept netlist };

    ghost answer_in = { λ s kept wait answer up back netlist. CutterAnswer s kept wait answer up back netlist };

    #[tactic(auto, using(net_parts::specs::Laws::growing))]
    fn emit_command(
        &self,
        builder: &mut Builder,
        from: CommandNets,
    ) -> Result<(CommandNets, CutterKept), NetFault> {
        let bits = builder.width(from.count);
        let count = fit_bits(builder, from.count, bits, self.count_bits)?;
        let from = CommandNets { count, ..from };
        let lanes = lane_bits(self.word_bytes);
        let address_bits = builder.width(from.address);
        let bits = wide_bits(address_bits, self.count_bits, lanes);
        let start = start_of(builder, from.address, lanes, bits)?;
        let longest = longest_net(builder, self.count_bits, self.below_bits)?;
        let registers = hold_registers(builder, &from, start)?;
        let way = Way {
            lanes,
            place_bits: self.place_bits,
            below_bits: self.below_bits,
        };
        let piece = make_piece(builder, &from, &registers, start, longest, &way)?;
        let to = below(builder, &piece, from.word, longest, &way)?;
        Ok((to, CutterKept { registers, piece }))
    }

    fn emit_answer(
        &self,
        builder: &mut Builder,
        kept: CutterKept,
        wait: Net,
        answer: AnswerNets,
    ) -> Result<(Net, AnswerNets), NetFault> {
        let CutterKept { registers, piece } = kept;
        let lanes = lane_bits(self.word_bytes);
        let up = either(builder, piece.sends, wait)?;
        let taken = unless(builder, piece.shows, wait)?;
        let next = next_registers(builder, &registers, &piece, taken, lanes)?;
        set_all_next(builder, &registers.group(), &next.group());
        Ok((up, answer))
    }

    fn law(&self) {
        cut_is_a_link();
        cut_is_straight();
        cut_goes_in_step();
    }

    ghost kept_lasts = { λ s kept old new h e w v. cutter_keeps_lasts s kept old new h e w };

    ghost command_lasts = { λ s from to kept old new h e. cutter_command_lasts s from to kept old new h e };

    ghost answer_lasts = { λ s kept wait answer up back old new h e. cutter_answer_lasts s kept wait answer up back old new h e };
}
