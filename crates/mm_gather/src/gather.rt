//! A gatherer: a read burst that lies in one wide word goes as one beat, whose word is given out again in narrow words, one a
//! cycle.
//! Write beats go as through a lane selector. The reads under way wait in one queue, and their words in another. Its law is that
//! of `gather_is_a_link`.

ghost use Rattle.std.specs.Prelude.{◌≡◌, ℕ, ◌+◌, ◌*◌, ◌^◌, ◌<◌, ◌≤◌, not, ◌&&◌, ◌||◌, nat_lt, ◌∷◌, [], length, IfOk};
ghost use Rattle.histories.specs.History.{is_raised};
ghost use Rattle.netlist.specs.Netlists.{IsNet};
ghost use Rattle.netlist.specs.Runs.{Always};
ghost use Rattle.net_parts.specs.Nets.{IsBit, IsNetOfWidth};
ghost use Rattle.net_parts.specs.Growth.{AddsNets};
ghost use Rattle.command_nets.specs.Nets.{AreCommandNets, AreAnswerNets};
ghost use Rattle.item_queues.specs.Queues.{IsQueueMade, held_in};
ghost use Rattle.item_queues.specs.Storages.{shown_oldest};
ghost use Rattle.mm_gather.specs.Reads.{owns_reads, owns_read_memories};
ghost use Rattle.mm_gather.specs.GatherNets.{IsGatherForm, GatherRuns, AsksInWords, TakesWidths, given_widths, IsSentBeat, GatherKeeps, GatherCommand, GatherAnswer, gather_keeps_lasts, gather_command_lasts, gather_answer_lasts};

use crate::lanes::burst_lanes;
use crate::reads::{HeldReads, Steps, both_nets, give_now, hold_reads, move_reads};
use command_nets::{AnswerNets, CommandNets, both, either, lane_bits, turned, unless};
use item_queues::{has_room, show_oldest};
use link_core::Link;
use memory_links::gathers::gather_is_a_link;
use mm_select::{align, asks_now, repeat};
use net_parts::{PlaceNets, constant};
use netlist::{Builder, Net, NetFault};

/// A link from words of so many bytes to words of so many more, through which so many reads may be under way.
#[derive(Clone, Copy)]
pub struct Gather {
    pub narrow_bytes: u8,
    pub wide_bytes: u8,
    pub reads: u8,
}

/// The reads under way, and nets of the command.
#[derive(Clone, Copy)]
pub struct GatherKept {
    pub held: HeldReads,
    /// The read that is shown downstream.
    pub read: Net,
    pub write: Net,
    /// As many reads are under way as may be, and no write is shown.
    pub shut: Net,
    /// The place of the beat in its wide word.
    pub place: Net,
    /// How many narrow words the burst has.
    pub count: Net,
}

/// Whether a read is held back: as many are under way as may be, and no write is shown.
#[tactic(auto, using(net_parts::specs::Laws::growing))]
fn shut_bit(builder: &mut Builder, held: &HeldReads, write: Net) -> Result<Net, NetFault>
    requires count { IsNet builder.old held.now.entries.count }
    requires wide { held.now.entries.bound < 2 ^ held.now.entries.count.width }
    requires write { IsBit builder.old write }
    ensures net { IfOk result (λ shut. IsBit builder.new shut) }
    ensures value { IfOk result (λ shut. Always builder.new (λ cycle. is_raised (cycle.net shut.number)
        ≡ (not (is_raised (cycle.net write.number))
        && not (nat_lt (cycle.net held.now.entries.count.number) held.now.entries.bound)))) }
    ensures adds { AddsNets 5 builder.old builder.new }
    ensures full { result ≡ Err NetFault.TooManyNets → 2 ^ 20 < length builder.old.lines + 5 }
{
    let room = has_room(builder, &held.entries)?;
    let full = turned(builder, room)?;
    unless(builder, full, write)
}

/// The beat of the wide word, in which the burst begins at `place`.
#[tactic(auto, using(net_parts::specs::Laws::growing))]
fn sent_beat(
    builder: &mut Builder,
    from: &CommandNets,
    shut: Net,
    place: Net,
    lanes: u8,
) -> Result<CommandNets, NetFault>
    requires from { AreCommandNets builder.old from.now }
    requires shut { IsBit builder.old shut }
    requires place { IsNet builder.old place }
    requires some { 1 ≤ lanes }
    requires some_places { 1 ≤ place.width }
    requires few_places { place.width ≤ 4 }
    requires count { from.now.count.width ≡ place.width + 1 }
    requires reach { lanes ≤ from.now.address.width }
    requires word { from.now.word.width * 2 ^ place.width ≤ 128 }
    requires enables { from.now.enables.width * 2 ^ (place.width + 1) ≤ 128 }
    ensures command { IfOk result (λ to. AreCommandNets builder.new to) }
    ensures sent { IfOk result (λ to. IsSentBeat builder.new from.now to shut place lanes) }
    ensures adds { AddsNets 80 builder.old builder.new }
    ensures full { result ≡ Err NetFault.TooManyNets → 2 ^ 20 < length builder.old.lines + 80 }
{
    let places = builder.width(place);
    let read = unless(builder, from.read, shut)?;
    let address = align(builder, from.address, lanes)?;
    let word = repeat(builder, from.word, places)?;
    let enables = burst_lanes(builder, from.enables, from.count, place, places)?;
    let count = constant(builder, 1, 1)?;
    Ok(CommandNets {
        read,
        write: from.write,
        address,
        word,
        enables,
        count,
        more: from.more,
        tag: from.tag,
    })
}

/// Whether a word comes that a read waits for.
#[tactic(auto, using(net_parts::specs::Laws::growing))]
fn comes_now(builder: &mut Builder, held: &HeldReads, valid: Net) -> Result<Net, NetFault>
    requires entries { IsNet builder.old held.now.entries.count }
    requires words { IsNet builder.old held.now.words.count }
    requires widths { held.now.words.count.width ≡ held.now.entries.count.width }
    requires valid { IsBit builder.old valid }
    ensures net { IfOk result (λ comes. IsBit builder.new comes) }
    ensures value { IfOk result (λ comes. Always builder.new (λ cycle. is_raised (cycle.net comes.number)
        ≡ (is_raised (cycle.net valid.number)
        && nat_lt (cycle.net held.now.words.count.number) (cycle.net held.now.entries.count.number)))) }
    ensures adds { AddsNets 2 builder.old builder.new }
    ensures full { result ≡ Err NetFault.TooManyNets → 2 ^ 20 < length builder.old.lines + 2 }
{
    let asked = builder.less(held.words.count, held.entries.count)?;
    both(builder, valid, asked)
}

/// The oldest word, where one is there.
#[derive(Clone, Copy)]
struct Shown {
    /// A word comes that a read waits for.
    comes: Net,
    /// A word is there: one that has come before, or that which comes now.
    valid: Net,
    wide: Net,
    code: Net,
}

#[tactic(auto, using(net_parts::specs::Laws::growing))]
fn shown_word(
    builder: &mut Builder,
    held: &HeldReads,
    answer: &AnswerNets,
) -> Result<Shown, NetFault>
    requires entries { IsNet builder.old held.now.entries.count }
    requires widths { held.now.words.count.width ≡ held.now.entries.count.width }
    requires words { IsQueueMade builder.old (answer.now.word ∷ answer.now.code ∷ []) held.now.words }
    requires answer { AreAnswerNets builder.old answer.now answer.now.word.width }
    ensures comes { IfOk result (λ shown. IsBit builder.new shown.comes) }
    ensures comes_is { IfOk result (λ shown. Always builder.new (λ cycle. is_raised (cycle.net shown.comes.number)
        ≡ (is_raised (cycle.net answer.now.valid.number)
        && nat_lt (cycle.net held.now.words.count.number) (cycle.net held.now.entries.count.number)))) }
    ensures valid { IfOk result (λ shown. IsBit builder.new shown.valid) }
    ensures wide { IfOk result (λ shown. IsNetOfWidth builder.new shown.wide answer.now.word.width) }
    ensures code { IfOk result (λ shown. IsNetOfWidth builder.new shown.code 2) }
    ensures shows { IfOk result (λ shown. Always builder.new (λ cycle. cycle.net shown.valid.number ∷ cycle.net shown.wide.number
        ∷ cycle.net shown.code.number ∷ []
        ≡ shown_oldest (held_in cycle held.now.words)
        (cycle.net shown.comes.number ∷ cycle.net answer.now.word.number ∷ cycle.net answer.now.code.number ∷ []))) }
    ensures adds { AddsNets 14 builder.old builder.new }
    ensures full { result ≡ Err NetFault.TooManyNets → 2 ^ 20 < length builder.old.lines + 14 }
{
    let comes = comes_now(builder, held, answer.valid)?;
    let coming = PlaceNets {
        full: comes,
        item: [answer.word, answer.code],
    };
    let oldest = show_oldest(builder, &held.words, &coming)?;
    let (wide, code) = both_nets(&oldest.item);
    Ok(Shown {
        comes,
        valid: oldest.full,
        wide,
        code,
    })
}

impl Link for Gather {
    type Held = GatherKept;

    ghost has_form = { λ s form. IsGatherForm s form };

    ghost is_straight = { λ s form. ⊥ };

    ghost runs = { λ s target up down. GatherRuns s target up down };

    ghost asks = { λ s target up end. AsksInWords s up end };

    ghost takes = { λ s widths. TakesWidths s widths };

    ghost gives = { λ s widths. given_widths s widths };

    ghost takes_words = { λ s bits. bits ≡ s.wide_bytes * 8 };

    ghost gives_words = { λ s bits. s.narrow_bytes * 8 };

    ghost command_nets = { λ s. 103 };

    ghost answer_nets = { λ s. 93 };

    ghost memories = { λ s. 4 };

    ghost owns = { λ kept n. owns_reads kept.held n };

    ghost owns_memories = { λ kept m. owns_read_memories kept.held m };

    ghost is_kept = { λ s kept netlist. GatherKeeps s kept netlist };

    ghost command_in = { λ s from to kept netlist. GatherCommand s from to kept netlist };

    ghost answer_in = { λ s kept wait answer up back netlist. GatherAnswer s kept wait answer up back netlist };

    #[tactic(auto, using(net_parts::specs::Laws::growing))]
    fn emit_command(
        &self,
        builder: &mut Builder,
        from: CommandNets,
    ) -> Result<(CommandNets, GatherKept), NetFault> {
        let lanes = lane_bits(self.wide_bytes);
        let first = lane_bits(self.narrow_bytes);
        let place = builder.slice(from.address, lanes - 1, first)?;
        let held = hold_reads(builder, place, from.count, self.wide_bytes * 8, self.reads)?;
        let shut = shut_bit(builder, &held, from.write)?;
        let to = sent_beat(builder, &from, shut, place, lanes)?;
        let kept = GatherKept {
            held,
            read: to.read,
            write: from.write,
            shut,
            place,
            count: from.count,
        };
        Ok((to, kept))
    }

    #[tactic(auto, using(net_parts::specs::Laws::growing))]
    fn emit_answer(
        &self,
        builder: &mut Builder,
        kept: GatherKept,
        wait: Net,
        answer: AnswerNets,
    ) -> Result<(Net, AnswerNets), NetFault> {
        let GatherKept {
            held,
            read,
            write,
            shut,
            place,
            count,
        } = kept;
        let up = either(builder, shut, wait)?;
        let shown = shown_word(builder, &held, &answer)?;
        let given = give_now(
            builder,
            &held,
            place,
            count,
            shown.valid,
            shown.wide,
            self.narrow_bytes,
        )?;
        let asks = asks_now(builder, read, write, wait)?;
        let steps = Steps {
            place,
            count,
            asks,
            word: answer.word,
            code: answer.code,
            comes: shown.comes,
            last: given.last,
            next: given.next,
        };
        move_reads(builder, &held, &steps)?;
        let back = AnswerNets {
            valid: shown.valid,
            word: given.word,
            code: shown.code,
        };
        Ok((up, back))
    }

    fn law(&self) {
        gather_is_a_link();
    }

    ghost kept_lasts = { λ s kept old new h e w v. gather_keeps_lasts s kept old new h e w v };

    ghost command_lasts = { λ s from to kept old new h e. gather_command_lasts s from to kept old new h e };

    ghost answer_lasts = { λ s kept wait answer up back old new h e. gather_answer_lasts s kept wait answer up back old new h e };
}
