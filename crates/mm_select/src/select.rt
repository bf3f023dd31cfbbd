//! A lane selector: commands of one beat go from narrow words to the wide words that hold them, and each answer is cut out of
//! its wide word. The address is that of the wide word, the word stands on each of its places, and the byte enables on the
//! beat's own. The places of the reads under way wait in a queue. Its law is that of `select_is_a_link`.

ghost use Rattle.std.specs.Prelude.{◌≡◌, ℕ, ◌+◌, ◌-◌, ◌*◌, ◌/◌, ◌%◌, ◌^◌, ◌<◌, ◌≤◌, not, ◌&&◌, ◌||◌, nat_lt, length, if◌then◌else◌, IfOk, OnOk};
ghost use Rattle.histories.specs.History.{is_raised};
ghost use Rattle.netlist.specs.Netlists.{IsNet};
ghost use Rattle.netlist.specs.Runs.{Always};
ghost use Rattle.net_parts.specs.Nets.{IsBit, IsNetOfWidth};
ghost use Rattle.net_parts.specs.Growth.{AddsNets};
ghost use Rattle.command_nets.specs.Nets.{AreCommandNets, widths_of, raw_in};
ghost use Rattle.memory_links.specs.Selects.{repeated};
ghost use Rattle.item_queues.specs.Queues.{owns, owns_memories};
ghost use Rattle.mm_select.specs.SelectNets.{IsSelectForm, SelectRuns, TakesWidths, given_widths, SelectKeeps, SelectCommand, SelectAnswer, IsSentCommand, is_asked, select_keeps_lasts, select_command_lasts, select_answer_lasts};

use crate::places::{raise_to, repeat};
use crate::queue::{goes_now, take_oldest};
use command_nets::{AnswerNets, CommandNets, either, lane_bits, unless};
use item_queues::{ItemQueue, finish_queue, make_queue};
use link_core::Link;
use memory_links::widths::select_is_a_link;
use net_parts::{constant, is_above};
use netlist::{Builder, Net, NetFault};

/// A link from words of so many bytes to words of so many more, through which so many reads may be under way.
#[derive(Clone, Copy)]
pub struct Select {
    pub narrow_bytes: u8,
    pub wide_bytes: u8,
    pub reads: u8,
}

/// The queue of places, and nets of the command.
#[derive(Clone, Copy)]
pub struct SelectKept {
    /// The places of the reads under way.
    pub queue: ItemQueue<1>,
    /// The read that is shown downstream.
    pub read: Net,
    pub write: Net,
    /// The queue is full, and no write is shown.
    pub shut: Net,
    /// The place of the beat in its wide word.
    pub place: Net,
}

/// The address of the word that holds it, of two to so many bytes.
pub fn align(builder: &mut Builder, address: Net, lanes: u8) -> Result<Net, NetFault>
    requires address { IsNet builder.old address }
    requires some { 1 ≤ lanes }
    requires reach { lanes ≤ address.width }
    ensures net { IfOk result (λ aligned. IsNetOfWidth builder.new aligned address.width) }
    ensures value { IfOk result (λ aligned. Always builder.new (λ cycle. cycle.net aligned.number
        ≡ cycle.net address.number / 2 ^ lanes * 2 ^ lanes)) }
    ensures adds { AddsNets 3 builder.old builder.new }
    ensures full { result ≡ Err NetFault.TooManyNets → 2 ^ 20 < length builder.old.lines + 3 }
{
    let width = builder.width(address);
    let low = constant(builder, lanes, 0)?;
    if lanes == width {
        return Ok(low);
    }
    let high = builder.slice(address, width - 1, lanes)?;
    builder.concat(high, low)
}

/// Whether a read is held back: so many are under way, and no write is shown.
fn shut_bit(builder: &mut Builder, count: Net, write: Net, reads: u8) -> Result<Net, NetFault>
    requires count { IsNet builder.old count }
    requires write { IsBit builder.old write }
    requires some { 1 ≤ reads }
    requires wide { reads < 2 ^ count.width }
    ensures net { IfOk result (λ shut. IsBit builder.new shut) }
    ensures value { IfOk result (λ shut. Always builder.new (λ cycle. is_raised (cycle.net shut.number)
        ≡ (not (is_raised (cycle.net write.number)) && not (nat_lt (cycle.net count.number) reads)))) }
    ensures adds { AddsNets 4 builder.old builder.new }
    ensures full { result ≡ Err NetFault.TooManyNets → 2 ^ 20 < length builder.old.lines + 4 }
{
    let bits = builder.width(count);
    let full = is_above(builder, count, bits, u32::from(reads - 1))?;
    unless(builder, full, write)
}

/// The beat of the wide word, whose place is `place`.
fn sent_command(
    builder: &mut Builder,
    from: &CommandNets,
    shut: Net,
    place: Net,
    lanes: u8,
) -> Result<CommandNets, NetFault>
    requires from { AreCommandNets builder.old from.now }
    requires shut { IsBit builder.old shut }
    requires place { IsNet builder.old place }
    requires some { 1 ≤ lanes }
    requires few_places { place.width ≤ 4 }
    requires reach { lanes ≤ from.now.address.width }
    requires word { from.now.word.width * 2 ^ place.width ≤ 128 }
    requires enables { from.now.enables.width * 2 ^ place.width ≤ 128 }
    ensures command { IfOk result (λ to. AreCommandNets builder.new to) }
    ensures sent { IfOk result (λ to. IsSentCommand builder.new from.now to shut place lanes) }
    ensures adds { AddsNets 34 builder.old builder.new }
    ensures full { result ≡ Err NetFault.TooManyNets → 2 ^ 20 < length builder.old.lines + 34 }
{
    let places = builder.width(place);
    let count_bits = builder.width(from.count);
    let read = unless(builder, from.read, shut)?;
    let address = align(builder, from.address, lanes)?;
    let word = repeat(builder, from.word, places)?;
    let enables = raise_to(builder, from.enables, place, places)?;
    let count = constant(builder, count_bits, 1)?;
    Ok(CommandNets {
        read,
        write: from.write,
        address,
        word,
        enables,
        count,
        more: from.more,
        tag: from.tag,
    })
}

/// Whether a read is taken.
pub fn asks_now(builder: &mut Builder, read: Net, write: Net, wait: Net) -> Result<Net, NetFault>
    requires read { IsBit builder.old read }
    requires write { IsBit builder.old write }
    requires wait { IsBit builder.old wait }
    ensures net { IfOk result (λ asks. IsBit builder.new asks) }
    ensures value { IfOk result (λ asks. Always builder.new (λ cycle. is_raised (cycle.net asks.number)
        ≡ is_asked cycle read write wait)) }
    ensures adds { AddsNets 4 builder.old builder.new }
    ensures full { result ≡ Err NetFault.TooManyNets → 2 ^ 20 < length builder.old.lines + 4 }
{
    let reads = unless(builder, read, write)?;
    unless(builder, reads, wait)
}

impl Link for Select {
    type Held = SelectKept;

    ghost has_form = { λ s form. IsSelectForm s form };

    ghost is_straight = { λ s form. ⊥ };

    ghost runs = { λ s target up down. SelectRuns s target up down };

    ghost asks = { λ s target up end. Unit {0} };

    ghost takes = { λ s widths. TakesWidths s widths };

    ghost gives = { λ s widths. given_widths s widths };

    ghost takes_words = { λ s bits. bits ≡ s.wide_bytes * 8 };

    ghost gives_words = { λ s bits. s.narrow_bytes * 8 };

    ghost command_nets = { λ s. 43 };

    ghost answer_nets = { λ s. 48 };

    ghost memories = { λ s. 1 };

    ghost owns = { λ kept n. owns kept.queue n };

    ghost owns_memories = { λ kept m. owns_memories kept.queue m };

    ghost is_kept = { λ s kept netlist. SelectKeeps s kept netlist };

    ghost command_in = { λ s from to kept netlist. SelectCommand s from to kept netlist };

    ghost answer_in = { λ s kept wait answer up back netlist. SelectAnswer s kept wait answer up back netlist };

    #[tactic(auto, using(net_parts::specs::Laws::growing))]
    fn emit_command(
        &self,
        builder: &mut Builder,
        from: CommandNets,
    ) -> Result<(CommandNets, SelectKept), NetFault> {
        let lanes = lane_bits(self.wide_bytes);
        let first = lane_bits(self.narrow_bytes);
        let place = builder.slice(from.address, lanes - 1, first)?;
        let queue = make_queue(builder, &[place], self.reads)?;
        let shut = shut_bit(builder, queue.count, from.write, self.reads)?;
        let to = sent_command(builder, &from, shut, place, lanes)?;
        let kept = SelectKept {
            queue,
            read: to.read,
            write: from.write,
            shut,
            place,
        };
        Ok((to, kept))
    }

    #[tactic(auto, using(net_parts::specs::Laws::growing))]
    fn emit_answer(
        &self,
        builder: &mut Builder,
        kept: SelectKept,
        wait: Net,
        answer: AnswerNets,
    ) -> Result<(Net, AnswerNets), NetFault> {
        let SelectKept {
            queue,
            read,
            write,
            shut,
            place,
        } = kept;
        let up = either(builder, shut, wait)?;
        let word = take_oldest(builder, &queue, place, answer.word, self.narrow_bytes * 8)?;
        let asks = asks_now(builder, read, write, wait)?;
        let goes = goes_now(builder, queue.count, answer.valid)?;
        finish_queue(builder, &queue, &[place], asks, goes)?;
        let back = AnswerNets {
            valid: answer.valid,
            word,
            code: answer.code,
        };
        Ok((up, back))
    }

    fn law(&self) {
        select_is_a_link();
    }

    ghost kept_lasts = { λ s kept old new h e w v. select_keeps_lasts s kept old new h e w v };

    ghost command_lasts = { λ s from to kept old new h e. select_command_lasts s from to kept old new h e };

    ghost answer_lasts = { λ s kept wait answer up back old new h e. select_answer_lasts s kept wait answer up back old new h e };
}
