//! What comes back to each asker.

ghost use Rattle.std.specs.Prelude.{◌≡◌, ◌+◌, ◌*◌, ◌^◌, ◌<◌, ◌≤◌, ◌||◌, length, map, get_or, IfOk};
ghost use Rattle.histories.specs.History.{is_raised};
ghost use Rattle.netlist.specs.Runs.{Always};
ghost use Rattle.net_parts.specs.Nets.{IsNetOfWidth, IsBit};
ghost use Rattle.net_parts.specs.Growth.{AddsNets};
ghost use Rattle.mm_arbiter.specs.Backward.{AreBelowNets, WaitsAt, ComesTo, IsBackOf, AreBacks};
ghost use Rattle.mm_arbiter.specs.Backs.{HostsFit};

use crate::asker::Asker;
use command_nets::{AnswerNets, either};
use net_parts::constant;
use netlist::{Builder, Net, NetFault};
use std::alloc::Global;

/// What comes back from below.
#[derive(Clone, Copy)]
pub struct BelowNets {
    /// One bit: `waitrequest`.
    pub wait: Net,
    pub answer: AnswerNets,
    /// The tag of the answer.
    pub tag: Net,
}

/// What comes back to an asker.
#[derive(Clone, Copy)]
pub struct BackNets {
    /// One bit: `waitrequest`.
    pub wait: Net,
    pub answer: AnswerNets,
}

/// A seat waits where it isn't chosen, or where the command below stalls.
#[tactic(auto, using(net_parts::specs::Laws::growing))]
fn other_or_stalled(builder: &mut Builder, other: Net, stall: Net) -> Result<Net, NetFault>
    requires other { IsBit builder.old other }
    requires stall { IsBit builder.old stall }
    ensures net { IfOk result (λ wait. IsBit builder.new wait) }
    ensures value { IfOk result (λ wait. Always builder.new (λ cycle. is_raised (cycle.net wait.number)
        ≡ (is_raised (cycle.net other.number) || is_raised (cycle.net stall.number)))) }
    ensures adds { AddsNets 1 builder.old builder.new }
    ensures full { result ≡ Err NetFault.TooManyNets → 2 ^ 20 < length builder.old.lines + 1 }
{
    either(builder, other, stall)
}

/// The wait of the asker of a seat.
#[tactic(auto, using(net_parts::specs::Laws::growing))]
fn wait_at(
    builder: &mut Builder,
    chosen: Net,
    count: u8,
    seat: u8,
    below: &BelowNets,
    tag_bits: u8,
    word_bits: u8,
) -> Result<Net, NetFault>
    requires chosen { IsNetOfWidth builder.old chosen count }
    requires seat { seat < count }
    requires below { AreBelowNets builder.old below.now tag_bits word_bits }
    ensures net { IfOk result (λ wait. IsBit builder.new wait) }
    ensures value { IfOk result (λ wait. Always builder.new (λ cycle. WaitsAt cycle chosen seat below.now wait)) }
    ensures adds { AddsNets 3 builder.old builder.new }
    ensures full { result ≡ Err NetFault.TooManyNets → 2 ^ 20 < length builder.old.lines + 3 }
{
    let here = builder.slice(chosen, seat, seat)?;
    let other = builder.not(here)?;
    other_or_stalled(builder, other, below.wait)
}

/// The tag of a host.
#[tactic(auto, using(net_parts::specs::Laws::growing))]
fn host_tag(builder: &mut Builder, host: u8, tag_bits: u8) -> Result<Net, NetFault>
    requires some { 1 ≤ tag_bits }
    requires few { tag_bits ≤ 128 }
    requires host { host < 2 ^ tag_bits }
    ensures net { IfOk result (λ tag. IsNetOfWidth builder.new tag tag_bits) }
    ensures value { IfOk result (λ tag. Always builder.new (λ cycle. cycle.net tag.number ≡ host)) }
    ensures adds { AddsNets 1 builder.old builder.new }
    ensures full { result ≡ Err NetFault.TooManyNets → 2 ^ 20 < length builder.old.lines + 1 }
{
    constant(builder, tag_bits, host)
}

/// Whether a word comes for a host.
#[tactic(auto, using(net_parts::specs::Laws::growing))]
fn valid_for(
    builder: &mut Builder,
    host: u8,
    below: &BelowNets,
    tag_bits: u8,
    word_bits: u8,
) -> Result<Net, NetFault>
    requires below { AreBelowNets builder.old below.now tag_bits word_bits }
    requires some { 1 ≤ tag_bits }
    requires few { tag_bits ≤ 128 }
    requires host { host < 2 ^ tag_bits }
    ensures net { IfOk result (λ valid. IsBit builder.new valid) }
    ensures value { IfOk result (λ valid. Always builder.new (λ cycle. ComesTo cycle host below.now valid)) }
    ensures adds { AddsNets 3 builder.old builder.new }
    ensures full { result ≡ Err NetFault.TooManyNets → 2 ^ 20 < length builder.old.lines + 3 }
{
    let number = host_tag(builder, host, tag_bits)?;
    let mine = builder.eq(below.tag, number)?;
    builder.and(below.answer.valid, mine)
}

/// What comes back to the asker of a seat.
#[tactic(auto, using(net_parts::specs::Laws::growing))]
fn back_at(
    builder: &mut Builder,
    chosen: Net,
    count: u8,
    seat: u8,
    host: u8,
    below: &BelowNets,
    tag_bits: u8,
    word_bits: u8,
) -> Result<BackNets, NetFault>
    requires chosen { IsNetOfWidth builder.old chosen count }
    requires seat { seat < count }
    requires below { AreBelowNets builder.old below.now tag_bits word_bits }
    requires some { 1 ≤ tag_bits }
    requires few { tag_bits ≤ 128 }
    requires host { host < 2 ^ tag_bits }
    ensures made { IfOk result (λ back. IsBackOf builder.new chosen below.now word_bits seat host back) }
    ensures adds { AddsNets 6 builder.old builder.new }
    ensures full { result ≡ Err NetFault.TooManyNets → 2 ^ 20 < length builder.old.lines + 6 }
{
    let wait = wait_at(builder, chosen, count, seat, below, tag_bits, word_bits)?;
    let valid = valid_for(builder, host, below, tag_bits, word_bits)?;
    Ok(BackNets {
        wait,
        answer: AnswerNets {
            valid,
            word: below.answer.word,
            code: below.answer.code,
        },
    })
}

/// What comes back to each asker, in the order of the seats.
#[tactic(auto, using(net_parts::specs::Laws::growing))]
pub(crate) fn all_backs(
    alloc: Global,
    builder: &mut Builder,
    chosen: Net,
    askers: &[Asker],
    below: &BelowNets,
    tag_bits: u8,
    word_bits: u8,
) -> Result<Vec<BackNets>, NetFault>
    requires chosen { IsNetOfWidth builder.old chosen (length askers.now) }
    requires few_askers { length askers.now ≤ 128 }
    requires below { AreBelowNets builder.old below.now tag_bits word_bits }
    requires some { 1 ≤ tag_bits }
    requires few { tag_bits ≤ 128 }
    requires hosts { HostsFit tag_bits askers.now }
    ensures count { IfOk result (λ backs. length backs.items ≡ length askers.now) }
    ensures made { IfOk result (λ backs. AreBacks builder.new chosen below.now word_bits 0 askers.now backs.items) }
    ensures adds { AddsNets (6 * length askers.now) builder.old builder.new }
    ensures full { result ≡ Err NetFault.TooManyNets → 2 ^ 20 < length builder.old.lines + 6 * length askers.now }
{
    let mut backs = Vec::new(alloc);
    let count = askers.len() as u8;
    for seat in 0..count {
        let host = askers[seat as usize].host;
        let back = back_at(
            builder, chosen, count, seat, host, below, tag_bits, word_bits,
        )?;
        backs.push(back)?;
    }
    Ok(backs)
}
