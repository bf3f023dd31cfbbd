//! The two calls of a route that is a wire: one agent alone has the whole range of the host, so nothing is to be chosen.

ghost use Rattle.std.specs.Prelude.{◌≡◌, ℕ, ◌+◌, ◌^◌, ◌<◌, ◌≤◌, not, ◌&&◌, ◌||◌, [], ◌∷◌, length, IfOk, OnOk};
ghost use Rattle.histories.specs.History.{is_raised};
ghost use Rattle.netlist.specs.Netlists.{IsWaiting};
ghost use Rattle.netlist.specs.Runs.{Always};
ghost use Rattle.net_parts.specs.Nets.{IsBit, StartsLow};
ghost use Rattle.net_parts.specs.Growth.{AddsNets, GrowsBy, StillWait, WaitsBeside, WaitsWithout, AreMadeBetween};
ghost use Rattle.command_nets.specs.Nets.{AreCommandNets, AreAnswerNets};
ghost use Rattle.mm_route.specs.Shown.{AreCommandsOf, widths_below};
ghost use Rattle.mm_route.specs.Taken.{reads_in};
ghost use Rattle.mm_route.specs.Wire.{WireKeeps, WireBackward, below_wire};

use crate::back::BackNets;
use command_nets::{AnswerNets, CommandNets, both, either, register, take_next, unless};
use net_parts::constant;
use netlist::{Builder, Net, NetFault};
use std::alloc::Global;

/// What is kept of a wire between the two calls.
#[derive(Clone, Copy)]
pub struct HeldWire {
    /// One bit, a register that is low at first: a read was taken.
    pub owing: Net,
    /// The host's number.
    pub tag: Net,
    /// The command above.
    pub command: CommandNets,
}

/// The command below: the one above, with the host's number as its tag.
pub(crate) fn emit_wire(
    alloc: Global,
    builder: &mut Builder,
    host: u8,
    tag_bits: u8,
    command: CommandNets,
) -> Result<(Vec<CommandNets>, HeldWire), NetFault>
    requires some_tag { 1 ≤ tag_bits }
    requires small_tag { tag_bits ≤ 128 }
    requires host { host < 2 ^ tag_bits }
    requires command { AreCommandNets builder.old command }
    ensures only { IfOk result (λ p. p.0.items ≡ below_wire p.1 ∷ []) }
    ensures commands { IfOk result (λ p. AreCommandsOf builder.new (widths_below command tag_bits) p.0.items) }
    ensures command_is { IfOk result (λ p. p.1.command ≡ command) }
    ensures kept { IfOk result (λ p. WireKeeps p.1 1 builder.new) }
    ensures owned { IfOk result (λ p. AreMadeBetween (λ n. n ≡ p.1.owing.number) builder.old builder.new) }
    ensures starts { IfOk result (λ p. StartsLow builder.new p.1.owing) }
    ensures tag { IfOk result (λ p. Always builder.new (λ cycle. cycle.net p.1.tag.number ≡ host)) }
    ensures grows { GrowsBy 2 builder.old builder.new }
    ensures waits { StillWait builder.old builder.new }
    ensures newly { IfOk result (λ p. WaitsBeside (λ n. n ≡ p.1.owing.number) builder.old builder.new) }
    ensures full { result ≡ Err NetFault.TooManyNets → 2 ^ 20 < length builder.old.lines + 2 }
{
    let owing = register(builder, 1)?;
    let tag = constant(builder, tag_bits, host)?;
    let mut commands = Vec::new(alloc);
    commands.push(CommandNets { tag, ..command })?;
    Ok((
        commands,
        HeldWire {
            owing,
            tag,
            command,
        },
    ))
}

/// Words are owed from the first read on.
#[tactic(auto, using(net_parts::specs::Laws::growing))]
fn owes_on(builder: &mut Builder, owing: Net, taken: Net) -> Result<Net, NetFault>
    requires owing { IsBit builder.old owing }
    requires taken { IsBit builder.old taken }
    ensures net { IfOk result (λ next. IsBit builder.new next) }
    ensures value { IfOk result (λ next. Always builder.new (λ cycle. is_raised (cycle.net next.number)
        ≡ (is_raised (cycle.net owing.number) || is_raised (cycle.net taken.number)))) }
    ensures adds { AddsNets 1 builder.old builder.new }
    ensures full { result ≡ Err NetFault.TooManyNets → 2 ^ 20 < length builder.old.lines + 1 }
{
    either(builder, owing, taken)
}

/// Whether a read was taken before, or is taken now.
#[tactic(auto, using(net_parts::specs::Laws::growing))]
fn next_owing(builder: &mut Builder, wire: &HeldWire, wait: Net) -> Result<Net, NetFault>
    requires owing { IsBit builder.old wire.now.owing }
    requires command { AreCommandNets builder.old wire.now.command }
    requires wait { IsBit builder.old wait }
    ensures net { IfOk result (λ next. IsBit builder.new next) }
    ensures value { IfOk result (λ next. Always builder.new (λ cycle. is_raised (cycle.net next.number)
        ≡ (is_raised (cycle.net wire.now.owing.number) || reads_in cycle wire.now.command wait))) }
    ensures adds { AddsNets 3 builder.old builder.new }
    ensures full { result ≡ Err NetFault.TooManyNets → 2 ^ 20 < length builder.old.lines + 3 }
{
    let taken = unless(builder, wire.command.read, wait)?;
    owes_on(builder, wire.owing, taken)
}

/// A word of the agent comes above once a read was taken.
#[tactic(auto, using(net_parts::specs::Laws::growing))]
fn owed_word(builder: &mut Builder, owing: Net, valid: Net) -> Result<Net, NetFault>
    requires owing { IsBit builder.old owing }
    requires valid { IsBit builder.old valid }
    ensures net { IfOk result (λ comes. IsBit builder.new comes) }
    ensures value { IfOk result (λ comes. Always builder.new (λ cycle. is_raised (cycle.net comes.number)
        ≡ (is_raised (cycle.net owing.number) && is_raised (cycle.net valid.number)))) }
    ensures adds { AddsNets 1 builder.old builder.new }
    ensures full { result ≡ Err NetFault.TooManyNets → 2 ^ 20 < length builder.old.lines + 1 }
{
    both(builder, owing, valid)
}

/// The wait and the words above, from those of the agent. Its words count once a read was taken.
#[tactic(auto, using(net_parts::specs::Laws::growing))]
pub(crate) fn finish_wire(
    builder: &mut Builder,
    wire: &HeldWire,
    back: &BackNets,
    word_bits: u8,
) -> Result<(Net, AnswerNets), NetFault>
    requires wire { WireKeeps wire.now 1 builder.old }
    requires wait { IsBit builder.old back.now.wait }
    requires answer { AreAnswerNets builder.old back.now.answer word_bits }
    ensures wait { IfOk result (λ p. IsBit builder.new p.0) }
    ensures answer { IfOk result (λ p. AreAnswerNets builder.new p.1 word_bits) }
    ensures made { IfOk result (λ p. WireBackward wire.now (back.now ∷ []) p.0 p.1 builder.new) }
    ensures grows { GrowsBy 4 builder.old builder.new }
    ensures waits { (n : ℕ) → ¬ (n ≡ wire.now.owing.number) → IsWaiting builder.old n → IsWaiting builder.new n }
    ensures no_more_wait { OnOk result (WaitsWithout (λ n. n ≡ wire.now.owing.number) builder.old builder.new) }
    ensures full { result ≡ Err NetFault.TooManyNets → 2 ^ 20 < length builder.old.lines + 4 }
{
    let valid = owed_word(builder, wire.owing, back.answer.valid)?;
    let next = next_owing(builder, wire, back.wait)?;
    take_next(builder, wire.owing, next);
    let answer = AnswerNets {
        valid,
        ..back.answer
    };
    Ok((back.wait, answer))
}
