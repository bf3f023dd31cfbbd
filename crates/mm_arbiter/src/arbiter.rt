//! The two calls of an arbiter.

ghost use Rattle.std.specs.Prelude.{◌≡◌, ℕ, ◌+◌, ◌*◌, ◌^◌, ◌<◌, ◌≤◌, false, List, [], ◌∷◌, length, IfOk, OnOk};
ghost use Rattle.netlist.specs.Netlists.{IsWaiting};
ghost use Rattle.net_parts.specs.Groups.{group_widths};
ghost use Rattle.net_parts.specs.Growth.{GrowsBy, StillWait, WaitsBeside, WaitsWithout, AreMadeBetween};
ghost use Rattle.command_nets.specs.Nets.{AreCommandNets, group_of};
ghost use Rattle.mm_arbiter.specs.Shown.{AreAskers, AreCommands, HaveWidths, AreAlike};
ghost use Rattle.mm_arbiter.specs.Forward.{owns, ArbiterKeeps, ArbiterForward, arbiter_nets};
ghost use Rattle.mm_arbiter.specs.Backward.{AreBelowNets, lone_back, back_nets};
ghost use Rattle.mm_arbiter.specs.Backs.{HostsFit};
ghost use Rattle.mm_arbiter.specs.Machine.{seats_from, AreApart, BearsTag, ArbiterBackward, RunsAsArbiter};
ghost use Rattle.mm_arbiter.specs.Passes.{PassesOn};
ghost use Rattle.command_nets.specs.declared.nets.CommandNets.{CommandNets};

use crate::asker::Asker;
use crate::back::{BackNets, BelowNets, all_backs};
use crate::next::step_turns;
use crate::rounds::{RoundNets, make_round};
use command_nets::CommandNets;
use memory_parts::lines::lone_arbiter_is_a_wire;
use netlist::{Builder, NetFault};
use std::alloc::Global;

/// What is kept between the two calls.
#[derive(Clone, Copy)]
pub struct HeldArbiter {
    /// The command below.
    pub command: CommandNets,
    /// None where there is one asker alone.
    pub round: Option<RoundNets>,
}

/// The command that goes on to the agent: that of the asker whose turn it is, by weighted round robin over whole commands. One
/// asker alone needs no register and no choice.
///
/// `TooManyNets` comes where the module has no room for these nets. After an error the builder is to be dropped: registers may
/// stand in it that wait.
pub fn emit_arbiter(
    builder: &mut Builder,
    askers: &[Asker],
    commands: &[CommandNets],
) -> Result<(CommandNets, HeldArbiter), NetFault>
    requires some { 1 ≤ length commands.now }
    requires same { length askers.now ≡ length commands.now }
    requires few { length commands.now ≤ 128 }
    requires askers { AreAskers askers.now }
    requires commands { AreCommands builder.old commands.now }
    requires alike { AreAlike commands.now }
    ensures command { IfOk result (λ p. AreCommandNets builder.new p.0) }
    ensures widths { IfOk result (λ p. (widths : List ℕ) → HaveWidths widths commands.now
        → group_widths (group_of p.0) ≡ widths) }
    ensures kept { IfOk result (λ p. ArbiterKeeps p.1 (length commands.now) builder.new) }
    ensures owned { IfOk result (λ p. AreMadeBetween (owns p.1) builder.old builder.new) }
    ensures made { IfOk result (λ p. ArbiterForward askers.now commands.now p.0 p.1 builder.new) }
    ensures grows { GrowsBy (arbiter_nets (length commands.now)) builder.old builder.new }
    ensures waits { StillWait builder.old builder.new }
    ensures newly { IfOk result (λ p. WaitsBeside (owns p.1) builder.old builder.new) }

    // Memory may run out at any net.
    ensures full { result ≡ Err NetFault.TooManyNets → 2 ^ 20 < length builder.old.lines + arbiter_nets (length commands.now) }
{
    if commands.len() == 1 {
        let held = HeldArbiter {
            command: commands[0].copied(),
            round: None,
        };
        return Ok((commands[0], held));
    }
    let (command, round) = make_round(builder, askers, commands)?;
    let held = HeldArbiter {
        command: command.copied(),
        round: Some(round),
    };
    Ok((command, held))
}

/// What comes back to one asker alone.
fn back_to_one(alloc: Global, below: &BelowNets) -> Result<Vec<BackNets>, NetFault>
    ensures made { IfOk result (λ backs. backs.items ≡ lone_back below.now ∷ []) }
    ensures full { ¬ (result ≡ Err NetFault.TooManyNets) }
{
    let mut backs = Vec::new(alloc);
    backs.push(BackNets {
        wait: below.wait,
        answer: below.answer,
    })?;
    Ok(backs)
}

/// What comes back to each asker, in the order of the askers, and the next nets of the registers. Tags have `tag_bits` bits and
/// words `word_bits`.
///
/// `TooManyNets` comes where the module has no room for these nets. After an error the builder is to be dropped: registers may
/// stand in it that wait.
pub fn finish_arbiter(
    alloc: Global,
    builder: &mut Builder,
    held: &HeldArbiter,
    askers: &[Asker],
    below: &BelowNets,
    tag_bits: u8,
    word_bits: u8,
) -> Result<Vec<BackNets>, NetFault>
    requires held { ArbiterKeeps held.now (length askers.now) builder.old }
    requires some_askers { 1 ≤ length askers.now }
    requires few_askers { length askers.now ≤ 128 }
    requires below { AreBelowNets builder.old below.now tag_bits word_bits }
    requires some { 1 ≤ tag_bits }
    requires few { tag_bits ≤ 128 }
    requires hosts { HostsFit tag_bits askers.now }
    requires apart { AreApart (seats_from askers.now) }
    requires tag { BearsTag builder.old askers.now below.now }
    ensures count { IfOk result (λ backs. length backs.items ≡ length askers.now) }
    ensures made { IfOk result (λ backs. ArbiterBackward askers.now held.now below.now word_bits backs.items builder.new) }
    ensures machine { IfOk result (λ backs. (commands : List CommandNets) (command : CommandNets)
        → length commands ≡ length askers.now
        → ArbiterForward askers.now commands command held.now builder.new
        → RunsAsArbiter builder.new askers.now commands command below.now backs.items) }
    ensures passes { IfOk result (λ backs. (commands : List CommandNets) (command : CommandNets)
        → length commands ≡ length askers.now
        → ArbiterForward askers.now commands command held.now builder.new
        → PassesOn builder.new askers.now commands command below.now backs.items) }
    ensures grows { GrowsBy (back_nets (length askers.now)) builder.old builder.new }
    ensures waits { (n : ℕ) → ¬ owns held.now n → IsWaiting builder.old n → IsWaiting builder.new n }
    ensures no_more_wait { OnOk result (WaitsWithout (owns held.now) builder.old builder.new) }

    // Memory may run out at any net.
    ensures full { result ≡ Err NetFault.TooManyNets → 2 ^ 20 < length builder.old.lines + back_nets (length askers.now) }
{
    lone_arbiter_is_a_wire();
    match held.round {
        None => back_to_one(alloc, below),
        Some(round) => {
            let count = askers.len() as u8;
            step_turns(builder, &round, &held.command, below.wait, count)?;
            let chosen = round.chosen.seat;
            all_backs(alloc, builder, chosen, askers, below, tag_bits, word_bits)
        }
    }
}
