//! The next nets of the registers of the turns.

ghost use Rattle.std.specs.Prelude.{◌≡◌, ℕ, ◌+◌, ◌^◌, ◌<◌, ◌≤◌, ◌||◌, if◌then◌else◌, length, IfOk, OnOk};
ghost use Rattle.histories.specs.History.{is_raised};
ghost use Rattle.netlist.specs.Netlists.{IsWaiting};
ghost use Rattle.netlist.specs.Runs.{Always};
ghost use Rattle.net_parts.specs.Nets.{IsBit};
ghost use Rattle.net_parts.specs.Growth.{AddsNets, GrowsBy, WaitsWithout};
ghost use Rattle.command_nets.specs.Nets.{AreCommandNets};
ghost use Rattle.mm_arbiter.specs.Rounds.{RoundKeeps, owned_by};
ghost use Rattle.mm_arbiter.specs.Forward.{KeepsRound};
ghost use Rattle.mm_arbiter.specs.Backward.{IsStep, EachStep};

use crate::rounds::RoundNets;
use command_nets::{CommandNets, either};
use net_parts::{choose, set_all_next};
use netlist::{Builder, Net, NetFault};

/// Whether a command is open after its beat: the beat waits, or has `more` high.
#[tactic(auto, using(net_parts::specs::Laws::growing))]
fn stays_open(builder: &mut Builder, command: &CommandNets, wait: Net) -> Result<Net, NetFault>
    requires command { AreCommandNets builder.old command.now }
    requires wait { IsBit builder.old wait }
    ensures net { IfOk result (λ stands. IsBit builder.new stands) }
    ensures value { IfOk result (λ stands. Always builder.new (λ cycle. is_raised (cycle.net stands.number)
        ≡ (is_raised (cycle.net wait.number) || is_raised (cycle.net command.now.more.number)))) }
    ensures adds { AddsNets 1 builder.old builder.new }
    ensures full { result ≡ Err NetFault.TooManyNets → 2 ^ 20 < length builder.old.lines + 1 }
{
    either(builder, wait, command.more)
}

/// Whether a command is open after a cycle: where a beat is shown, whether it waits or has `more` high.
#[tactic(auto, using(net_parts::specs::Laws::growing))]
fn next_inside(
    builder: &mut Builder,
    round: &RoundNets,
    command: &CommandNets,
    wait: Net,
    count: u8,
) -> Result<Net, NetFault>
    requires round { RoundKeeps round.now count builder.old }
    requires command { AreCommandNets builder.old command.now }
    requires wait { IsBit builder.old wait }
    ensures net { IfOk result (λ inside. IsBit builder.new inside) }
    ensures value { IfOk result (λ inside. Always builder.new (λ cycle. is_raised (cycle.net inside.number)
        ≡ (if is_raised (cycle.net round.now.chosen.some.number)
        then is_raised (cycle.net wait.number) || is_raised (cycle.net command.now.more.number)
        else is_raised (cycle.net round.now.turns.inside.number)))) }
    ensures adds { AddsNets 2 builder.old builder.new }
    ensures full { result ≡ Err NetFault.TooManyNets → 2 ^ 20 < length builder.old.lines + 2 }
{
    let stands = stays_open(builder, command, wait)?;
    choose(builder, round.chosen.some, stands, round.turns.inside)
}

/// Gives the registers their next nets.
#[tactic(auto, using(net_parts::specs::Laws::growing))]
pub(crate) fn step_turns(
    builder: &mut Builder,
    round: &RoundNets,
    command: &CommandNets,
    wait: Net,
    count: u8,
) -> Result<(), NetFault>
    requires round { KeepsRound count builder.old round.now }
    requires command { AreCommandNets builder.old command.now }
    requires wait { IsBit builder.old wait }
    ensures value { OnOk result (EachStep builder.new (IsStep round.now command.now wait)) }
    ensures grows { GrowsBy 2 builder.old builder.new }
    ensures waits { (n : ℕ) → ¬ owned_by round.now n → IsWaiting builder.old n → IsWaiting builder.new n }
    ensures no_more_wait { OnOk result (WaitsWithout (owned_by round.now) builder.old builder.new) }
    ensures full { result ≡ Err NetFault.TooManyNets → 2 ^ 20 < length builder.old.lines + 2 }
{
    let turns = &round.turns;
    let inside = next_inside(builder, round, command, wait, count)?;
    let group = [turns.holder, turns.left, turns.inside];
    set_all_next(builder, &group, &[round.holder, round.left, inside]);
    Ok(())
}
