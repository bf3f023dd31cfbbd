//! What the chosen asker shows.

ghost use Rattle.std.specs.Prelude.{◌≡◌, ℕ, ◌+◌, ◌-◌, ◌*◌, ◌^◌, ◌<◌, ◌≤◌, nat_le, ◌==◌, List, length, if◌then◌else◌, IfOk};
ghost use Rattle.histories.specs.History.{is_raised};
ghost use Rattle.netlist.specs.Runs.{Always};
ghost use Rattle.net_parts.specs.Nets.{IsNetOfWidth, IsBit};
ghost use Rattle.net_parts.specs.Groups.{group_widths};
ghost use Rattle.net_parts.specs.Growth.{AddsNets};
ghost use Rattle.command_nets.specs.Nets.{AreCommandNets, raw_in, group_of, ShowSame};
ghost use Rattle.command_nets.specs.Groups.{HaveSameWidths};
ghost use Rattle.mm_arbiter.specs.Depends.{AnyTwo, IsSame};
ghost use Rattle.mm_arbiter.specs.Shown.{AreAskers, AreCommands, HaveWidths, AreAlike, IsSeatOf, ShowAllSame};

use crate::asker::Asker;
use command_nets::{CommandNets, choose_command};
use net_parts::{choose, constant};
use netlist::{Builder, Net, NetFault};

/// What an asker shows, and the shares that it has left once a command of its has begun.
#[derive(Clone, Copy)]
pub(crate) struct SeatNets {
    pub command: CommandNets,
    pub spare: Net,
}

/// The nets of one asker.
#[tactic(auto, using(net_parts::specs::Laws::growing))]
fn seat_nets(
    builder: &mut Builder,
    asker: &Asker,
    command: &CommandNets,
) -> Result<SeatNets, NetFault>
    requires some { 1 ≤ asker.now.shares }
    requires few { asker.now.shares ≤ 63 }
    ensures same { IfOk result (λ made. made.command ≡ command.now) }
    ensures spare { IfOk result (λ made. IsNetOfWidth builder.new made.spare 6) }
    ensures value { IfOk result (λ made. Always builder.new (λ cycle. cycle.net made.spare.number ≡ asker.now.shares - 1)) }
    ensures adds { AddsNets 1 builder.old builder.new }
    ensures full { result ≡ Err NetFault.TooManyNets → 2 ^ 20 < length builder.old.lines + 1 }
{
    let spare = constant(builder, 6, asker.shares - 1)?;
    Ok(SeatNets {
        command: *command,
        spare,
    })
}

/// One of two: the first where the bit is set.
#[tactic(auto, using(net_parts::specs::Laws::growing))]
fn choose_seat(
    builder: &mut Builder,
    bit: Net,
    one: &SeatNets,
    other: &SeatNets,
) -> Result<SeatNets, NetFault>
    requires bit { IsBit builder.old bit }
    requires one { AreCommandNets builder.old one.now.command }
    requires other { AreCommandNets builder.old other.now.command }
    requires widths { HaveSameWidths one.now.command other.now.command }
    requires one_spare { IsNetOfWidth builder.old one.now.spare 6 }
    requires other_spare { IsNetOfWidth builder.old other.now.spare 6 }
    ensures command { IfOk result (λ made. AreCommandNets builder.new made.command) }
    ensures spare { IfOk result (λ made. IsNetOfWidth builder.new made.spare 6) }
    ensures widths { IfOk result (λ made. HaveSameWidths made.command one.now.command) }
    ensures value { IfOk result (λ made. Always builder.new (λ cycle. raw_in cycle made.command
        ≡ (if is_raised (cycle.net bit.number) then raw_in cycle one.now.command else raw_in cycle other.now.command))) }
    ensures spare_is { IfOk result (λ made. Always builder.new (λ cycle. cycle.net made.spare.number
        ≡ (if cycle.net bit.number == 0 then cycle.net other.now.spare.number else cycle.net one.now.spare.number))) }
    ensures adds { AddsNets 9 builder.old builder.new }
    ensures full { result ≡ Err NetFault.TooManyNets → 2 ^ 20 < length builder.old.lines + 9 }
{
    let command = choose_command(builder, bit, &one.command, &other.command)?;
    let spare = choose(builder, bit, one.spare, other.spare)?;
    Ok(SeatNets { command, spare })
}

/// Whether the one high bit is among those from this one on, below `to`.
#[tactic(auto, using(net_parts::specs::Laws::growing))]
fn is_from(builder: &mut Builder, bits: Net, count: u8, from: u8, to: u8) -> Result<Net, NetFault>
    requires bits { IsNetOfWidth builder.old bits count }
    requires order { from < to }
    requires within { to ≤ count }
    ensures net { IfOk result (λ here. IsBit builder.new here) }
    ensures value { IfOk result (λ here. Always builder.new (λ cycle. (k : ℕ) → k < to → cycle.net bits.number ≡ 2 ^ k
        → cycle.net here.number ≡ (if nat_le from k then 1 else 0))) }
    ensures reads { IfOk result (λ here. AnyTwo builder.new (λ one other. IsSame bits one other → IsSame here one other)) }
    ensures adds { AddsNets 2 builder.old builder.new }
    ensures full { result ≡ Err NetFault.TooManyNets → 2 ^ 20 < length builder.old.lines + 2 }
{
    let part = builder.slice(bits, to - 1, from)?;
    builder.any(part)
}

/// The nets of the asker that is chosen, among those from this one on, below `to`: the choices are a tree.
#[tactic(auto, using(net_parts::specs::Laws::growing))]
pub(crate) fn pick_seat(
    builder: &mut Builder,
    bits: Net,
    from: u8,
    to: u8,
    askers: &[Asker],
    commands: &[CommandNets],
) -> Result<SeatNets, NetFault>
    requires bits { IsNetOfWidth builder.old bits (length commands.now) }
    requires order { from < to }
    requires within { to ≤ length commands.now }
    requires same { length askers.now ≡ length commands.now }
    requires few { length commands.now ≤ 128 }
    requires askers { AreAskers askers.now }
    requires commands { AreCommands builder.old commands.now }
    requires alike { AreAlike commands.now }
    ensures command { IfOk result (λ made. AreCommandNets builder.new made.command) }
    ensures spare { IfOk result (λ made. IsNetOfWidth builder.new made.spare 6) }
    ensures widths { IfOk result (λ made. (widths : List ℕ) → HaveWidths widths commands.now
        → group_widths (group_of made.command) ≡ widths) }
    ensures value { IfOk result (λ made. Always builder.new (λ cycle. (k : ℕ) → from ≤ k → k < to → cycle.net bits.number ≡ 2 ^ k
        → IsSeatOf cycle made k askers.now commands.now)) }
    ensures reads { IfOk result (λ made. AnyTwo builder.new (λ one other. IsSame bits one other
        → ShowAllSame commands.now one other → ShowSame made.command one other)) }
    ensures adds { AddsNets (12 * (to - from) - 11) builder.old builder.new }
    ensures full { result ≡ Err NetFault.TooManyNets → 2 ^ 20 < length builder.old.lines + (12 * (to - from) - 11) }
{
    if to - from == 1 {
        return seat_nets(builder, &askers[from as usize], &commands[from as usize]);
    }
    let middle = from + (to - from) / 2;
    let low = pick_seat(builder, bits, from, middle, askers, commands)?;
    let high = pick_seat(builder, bits, middle, to, askers, commands)?;
    let upper = is_from(builder, bits, commands.len() as u8, middle, to)?;
    choose_seat(builder, upper, &high, &low)
}
