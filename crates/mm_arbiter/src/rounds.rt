//! The command below, and the round after a cycle.

ghost use Rattle.std.specs.Prelude.{◌≡◌, ℕ, ◌+◌, ◌-◌, ◌*◌, ◌^◌, ◌<◌, ◌≤◌, ◌==◌, true, List, length, if◌then◌else◌, IfOk};
ghost use Rattle.histories.specs.History.{is_raised};
ghost use Rattle.netlist.specs.Runs.{Always};
ghost use Rattle.net_parts.specs.Nets.{IsNetOfWidth, IsBit};
ghost use Rattle.net_parts.specs.Groups.{InGroup, AreWaiting, group_widths};
ghost use Rattle.net_parts.specs.Growth.{AddsNets, GrowsBy, StillWait, WaitsBeside, AreMadeBetween};
ghost use Rattle.command_nets.specs.Nets.{AreCommandNets, group_of, ShowSame};
ghost use Rattle.mm_arbiter.specs.Depends.{AnyTwo, IsSame};
ghost use Rattle.mm_arbiter.specs.Shown.{AreAskers, AreCommands, HaveWidths, AreAlike, ShowAllSame};
ghost use Rattle.mm_arbiter.specs.Turns.{AreTurnNets, TurnsStart, turns_of};
ghost use Rattle.mm_arbiter.specs.Rounds.{AreChosenNets, ShowsSeat, HidesAll, IsNextTurn, RoundKeeps, RoundForward, ShowsByTurns, owned_by};

use crate::asker::Asker;
use crate::choice::{ChosenNets, choose_asker};
use crate::pick::{SeatNets, pick_seat};
use crate::turns::{TurnNets, make_turns};
use command_nets::{CommandNets, shown_while};
use net_parts::{choose, constant};
use netlist::{Builder, Net, NetFault};

/// What the registers of an arbiter take, and what is chosen.
#[derive(Clone, Copy)]
pub struct RoundNets {
    pub turns: TurnNets,
    pub chosen: ChosenNets,
    /// What `turns.holder` takes next.
    pub holder: Net,
    /// What `turns.left` takes next.
    pub left: Net,
}

/// What the chosen asker shows; no beat where nobody is chosen.
#[tactic(auto, using(net_parts::specs::Laws::growing))]
fn show_chosen(
    builder: &mut Builder,
    chosen: &ChosenNets,
    askers: &[Asker],
    commands: &[CommandNets],
) -> Result<SeatNets, NetFault>
    requires chosen { AreChosenNets builder.old chosen.now (length commands.now) }
    requires some { 1 ≤ length commands.now }
    requires same { length askers.now ≡ length commands.now }
    requires few { length commands.now ≤ 128 }
    requires askers { AreAskers askers.now }
    requires commands { AreCommands builder.old commands.now }
    requires alike { AreAlike commands.now }
    ensures command { IfOk result (λ made. AreCommandNets builder.new made.command) }
    ensures spare { IfOk result (λ made. IsNetOfWidth builder.new made.spare 6) }
    ensures widths { IfOk result (λ made. (widths : List ℕ) → HaveWidths widths commands.now
        → group_widths (group_of made.command) ≡ widths) }
    ensures shows { IfOk result (λ made. Always builder.new (λ cycle. (k : ℕ) → k < length commands.now
        → cycle.net chosen.now.seat.number ≡ 2 ^ k → ShowsSeat cycle chosen.now.some made askers.now commands.now k)) }
    ensures hides { IfOk result (λ made. Always builder.new (λ cycle. HidesAll cycle chosen.now.some made.command)) }
    ensures reads { IfOk result (λ made. AnyTwo builder.new (λ one other. IsSame chosen.now.seat one other
        → IsSame chosen.now.some one other → ShowAllSame commands.now one other → ShowSame made.command one other)) }
    ensures adds { AddsNets (2 + 12 * length commands.now) builder.old builder.new }
    ensures full { result ≡ Err NetFault.TooManyNets → 2 ^ 20 < length builder.old.lines + (2 + 12 * length commands.now) }
{
    let count = commands.len() as u8;
    let picked = pick_seat(builder, chosen.seat, 0, count, askers, commands)?;
    let command = shown_while(builder, chosen.some, &picked.command)?;
    Ok(SeatNets {
        command,
        spare: picked.spare,
    })
}

/// The shares of the one that begins; none where nobody does.
#[tactic(auto, using(net_parts::specs::Laws::growing))]
fn begun_shares(
    builder: &mut Builder,
    chosen: &ChosenNets,
    spare: Net,
    none: Net,
    count: u8,
) -> Result<Net, NetFault>
    requires chosen { AreChosenNets builder.old chosen.now count }
    requires spare { IsNetOfWidth builder.old spare 6 }
    requires none { IsNetOfWidth builder.old none 6 }
    ensures net { IfOk result (λ begun. IsNetOfWidth builder.new begun 6) }
    ensures value { IfOk result (λ begun. Always builder.new (λ cycle. cycle.net begun.number
        ≡ (if cycle.net chosen.now.some.number == 0 then cycle.net none.number else cycle.net spare.number))) }
    ensures adds { AddsNets 1 builder.old builder.new }
    ensures full { result ≡ Err NetFault.TooManyNets → 2 ^ 20 < length builder.old.lines + 1 }
{
    choose(builder, chosen.some, spare, none)
}

/// The shares that are left where no command is open: one less where the holder stays on, else those of the one that begins.
#[tactic(auto, using(net_parts::specs::Laws::growing))]
fn left_by_turn(
    builder: &mut Builder,
    turns: &TurnNets,
    chosen: &ChosenNets,
    spare: Net,
    count: u8,
) -> Result<Net, NetFault>
    requires turns { AreTurnNets builder.old turns.now count }
    requires chosen { AreChosenNets builder.old chosen.now count }
    requires spare { IsNetOfWidth builder.old spare 6 }
    ensures net { IfOk result (λ left. IsNetOfWidth builder.new left 6) }
    ensures value { IfOk result (λ left. Always builder.new (λ cycle. (is_raised (cycle.net chosen.now.stays.number) ≡ true
        → 0 < cycle.net turns.now.left.number)
        → cycle.net left.number
        ≡ (if is_raised (cycle.net chosen.now.stays.number) then cycle.net turns.now.left.number - 1
        else (if is_raised (cycle.net chosen.now.some.number) then cycle.net spare.number else 0)))) }
    ensures adds { AddsNets 5 builder.old builder.new }
    ensures full { result ≡ Err NetFault.TooManyNets → 2 ^ 20 < length builder.old.lines + 5 }
{
    let one = constant(builder, 6, 1)?;
    let less = builder.sub(turns.left, one)?;
    let none = constant(builder, 6, 0)?;
    let begun = begun_shares(builder, chosen, spare, none, count)?;
    choose(builder, chosen.stays, less, begun)
}

/// What is left, as it is while a command is open.
#[tactic(auto, using(net_parts::specs::Laws::growing))]
fn left_or_free(
    builder: &mut Builder,
    turns: &TurnNets,
    free: Net,
    count: u8,
) -> Result<Net, NetFault>
    requires turns { AreTurnNets builder.old turns.now count }
    requires free { IsNetOfWidth builder.old free 6 }
    ensures net { IfOk result (λ left. IsNetOfWidth builder.new left 6) }
    ensures value { IfOk result (λ left. Always builder.new (λ cycle. cycle.net left.number
        ≡ (if cycle.net turns.now.inside.number == 0 then cycle.net free.number else cycle.net turns.now.left.number))) }
    ensures adds { AddsNets 1 builder.old builder.new }
    ensures full { result ≡ Err NetFault.TooManyNets → 2 ^ 20 < length builder.old.lines + 1 }
{
    choose(builder, turns.inside, turns.left, free)
}

/// The holder and its shares after a cycle: the holder is the one that was chosen last.
#[tactic(auto, using(net_parts::specs::Laws::growing))]
fn next_turn(
    builder: &mut Builder,
    turns: &TurnNets,
    chosen: &ChosenNets,
    spare: Net,
    count: u8,
) -> Result<(Net, Net), NetFault>
    requires turns { AreTurnNets builder.old turns.now count }
    requires chosen { AreChosenNets builder.old chosen.now count }
    requires spare { IsNetOfWidth builder.old spare 6 }
    ensures holder { IfOk result (λ p. IsNetOfWidth builder.new p.0 count) }
    ensures left { IfOk result (λ p. IsNetOfWidth builder.new p.1 6) }
    ensures value { IfOk result (λ p. Always builder.new (λ cycle. IsNextTurn cycle turns.now chosen.now spare p.0 p.1)) }
    ensures adds { AddsNets 7 builder.old builder.new }
    ensures full { result ≡ Err NetFault.TooManyNets → 2 ^ 20 < length builder.old.lines + 7 }
{
    let free = left_by_turn(builder, turns, chosen, spare, count)?;
    let left = left_or_free(builder, turns, free, count)?;
    let holder = choose(builder, chosen.some, chosen.seat, turns.holder)?;
    Ok((holder, left))
}

/// The command that is shown below among two or more askers, and the round after the cycle.
#[tactic(auto, using(net_parts::specs::Laws::growing))]
fn take_turns(
    builder: &mut Builder,
    turns: &TurnNets,
    askers: &[Asker],
    commands: &[CommandNets],
) -> Result<(CommandNets, RoundNets), NetFault>
    requires turns { AreTurnNets builder.old turns.now (length commands.now) }
    requires some { 2 ≤ length commands.now }
    requires same { length askers.now ≡ length commands.now }
    requires few { length commands.now ≤ 128 }
    requires askers { AreAskers askers.now }
    requires commands { AreCommands builder.old commands.now }
    requires alike { AreAlike commands.now }
    ensures turns { IfOk result (λ p. p.1.turns ≡ turns.now) }
    ensures command { IfOk result (λ p. AreCommandNets builder.new p.0) }
    ensures widths { IfOk result (λ p. (widths : List ℕ) → HaveWidths widths commands.now
        → group_widths (group_of p.0) ≡ widths) }
    ensures kept { IfOk result (λ p. RoundKeeps p.1 (length commands.now) builder.new) }
    ensures made { IfOk result (λ p. RoundForward askers.now commands.now p.0 p.1 builder.new) }
    ensures reads { IfOk result (λ p. ShowsByTurns commands.now p.0 p.1.turns builder.new) }
    ensures adds { AddsNets (30 + 14 * length commands.now) builder.old builder.new }
    ensures full { result ≡ Err NetFault.TooManyNets → 2 ^ 20 < length builder.old.lines + (30 + 14 * length commands.now) }
{
    let count = commands.len() as u8;
    let chosen = choose_asker(builder, turns, commands)?;
    let made = show_chosen(builder, &chosen, askers, commands)?;
    let (holder, left) = next_turn(builder, turns, &chosen, made.spare, count)?;
    let round = RoundNets {
        turns: *turns,
        chosen,
        holder,
        left,
    };
    Ok((made.command, round))
}

/// The same with the registers, which wait for their next nets.
#[tactic(auto, using(net_parts::specs::Laws::extends_twice))]
pub(crate) fn make_round(
    builder: &mut Builder,
    askers: &[Asker],
    commands: &[CommandNets],
) -> Result<(CommandNets, RoundNets), NetFault>
    requires some { 2 ≤ length commands.now }
    requires same { length askers.now ≡ length commands.now }
    requires few { length commands.now ≤ 128 }
    requires askers { AreAskers askers.now }
    requires commands { AreCommands builder.old commands.now }
    requires alike { AreAlike commands.now }
    ensures command { IfOk result (λ p. AreCommandNets builder.new p.0) }
    ensures widths { IfOk result (λ p. (widths : List ℕ) → HaveWidths widths commands.now
        → group_widths (group_of p.0) ≡ widths) }
    ensures kept { IfOk result (λ p. RoundKeeps p.1 (length commands.now) builder.new) }
    ensures wait { IfOk result (λ p. AreWaiting builder.new (turns_of p.1.turns)) }
    ensures owned { IfOk result (λ p. AreMadeBetween (owned_by p.1) builder.old builder.new) }
    ensures starts { IfOk result (λ p. TurnsStart builder.new p.1.turns (length commands.now)) }
    ensures made { IfOk result (λ p. RoundForward askers.now commands.now p.0 p.1 builder.new) }
    ensures reads { IfOk result (λ p. ShowsByTurns commands.now p.0 p.1.turns builder.new) }
    ensures grows { GrowsBy (33 + 14 * length commands.now) builder.old builder.new }
    ensures still_wait { StillWait builder.old builder.new }
    ensures newly { IfOk result (λ p. WaitsBeside (owned_by p.1) builder.old builder.new) }
    ensures full { result ≡ Err NetFault.TooManyNets → 2 ^ 20 < length builder.old.lines + (33 + 14 * length commands.now) }
{
    let turns = make_turns(builder, commands.len() as u8)?;
    take_turns(builder, &turns, askers, commands)
}
