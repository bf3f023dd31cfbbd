//! Which seat is chosen.

ghost use Rattle.std.specs.Prelude.{◌≡◌, ℕ, ◌+◌, ◌*◌, ◌^◌, ◌<◌, ◌≤◌, Bool, false, List, length, get_or, Some, None, if◌then◌else◌, ◌==◌, IfOk};
ghost use Rattle.histories.specs.History.{is_raised};
ghost use Rattle.netlist.specs.Runs.{Always};
ghost use Rattle.net_parts.specs.Nets.{IsNetOfWidth, IsBit};
ghost use Rattle.net_parts.specs.Growth.{AddsNets};
ghost use Rattle.mm_arbiter.specs.Asks.{seat_bit, stays_on, chosen_seat};
ghost use Rattle.mm_arbiter.specs.Depends.{AnyTwo, IsSame};
ghost use Rattle.mm_arbiter.specs.Shown.{AreCommands, ShowAllSame};
ghost use Rattle.mm_arbiter.specs.Turns.{StandsAt, AreTurnNets, HoldSame};
ghost use Rattle.mm_arbiter.specs.Rounds.{AreChosenNets, AreChosen};

use crate::asks::ask_bits;
use crate::first::first_asking;
use crate::turns::TurnNets;
use command_nets::{CommandNets, both};
use net_parts::choose;
use netlist::{Builder, Net, NetFault};

/// The seat that is chosen in a cycle.
#[derive(Clone, Copy)]
pub struct ChosenNets {
    /// A bit for each seat; none is high where nobody is chosen.
    pub seat: Net,
    /// One bit: somebody is chosen.
    pub some: Net,
    /// One bit: the holder asks and has shares left.
    pub stays: Net,
}

/// The holder's own seat, where it asks.
#[derive(Clone, Copy)]
struct OwnNets {
    seat: Net,
    stays: Net,
}

/// Whether the holder asks, and whether it has shares left too.
#[tactic(auto, using(net_parts::specs::Laws::growing))]
fn holder_asks(
    builder: &mut Builder,
    turns: &TurnNets,
    asks: Net,
    count: u8,
) -> Result<OwnNets, NetFault>
    requires turns { AreTurnNets builder.old turns.now count }
    requires asks { IsNetOfWidth builder.old asks count }
    ensures seat { IfOk result (λ own. IsNetOfWidth builder.new own.seat count) }
    ensures stays { IfOk result (λ own. IsBit builder.new own.stays) }
    ensures seat_is { IfOk result (λ own. Always builder.new (λ cycle. (bits : List Bool) (k : ℕ)
        → StandsAt cycle count asks turns.now.holder bits k
        → cycle.net own.seat.number ≡ seat_bit (if get_or bits k false then Some k else None))) }
    ensures stays_is { IfOk result (λ own. Always builder.new (λ cycle. (bits : List Bool) (k : ℕ)
        → StandsAt cycle count asks turns.now.holder bits k
        → is_raised (cycle.net own.stays.number) ≡ stays_on k (cycle.net turns.now.left.number) bits)) }
    ensures reads { IfOk result (λ own. AnyTwo builder.new (λ one other. HoldSame turns.now one other → IsSame asks one other
        → IsSame own.seat one other × IsSame own.stays one other)) }
    ensures adds { AddsNets 4 builder.old builder.new }
    ensures full { result ≡ Err NetFault.TooManyNets → 2 ^ 20 < length builder.old.lines + 4 }
{
    let seat = builder.and(asks, turns.holder)?;
    let asking = builder.any(seat)?;
    let rest = builder.any(turns.left)?;
    let stays = both(builder, asking, rest)?;
    Ok(OwnNets { seat, stays })
}

/// The holder's own seat while its command is open, else the one whose turn it is.
#[tactic(auto, using(net_parts::specs::Laws::growing))]
fn own_or_turn(
    builder: &mut Builder,
    turns: &TurnNets,
    own: Net,
    turn: Net,
    count: u8,
) -> Result<Net, NetFault>
    requires turns { AreTurnNets builder.old turns.now count }
    requires own { IsNetOfWidth builder.old own count }
    requires turn { IsNetOfWidth builder.old turn count }
    ensures net { IfOk result (λ seat. IsNetOfWidth builder.new seat count) }
    ensures value { IfOk result (λ seat. Always builder.new (λ cycle. cycle.net seat.number
        ≡ (if cycle.net turns.now.inside.number == 0 then cycle.net turn.number else cycle.net own.number))) }
    ensures adds { AddsNets 1 builder.old builder.new }
    ensures full { result ≡ Err NetFault.TooManyNets → 2 ^ 20 < length builder.old.lines + 1 }
{
    choose(builder, turns.inside, own, turn)
}

/// The seat that is chosen: the holder alone while its command is open, or while it stays on; else the first one after it.
#[tactic(auto, using(net_parts::specs::Laws::growing))]
fn choose_turn(
    builder: &mut Builder,
    turns: &TurnNets,
    asks: Net,
    own: &OwnNets,
    count: u8,
) -> Result<Net, NetFault>
    requires turns { AreTurnNets builder.old turns.now count }
    requires asks { IsNetOfWidth builder.old asks count }
    requires own_seat { IsNetOfWidth builder.old own.now.seat count }
    requires own_stays { IsBit builder.old own.now.stays }
    requires some { 2 ≤ count }
    requires few { count ≤ 128 }
    ensures net { IfOk result (λ seat. IsNetOfWidth builder.new seat count) }
    ensures value { IfOk result (λ seat. Always builder.new (λ cycle. (bits : List Bool) (k : ℕ)
        → StandsAt cycle count asks turns.now.holder bits k
        → cycle.net own.now.seat.number ≡ seat_bit (if get_or bits k false then Some k else None)
        → is_raised (cycle.net own.now.stays.number) ≡ stays_on k (cycle.net turns.now.left.number) bits
        → cycle.net seat.number
        ≡ seat_bit (chosen_seat (is_raised (cycle.net turns.now.inside.number)) k (cycle.net turns.now.left.number) bits))) }
    ensures reads { IfOk result (λ seat. AnyTwo builder.new (λ one other. HoldSame turns.now one other → IsSame asks one other
        → IsSame own.now.seat one other → IsSame own.now.stays one other → IsSame seat one other)) }
    ensures adds { AddsNets 16 builder.old builder.new }
    ensures full { result ≡ Err NetFault.TooManyNets → 2 ^ 20 < length builder.old.lines + 16 }
{
    let first = first_asking(builder, asks, turns.holder, count)?;
    let turn = choose(builder, own.stays, turns.holder, first)?;
    own_or_turn(builder, turns, own.seat, turn, count)
}

/// The seat that is chosen among those that ask by these bits.
#[tactic(auto, using(net_parts::specs::Laws::growing))]
fn choose_by(
    builder: &mut Builder,
    turns: &TurnNets,
    asks: Net,
    count: u8,
) -> Result<ChosenNets, NetFault>
    requires turns { AreTurnNets builder.old turns.now count }
    requires asks { IsNetOfWidth builder.old asks count }
    requires some { 2 ≤ count }
    requires few { count ≤ 128 }
    ensures nets { IfOk result (λ chosen. AreChosenNets builder.new chosen count) }
    ensures seat { IfOk result (λ chosen. Always builder.new (λ cycle. (bits : List Bool) (k : ℕ)
        → StandsAt cycle count asks turns.now.holder bits k
        → cycle.net chosen.seat.number
        ≡ seat_bit (chosen_seat (is_raised (cycle.net turns.now.inside.number)) k (cycle.net turns.now.left.number) bits))) }
    ensures stays { IfOk result (λ chosen. Always builder.new (λ cycle. (bits : List Bool) (k : ℕ)
        → StandsAt cycle count asks turns.now.holder bits k
        → is_raised (cycle.net chosen.stays.number) ≡ stays_on k (cycle.net turns.now.left.number) bits)) }
    ensures some_is { IfOk result (λ chosen. Always builder.new (λ cycle. cycle.net chosen.some.number
        ≡ (if cycle.net chosen.seat.number == 0 then 0 else 1))) }
    ensures reads { IfOk result (λ chosen. AnyTwo builder.new (λ one other. HoldSame turns.now one other → IsSame asks one other
        → IsSame chosen.seat one other)) }
    ensures adds { AddsNets 21 builder.old builder.new }
    ensures full { result ≡ Err NetFault.TooManyNets → 2 ^ 20 < length builder.old.lines + 21 }
{
    let own = holder_asks(builder, turns, asks, count)?;
    let seat = choose_turn(builder, turns, asks, &own, count)?;
    let some = builder.any(seat)?;
    Ok(ChosenNets {
        seat,
        some,
        stays: own.stays,
    })
}

/// The seat that is chosen among those whose commands show a beat.
#[tactic(auto, using(net_parts::specs::Laws::growing))]
pub(crate) fn choose_asker(
    builder: &mut Builder,
    turns: &TurnNets,
    commands: &[CommandNets],
) -> Result<ChosenNets, NetFault>
    requires turns { AreTurnNets builder.old turns.now (length commands.now) }
    requires commands { AreCommands builder.old commands.now }
    requires some { 2 ≤ length commands.now }
    requires few { length commands.now ≤ 128 }
    ensures nets { IfOk result (λ chosen. AreChosenNets builder.new chosen (length commands.now)) }
    ensures value { IfOk result (λ chosen. Always builder.new (λ cycle. (k : ℕ) → k < length commands.now
        → cycle.net turns.now.holder.number ≡ 2 ^ k → AreChosen cycle turns.now chosen commands.now k)) }
    ensures reads { IfOk result (λ chosen. AnyTwo builder.new (λ one other. HoldSame turns.now one other
        → ShowAllSame commands.now one other → IsSame chosen.seat one other × IsSame chosen.some one other)) }
    ensures adds { AddsNets (21 + 2 * length commands.now) builder.old builder.new }
    ensures full { result ≡ Err NetFault.TooManyNets → 2 ^ 20 < length builder.old.lines + (21 + 2 * length commands.now) }
{
    let asks = ask_bits(builder, &commands[0], &commands[1..])?;
    choose_by(builder, turns, asks, commands.len() as u8)
}
