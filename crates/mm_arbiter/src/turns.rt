//! The registers of the turns.

ghost use Rattle.std.specs.Prelude.{◌≡◌, ℕ, ◌+◌, ◌-◌, ◌^◌, ◌<◌, ◌≤◌, length, IfOk, OnOk};
ghost use Rattle.netlist.specs.Netlists.{IsWaiting};
ghost use Rattle.netlist.specs.Runs.{Run, IsRun};
ghost use Rattle.net_parts.specs.Nets.{IsNetOfWidth};
ghost use Rattle.net_parts.specs.Groups.{InGroup, AreWaiting};
ghost use Rattle.net_parts.specs.Growth.{GrowsBy, StillWait, WaitsBeside, AreMadeBetween};
ghost use Rattle.mm_arbiter.specs.Turns.{turns_of, AreTurnNets, TurnsStart};

use av_base::Val;
use command_nets::register;
use netlist::{Builder, Net, NetFault};

/// The registers of an arbiter.
#[derive(Clone, Copy)]
pub struct TurnNets {
    /// A bit for each seat: the one that holds the turn. The last one does at first.
    pub holder: Net,
    /// How many more commands of the holder may begin before others; 0 at first.
    pub left: Net,
    /// One bit: a command of the holder is open; low at first.
    pub inside: Net,
}

/// The last of so many bits alone.
fn last_bit(count: u8) -> u128
    requires some { 1 ≤ count }
    requires few { count ≤ 128 }
    ensures value { result ≡ 2 ^ (count - 1) }
    ensures fits { result < 2 ^ count }
{
    1u128 << (count - 1)
}

/// A register with a bit for each seat, that begins with the last one high.
fn last_seat(builder: &mut Builder, count: u8) -> Result<Net, NetFault>
    requires some { 1 ≤ count }
    requires few { count ≤ 128 }
    ensures net { IfOk result (λ made. IsNetOfWidth builder.new made count) }
    ensures number { IfOk result (λ made. made.number ≡ length builder.old.lines) }
    ensures count { OnOk result (length builder.new.lines ≡ length builder.old.lines + 1) }
    ensures starts { IfOk result (λ made. (run : Run) (cycles : ℕ) → IsRun builder.new run cycles → 0 < cycles
        → run.net 0 made.number ≡ 2 ^ (count - 1)) }
    ensures waits { IfOk result (λ made. IsWaiting builder.new made.number) }
    ensures grows { GrowsBy 1 builder.old builder.new }
    ensures still_wait { StillWait builder.old builder.new }
    ensures newly { IfOk result (λ made. WaitsBeside (λ n. n ≡ made.number) builder.old builder.new) }
    ensures full { result ≡ Err NetFault.TooManyNets → 2 ^ 20 < length builder.old.lines + 1 }
{
    builder.reg(Val::new(count, last_bit(count)).unwrap())
}

/// The registers for so many seats.
#[tactic(auto, using(net_parts::specs::Laws::extends_twice))]
pub(crate) fn make_turns(builder: &mut Builder, count: u8) -> Result<TurnNets, NetFault>
    requires some { 1 ≤ count }
    requires few { count ≤ 128 }
    ensures nets { IfOk result (λ made. AreTurnNets builder.new made count) }
    ensures starts { IfOk result (λ made. TurnsStart builder.new made count) }
    ensures wait { IfOk result (λ made. AreWaiting builder.new (turns_of made)) }
    ensures owned { IfOk result (λ made. AreMadeBetween (InGroup (turns_of made)) builder.old builder.new) }
    ensures grows { GrowsBy 3 builder.old builder.new }
    ensures still_wait { StillWait builder.old builder.new }
    ensures newly { IfOk result (λ made. WaitsBeside (InGroup (turns_of made)) builder.old builder.new) }
    ensures full { result ≡ Err NetFault.TooManyNets → 2 ^ 20 < length builder.old.lines + 3 }
{
    let holder = last_seat(builder, count)?;
    let left = register(builder, 6)?;
    let inside = register(builder, 1)?;
    Ok(TurnNets {
        holder,
        left,
        inside,
    })
}
