//! The registers of a route.

ghost use Rattle.std.specs.Prelude.{◌≡◌, ℕ, ◌+◌, ◌^◌, ◌<◌, ◌≤◌, true, length, IfOk, IfSome, is_some};
ghost use Rattle.netlist.specs.Netlists.{IsWaiting};
ghost use Rattle.net_parts.specs.Groups.{InGroup, AreNumberedFrom};
ghost use Rattle.net_parts.specs.Growth.{GrowsBy, StillWait, WaitsBeside, AreMadeBetween};
ghost use Rattle.mm_route.specs.Registers.{latch_of, registers_of, IsLatch, AreRegisterNets, LatchStartsLow, RegistersStartLow, RegistersWait};

use command_nets::register;
use netlist::{Builder, Net, NetFault};

/// The registers that latch the place of a burst.
#[derive(Clone, Copy)]
pub struct LatchNets {
    /// One bit: the last beat that was taken had `more` high.
    pub inside: Net,
    /// A bit for each entry: the place of the last cycle. None is high for the default agent.
    pub kept: Net,
}

/// The registers of a route. They are all low at first.
#[derive(Clone, Copy)]
pub struct RegisterNets {
    /// The words that are owed above.
    pub owed: Net,
    /// A bit for each entry: the place of the last read that was taken.
    pub owing: Net,
    /// None where each command has one beat.
    pub latch: Option<LatchNets>,
}

/// What latches a place for so many entries, where there are bursts.
fn make_latch(builder: &mut Builder, bursts: bool, count: u8) -> Result<Option<LatchNets>, NetFault>
    requires some { 1 ≤ count }
    requires few { count ≤ 128 }
    ensures kind { IfOk result (λ latch. is_some latch ≡ bursts) }
    ensures nets { IfOk result (λ latch. IfSome latch (IsLatch builder.new count)) }
    ensures starts { IfOk result (λ latch. IfSome latch (LatchStartsLow builder.new)) }
    ensures numbers { IfOk result (λ latch. AreNumberedFrom (length builder.old.lines) (latch_of latch)) }
    ensures wait { IfOk result (λ latch. (n : ℕ) → InGroup (latch_of latch) n → IsWaiting builder.new n) }
    ensures owned { IfOk result (λ latch. AreMadeBetween (InGroup (latch_of latch)) builder.old builder.new) }
    ensures grows { GrowsBy 2 builder.old builder.new }
    ensures still_wait { StillWait builder.old builder.new }
    ensures newly { IfOk result (λ latch. WaitsBeside (InGroup (latch_of latch)) builder.old builder.new) }
    ensures full { result ≡ Err NetFault.TooManyNets → 2 ^ 20 < length builder.old.lines + 2 }
{
    if !bursts {
        return Ok(None);
    }
    let inside = register(builder, 1)?;
    let kept = register(builder, count)?;
    Ok(Some(LatchNets { inside, kept }))
}

/// The registers for so many entries and a debt below 2 to the `room_bits` words.
#[tactic(auto, using(net_parts::specs::Laws::extends_twice))]
pub(crate) fn make_registers(
    builder: &mut Builder,
    bursts: bool,
    count: u8,
    room_bits: u8,
) -> Result<RegisterNets, NetFault>
    requires some { 1 ≤ count }
    requires few { count ≤ 128 }
    requires some_room { 1 ≤ room_bits }
    requires little_room { room_bits ≤ 128 }
    ensures kind { IfOk result (λ made. is_some made.latch ≡ bursts) }
    ensures nets { IfOk result (λ made. AreRegisterNets builder.new made count room_bits) }
    ensures starts { IfOk result (λ made. RegistersStartLow builder.new made) }
    ensures wait { IfOk result (λ made. RegistersWait builder.new made) }
    ensures owned { IfOk result (λ made. AreMadeBetween (InGroup (registers_of made)) builder.old builder.new) }
    ensures grows { GrowsBy 4 builder.old builder.new }
    ensures still_wait { StillWait builder.old builder.new }
    ensures newly { IfOk result (λ made. WaitsBeside (InGroup (registers_of made)) builder.old builder.new) }
    ensures full { result ≡ Err NetFault.TooManyNets → 2 ^ 20 < length builder.old.lines + 4 }
{
    let owed = register(builder, room_bits)?;
    let owing = register(builder, count)?;
    let latch = make_latch(builder, bursts, count)?;
    Ok(RegisterNets { owed, owing, latch })
}
