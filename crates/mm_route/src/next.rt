//! The next nets of the registers of a route.

ghost use Rattle.std.specs.Prelude.{◌≡◌, ℕ, ◌+◌, ◌^◌, ◌<◌, ◌≤◌, ◌%◌, ◌==◌, if◌then◌else◌, length, IfOk, OnOk};
ghost use Rattle.histories.specs.History.{is_raised, one_if};
ghost use Rattle.netlist.specs.Netlists.{IsNet, IsWaiting};
ghost use Rattle.netlist.specs.Runs.{Always};
ghost use Rattle.net_parts.specs.Nets.{IsBit, IsNetOfWidth};
ghost use Rattle.net_parts.specs.Groups.{InGroup, AreWaiting};
ghost use Rattle.net_parts.specs.Growth.{AddsNets, GrowsBy, WaitsWithout};
ghost use Rattle.command_nets.specs.Nets.{AreCommandNets};
ghost use Rattle.mm_route.specs.Registers.{latch_of, IsLatch};
ghost use Rattle.mm_route.specs.Shown.{AreShownNets};
ghost use Rattle.mm_route.specs.Forward.{router_owns, RouterKeeps};
ghost use Rattle.mm_route.specs.Taken.{taken_in, reads_in, EachStep};
ghost use Rattle.mm_route.specs.Backward.{IsNextOwed, IsNextDebt, IsNextLatch, IsNext};

use crate::registers::LatchNets;
use crate::router::HeldRouter;
use crate::shown::ShownNets;
use command_nets::CommandNets;
use net_parts::{choose, constant, fit_bits, set_all_next};
use netlist::{Builder, Net, NetFault};

/// What is taken in a cycle, one bit each.
#[derive(Clone, Copy)]
pub(crate) struct TakenNets {
    pub beat: Net,
    pub read: Net,
}

/// Whether a beat is taken, and what is owed after the cycle.
#[derive(Clone, Copy)]
pub(crate) struct NextNets {
    /// One bit.
    pub beat: Net,
    pub owed: Net,
    pub owing: Net,
}

/// Whether a beat is taken above, and whether a read is.
#[tactic(auto, using(net_parts::specs::Laws::growing))]
fn taken_bits(
    builder: &mut Builder,
    command: &CommandNets,
    wait: Net,
) -> Result<TakenNets, NetFault>
    requires command { AreCommandNets builder.old command.now }
    requires wait { IsBit builder.old wait }
    ensures beat { IfOk result (λ taken. IsBit builder.new taken.beat) }
    ensures read { IfOk result (λ taken. IsBit builder.new taken.read) }
    ensures beat_is { IfOk result (λ taken. Always builder.new (λ cycle. is_raised (cycle.net taken.beat.number)
        ≡ taken_in cycle command.now wait)) }
    ensures read_is { IfOk result (λ taken. Always builder.new (λ cycle. is_raised (cycle.net taken.read.number)
        ≡ reads_in cycle command.now wait)) }
    ensures adds { AddsNets 4 builder.old builder.new }
    ensures full { result ≡ Err NetFault.TooManyNets → 2 ^ 20 < length builder.old.lines + 4 }
{
    let asks = builder.or(command.read, command.write)?;
    let ready = builder.not(wait)?;
    let beat = builder.and(asks, ready)?;
    let read = builder.and(beat, command.read)?;
    Ok(TakenNets { beat, read })
}

/// The words that a read asks, in so many bits: none where no read is taken.
#[tactic(auto, using(net_parts::specs::Laws::growing))]
fn asked_words(
    builder: &mut Builder,
    taken: Net,
    count: Net,
    room_bits: u8,
) -> Result<Net, NetFault>
    requires taken { IsBit builder.old taken }
    requires count { IsNet builder.old count }
    requires some { 1 ≤ room_bits }
    requires few { room_bits ≤ 128 }
    ensures net { IfOk result (λ asked. IsNetOfWidth builder.new asked room_bits) }
    ensures value { IfOk result (λ asked. Always builder.new (λ cycle. cycle.net asked.number
        ≡ (if is_raised (cycle.net taken.number) then cycle.net count.number else 0) % 2 ^ room_bits)) }
    ensures adds { AddsNets 4 builder.old builder.new }
    ensures full { result ≡ Err NetFault.TooManyNets → 2 ^ 20 < length builder.old.lines + 4 }
{
    let bits = builder.width(count);
    let words = fit_bits(builder, count, bits, room_bits)?;
    let none = constant(builder, room_bits, 0)?;
    choose(builder, taken, words, none)
}

/// The words that are owed after a cycle.
#[tactic(auto, using(net_parts::specs::Laws::growing))]
fn next_owed(
    builder: &mut Builder,
    owed: Net,
    asked: Net,
    valid: Net,
    room_bits: u8,
) -> Result<Net, NetFault>
    requires owed { IsNetOfWidth builder.old owed room_bits }
    requires asked { IsNetOfWidth builder.old asked room_bits }
    requires valid { IsBit builder.old valid }
    requires some { 1 ≤ room_bits }
    requires few { room_bits ≤ 128 }
    ensures net { IfOk result (λ next. IsNetOfWidth builder.new next room_bits) }
    ensures value { IfOk result (λ next. Always builder.new (λ cycle. IsNextOwed (2 ^ room_bits) (cycle.net owed.number)
        (cycle.net asked.number) (one_if (is_raised (cycle.net valid.number))) (cycle.net next.number))) }
    ensures adds { AddsNets 4 builder.old builder.new }
    ensures full { result ≡ Err NetFault.TooManyNets → 2 ^ 20 < length builder.old.lines + 4 }
{
    let sum = builder.add(owed, asked)?;
    let word = fit_bits(builder, valid, 1, room_bits)?;
    builder.sub(sum, word)
}

/// What is owed after a cycle, and by which place.
#[tactic(auto, using(net_parts::specs::Laws::growing))]
fn next_debt(
    builder: &mut Builder,
    held: &HeldRouter,
    count: u8,
    room_bits: u8,
    wait: Net,
    valid: Net,
) -> Result<NextNets, NetFault>
    requires held { RouterKeeps held.now count room_bits builder.old }
    requires wait { IsBit builder.old wait }
    requires valid { IsBit builder.old valid }
    requires some { 1 ≤ room_bits }
    requires few { room_bits ≤ 128 }
    ensures beat { IfOk result (λ next. IsBit builder.new next.beat) }
    ensures owed { IfOk result (λ next. IsNetOfWidth builder.new next.owed room_bits) }
    ensures owing { IfOk result (λ next. IsNetOfWidth builder.new next.owing count) }
    ensures beat_is { IfOk result (λ next. Always builder.new (λ cycle. is_raised (cycle.net next.beat.number)
        ≡ taken_in cycle held.now.shown.command wait)) }
    ensures value { IfOk result (λ next. Always builder.new (λ cycle. IsNextDebt cycle held.now room_bits wait valid
        (cycle.net next.owed.number) (cycle.net next.owing.number))) }
    ensures adds { AddsNets 13 builder.old builder.new }
    ensures full { result ≡ Err NetFault.TooManyNets → 2 ^ 20 < length builder.old.lines + 13 }
{
    let command = &held.shown.command;
    let registers = &held.registers;
    let taken = taken_bits(builder, command, wait)?;
    let asked = asked_words(builder, taken.read, command.count, room_bits)?;
    let owed = next_owed(builder, registers.owed, asked, valid, room_bits)?;
    let owing = choose(builder, taken.read, held.shown.place, registers.owing)?;
    Ok(NextNets {
        beat: taken.beat,
        owed,
        owing,
    })
}

/// Gives what latches a place its next nets, where `beat` says that a beat is taken.
#[tactic(auto, using(net_parts::specs::Laws::growing))]
fn step_latch(
    builder: &mut Builder,
    latch: LatchNets,
    shown: &ShownNets,
    count: u8,
    beat: Net,
) -> Result<(), NetFault>
    requires latch { IsLatch builder.old count latch }
    requires wait { AreWaiting builder.old (latch_of (Some latch)) }
    requires shown { AreShownNets builder.old shown.now count }
    requires beat { IsBit builder.old beat }
    ensures value { OnOk result
        (EachStep builder.new (λ cycle next. IsNextLatch shown.now (is_raised (cycle.net beat.number)) cycle next latch)) }
    ensures grows { GrowsBy 1 builder.old builder.new }
    ensures waits { (n : ℕ) → ¬ InGroup (latch_of (Some latch)) n → IsWaiting builder.old n → IsWaiting builder.new n }
    ensures no_more_wait { OnOk result (WaitsWithout (InGroup (latch_of (Some latch))) builder.old builder.new) }
    ensures full { result ≡ Err NetFault.TooManyNets → 2 ^ 20 < length builder.old.lines + 1 }
{
    let inside = choose(builder, beat, shown.command.more, latch.inside)?;
    let group = [latch.inside, latch.kept];
    set_all_next(builder, &group, &[inside, shown.place]);
    Ok(())
}

/// Gives the registers their next nets.
#[tactic(auto, using(net_parts::specs::Laws::growing))]
pub(crate) fn step_registers(
    builder: &mut Builder,
    held: &HeldRouter,
    count: u8,
    room_bits: u8,
    wait: Net,
    valid: Net,
) -> Result<(), NetFault>
    requires held { RouterKeeps held.now count room_bits builder.old }
    requires wait { IsBit builder.old wait }
    requires valid { IsBit builder.old valid }
    requires some { 1 ≤ room_bits }
    requires few { room_bits ≤ 128 }
    ensures value { OnOk result (EachStep builder.new (IsNext held.now room_bits wait valid)) }
    ensures grows { GrowsBy 14 builder.old builder.new }
    ensures waits { (n : ℕ) → ¬ router_owns held.now n → IsWaiting builder.old n → IsWaiting builder.new n }
    ensures no_more_wait { OnOk result (WaitsWithout (router_owns held.now) builder.old builder.new) }
    ensures full { result ≡ Err NetFault.TooManyNets → 2 ^ 20 < length builder.old.lines + 14 }
{
    let registers = &held.registers;
    let next = next_debt(builder, held, count, room_bits, wait, valid)?;
    let group = [registers.owed, registers.owing];
    set_all_next(builder, &group, &[next.owed, next.owing]);
    match registers.latch {
        None => Ok(()),
        Some(latch) => step_latch(builder, latch, &held.shown, count, next.beat),
    }
}
