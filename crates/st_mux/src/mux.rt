//! A multiplexer: one input at a time is led straight to the output. It keeps which input it led last, and whether it has to stay
//! with it.

ghost use Rattle.std.specs.Prelude.{◌≡◌, ℕ, ◌+◌, ◌-◌, ◌*◌, ◌^◌, ◌<◌, ◌≤◌, length, IfOk, OnOk};
ghost use Rattle.netlist.specs.Netlists.{IsNet, IsWaiting};
ghost use Rattle.net_parts.specs.Nets.{IsBit, IsNetOfWidth, StartsLow, TakesNext};
ghost use Rattle.net_parts.specs.Growth.{AddsNets, GrowsBy, StillWait, WaitsBeside, WaitsWithout};
ghost use Rattle.st_mux.specs.Selecting.{AreBits};
ghost use Rattle.st_mux.specs.Packets.{ArePacketNets};
ghost use Rattle.st_mux.specs.PacketChoices.{AreAlike, IsLike};
ghost use Rattle.st_mux.specs.MultiplexerNets.{owns_turns, AreTurns, Leads, AreMultiplexerNets, ShowsSomeInput, MultiplexesInLonger};

use crate::packet::PacketNets;
use crate::select::select_packet;
use crate::split::lead_bit;
use crate::turns::{choose_input, stays_locked, valids_of};
use net_parts::{register, take_next};
use netlist::{Builder, Net, NetFault};
use routed_runs::machines::multiplexer_multiplexes;
use std::alloc::Global;

/// The nets that a multiplexer gives.
#[derive(Drop)]
pub struct MultiplexerNets {
    /// The beat of the output.
    pub beat: PacketNets,
    /// Its channel, the number of the input that is led there.
    pub channel: Net,
    /// To each input, one bit.
    pub readies: Vec<Net>,
}

/// The registers of a multiplexer.
#[derive(Clone, Copy)]
pub(crate) struct Turns {
    /// The input that was led to the output in the cycle before.
    holder: Net,
    /// It has to stay, one bit.
    locked: Net,
}

/// The registers, which wait for what they take.
fn make_turns(builder: &mut Builder, bits: u8) -> Result<Turns, NetFault>
    requires some { 1 ≤ bits }
    requires few { bits ≤ 4 }
    ensures turns { IfOk result (λ turns. AreTurns builder.new bits turns) }
    ensures grows { GrowsBy 2 builder.old builder.new }
    ensures newly { IfOk result (λ turns. WaitsBeside (owns_turns turns) builder.old builder.new) }
    ensures full { result ≡ Err NetFault.TooManyNets → 2 ^ 20 < length builder.old.lines + 2 }
{
    let holder = register(builder, bits)?;
    let locked = register(builder, 1)?;
    Ok(Turns { holder, locked })
}

/// Gives the registers their next nets.
fn set_turns(builder: &mut Builder, turns: &Turns, bits: u8, holder: Net, locked: Net)
    requires turns { AreTurns builder.old bits turns.now }
    requires holder { IsNetOfWidth builder.old holder bits }
    requires locked { IsBit builder.old locked }
    ensures holder { TakesNext builder.new turns.now.holder holder }
    ensures locked { TakesNext builder.new turns.now.locked locked }
    ensures grows { GrowsBy 0 builder.old builder.new }
    ensures no_more_wait { WaitsWithout (owns_turns turns.now) builder.old builder.new }
{
    take_next(builder, turns.holder, holder);
    take_next(builder, turns.locked, locked);
}

/// Leads one input to the output, and the output's ready to it alone.
#[tactic(auto, using(net_parts::specs::Laws::growing))]
fn lead(
    alloc: Global,
    builder: &mut Builder,
    inputs: &[PacketNets],
    turns: &Turns,
    bits: u8,
    ready: Net,
) -> Result<MultiplexerNets, NetFault>
    requires inputs { AreAlike builder.old inputs.now }
    requires holder { IsNetOfWidth builder.old turns.now.holder bits }
    requires locked { IsBit builder.old turns.now.locked }
    requires ready { IsBit builder.old ready }
    requires some_bits { 1 ≤ bits }
    requires few_bits { bits ≤ 4 }
    requires some { 0 < length inputs.now }
    requires few { length inputs.now ≤ 2 ^ bits }
    ensures leads { IfOk result (λ made. Leads builder.new inputs.now turns.now bits ready made) }
    ensures adds { AddsNets (14 * length inputs.now + 4 * 2 ^ bits - 5) builder.old builder.new }
    ensures full { result ≡ Err NetFault.TooManyNets
        → 2 ^ 20 < length builder.old.lines + (14 * length inputs.now + 4 * 2 ^ bits - 5) }
{
    let asks = valids_of(alloc, inputs)?;
    let channel = choose_input(
        alloc,
        builder,
        asks.as_slice(),
        turns.holder,
        turns.locked,
        bits,
    )?;
    let beat = select_packet(builder, channel, bits, inputs)?;
    let readies = lead_bit(alloc, builder, ready, channel, bits, inputs.len())?;
    Ok(MultiplexerNets {
        beat,
        channel,
        readies,
    })
}

/// The nets of a multiplexer, and its registers with what they take.
fn make_multiplexer(
    alloc: Global,
    builder: &mut Builder,
    inputs: &[PacketNets],
    bits: u8,
    ready: Net,
) -> Result<MultiplexerNets, NetFault>
    requires inputs { AreAlike builder.old inputs.now }
    requires ready { IsBit builder.old ready }
    requires some_bits { 1 ≤ bits }
    requires few_bits { bits ≤ 4 }
    requires some { 0 < length inputs.now }
    requires few { length inputs.now ≤ 2 ^ bits }
    ensures nets { IfOk result (λ made. AreMultiplexerNets builder.new inputs.now bits ready made) }
    ensures grows { GrowsBy (14 * length inputs.now + 4 * 2 ^ bits) builder.old builder.new }
    ensures no_more_wait { OnOk result (StillWait builder.new builder.old) }
    ensures full { result ≡ Err NetFault.TooManyNets
        → 2 ^ 20 < length builder.old.lines + (14 * length inputs.now + 4 * 2 ^ bits) }
{
    let turns = make_turns(builder, bits)?;
    let made = lead(alloc, builder, inputs, &turns, bits, ready)?;
    let beat = made.beat;
    let stays = stays_locked(builder, beat.valid, beat.last, ready, turns.locked)?;
    set_turns(builder, &turns, bits, made.channel, stays);
    Ok(made)
}

/// Makes a multiplexer from the beats of its inputs and the ready of its output, which shows channels of so many bits. After an
/// error the builder is to be dropped.
pub fn emit_multiplexer(
    alloc: Global,
    builder: &mut Builder,
    inputs: &[PacketNets],
    bits: u8,
    ready: Net,
) -> Result<MultiplexerNets, NetFault>
    requires inputs { AreAlike builder.old inputs.now }
    requires ready { IsBit builder.old ready }
    requires some_bits { 1 ≤ bits }
    requires few_bits { bits ≤ 4 }
    requires some { 0 < length inputs.now }
    requires few { length inputs.now ≤ 2 ^ bits }
    ensures beat { IfOk result (λ made. ArePacketNets builder.new made.beat) }
    ensures like { IfOk result (λ made. IsLike made.beat inputs.now) }
    ensures channel { IfOk result (λ made. IsNetOfWidth builder.new made.channel bits) }
    ensures readies { IfOk result (λ made. AreBits builder.new made.readies.items) }
    ensures count { IfOk result (λ made. length made.readies.items ≡ length inputs.now) }
    ensures shows { IfOk result (λ made. ShowsSomeInput builder.new inputs.now made.beat) }
    ensures multiplexes { IfOk result (λ made. MultiplexesInLonger builder.new inputs.now made ready) }
    ensures grows { GrowsBy (14 * length inputs.now + 4 * 2 ^ bits) builder.old builder.new }
    ensures no_more_wait { OnOk result (StillWait builder.new builder.old) }
    ensures full { result ≡ Err NetFault.TooManyNets
        → 2 ^ 20 < length builder.old.lines + (14 * length inputs.now + 4 * 2 ^ bits) }
{
    multiplexer_multiplexes();
    make_multiplexer(alloc, builder, inputs, bits, ready)
}
