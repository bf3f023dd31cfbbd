//! Which input of a multiplexer is next in turn.

ghost use Rattle.std.specs.Prelude.{◌≡◌, ◌+◌, ◌-◌, ◌*◌, ◌^◌, ◌<◌, ◌≤◌, ◌&&◌, ◌==◌, not, nat_lt, map, if◌then◌else◌, length, IfOk};
ghost use Rattle.netlist.specs.Runs.{Always};
ghost use Rattle.net_parts.specs.Nets.{IsBit, IsNetOfWidth};
ghost use Rattle.net_parts.specs.Growth.{AddsNets};
ghost use Rattle.st_mux.specs.PacketChoices.{shown_in, HaveSameWidths};
ghost use Rattle.st_mux.specs.Packets.{ArePacketNets};
ghost use Rattle.st_mux.specs.Selecting.{AreBits};
ghost use Rattle.st_mux.specs.Each.{MakesEach};
ghost use Rattle.st_mux.specs.Chosen.{IsChosen};
ghost use Rattle.st_mux.specs.Choosing.{is_set, asks_behind};

use crate::first::{any_high, first_high};
use crate::packet::PacketNets;
use net_parts::{choose, constant};
use netlist::{Builder, Net, NetFault};
use std::alloc::Global;

/// One of two beats: the first where the bit is set.
#[tactic(auto, using(net_parts::specs::Laws::growing))]
pub(crate) fn choose_packet(
    builder: &mut Builder,
    bit: Net,
    one: &PacketNets,
    other: &PacketNets,
) -> Result<PacketNets, NetFault>
    requires bit { IsBit builder.old bit }
    requires one { ArePacketNets builder.old one.now }
    requires other { ArePacketNets builder.old other.now }
    requires widths { HaveSameWidths one.now other.now }
    ensures packet { IfOk result (λ made. ArePacketNets builder.new made) }
    ensures widths { IfOk result (λ made. HaveSameWidths made one.now) }
    ensures value { IfOk result (λ made. Always builder.new (λ cycle. shown_in cycle made
        ≡ (if cycle.net bit.number == 0 then shown_in cycle other.now else shown_in cycle one.now))) }
    ensures adds { AddsNets 5 builder.old builder.new }
    ensures full { result ≡ Err NetFault.TooManyNets → 2 ^ 20 < length builder.old.lines + 5 }
{
    let valid = choose(builder, bit, one.valid, other.valid)?;
    let word = choose(builder, bit, one.word, other.word)?;
    let first = choose(builder, bit, one.first, other.first)?;
    let last = choose(builder, bit, one.last, other.last)?;
    let empty = choose(builder, bit, one.empty, other.empty)?;
    Ok(PacketNets {
        valid,
        word,
        first,
        last,
        empty,
    })
}

/// The input with this number asks, and comes behind the holder.
#[tactic(auto, using(net_parts::specs::Laws::growing))]
fn behind_holder(
    builder: &mut Builder,
    asks: Net,
    holder: Net,
    bits: u8,
    number: u8,
) -> Result<Net, NetFault>
    requires asks { IsBit builder.old asks }
    requires holder { IsNetOfWidth builder.old holder bits }
    requires some { 1 ≤ bits }
    requires small { bits ≤ 4 }
    requires fits { number < 2 ^ bits }
    ensures net { IfOk result (λ net. IsBit builder.new net) }
    ensures value { IfOk result (λ net. Always builder.new (λ cycle. (cycle.net net.number == 1)
        ≡ ((cycle.net asks.number == 1) && nat_lt (cycle.net holder.number) number))) }
    ensures adds { AddsNets 3 builder.old builder.new }
    ensures full { result ≡ Err NetFault.TooManyNets → 2 ^ 20 < length builder.old.lines + 3 }
{
    let wanted = constant(builder, bits, number)?;
    let behind = builder.less(holder, wanted)?;
    builder.and(asks, behind)
}

/// For each input whether it asks and comes behind the holder.
#[tactic(auto, using(net_parts::specs::Laws::growing))]
fn behind_each(
    alloc: Global,
    builder: &mut Builder,
    asks: &[Net],
    holder: Net,
    bits: u8,
) -> Result<Vec<Net>, NetFault>
    requires asks { AreBits builder.old asks.now }
    requires holder { IsNetOfWidth builder.old holder bits }
    requires some { 1 ≤ bits }
    requires small { bits ≤ 4 }
    requires few { length asks.now ≤ 2 ^ bits }
    ensures each { IfOk result (λ nets. MakesEach builder.old builder.new (asks_behind asks.now holder) nets.items
        (length asks.now)) }
    ensures adds { AddsNets (3 * length asks.now) builder.old builder.new }
    ensures full { result ≡ Err NetFault.TooManyNets → 2 ^ 20 < length builder.old.lines + 3 * length asks.now }
{
    let mut nets = Vec::new(alloc);
    for number in 0..asks.len() as u8 {
        let here = behind_holder(builder, asks[number as usize], holder, bits, number)?;
        nets.push(here)?;
    }
    Ok(nets)
}

/// `valid` of each input.
pub(crate) fn valids_of(alloc: Global, inputs: &[PacketNets]) -> Result<Vec<Net>, NetFault>
    ensures valids { IfOk result (λ nets. nets.items ≡ map (λ input. input.valid) inputs.now) }
    ensures full { (result ≡ Err NetFault.TooManyNets) → ⊥ }
{
    let mut nets = Vec::new(alloc);
    for input in inputs {
        nets.push(input.valid)?;
    }
    Ok(nets)
}

/// Whether the choice stays: a beat is shown that isn't the last of its packet, or isn't taken, or none is and it has to stay.
#[tactic(auto, using(net_parts::specs::Laws::growing))]
pub(crate) fn stays_locked(
    builder: &mut Builder,
    valid: Net,
    last: Net,
    ready: Net,
    locked: Net,
) -> Result<Net, NetFault>
    requires valid { IsBit builder.old valid }
    requires last { IsBit builder.old last }
    requires ready { IsBit builder.old ready }
    requires locked { IsBit builder.old locked }
    ensures net { IfOk result (λ net. IsBit builder.new net) }
    ensures value { IfOk result (λ net. Always builder.new (λ cycle. (cycle.net net.number == 1)
        ≡ (if cycle.net valid.number == 1 then not ((cycle.net ready.number == 1) && (cycle.net last.number == 1))
        else cycle.net locked.number == 1))) }
    ensures adds { AddsNets 3 builder.old builder.new }
    ensures full { result ≡ Err NetFault.TooManyNets → 2 ^ 20 < length builder.old.lines + 3 }
{
    let ends = builder.and(ready, last)?;
    let goes_on = builder.not(ends)?;
    choose(builder, valid, goes_on, locked)
}

/// The number of the input that is led to the output: the holder where the choice is locked, else the first in turn behind it
/// that asks.
#[tactic(auto, using(net_parts::specs::Laws::growing))]
pub(crate) fn choose_input(
    alloc: Global,
    builder: &mut Builder,
    asks: &[Net],
    holder: Net,
    locked: Net,
    bits: u8,
) -> Result<Net, NetFault>
    requires asks { AreBits builder.old asks.now }
    requires holder { IsNetOfWidth builder.old holder bits }
    requires locked { IsBit builder.old locked }
    requires some_bits { 1 ≤ bits }
    requires few_bits { bits ≤ 4 }
    requires some { 0 < length asks.now }
    requires few { length asks.now ≤ 2 ^ bits }
    ensures net { IfOk result (λ net. IsNetOfWidth builder.new net bits) }
    ensures value { IfOk result (λ net. Always builder.new (λ cycle. IsChosen (length asks.now) (cycle.net holder.number)
        (is_set cycle asks.now) (cycle.net locked.number == 1) (cycle.net net.number))) }
    ensures adds { AddsNets (8 * length asks.now + 1) builder.old builder.new }
    ensures full { result ≡ Err NetFault.TooManyNets → 2 ^ 20 < length builder.old.lines + (8 * length asks.now + 1) }
{
    let behind = behind_each(alloc, builder, asks, holder, bits)?;
    let some_behind = any_high(builder, behind.as_slice())?;
    let first_behind = first_high(builder, behind.as_slice(), 0, bits)?;
    let first = first_high(builder, asks, 0, bits)?;
    let next = choose(builder, some_behind, first_behind, first)?;
    choose(builder, locked, holder, next)
}
