//! The nets of the inputs at the ends of a module.

ghost use Rattle.std.specs.Prelude.{◌≡◌, ℕ, ◌+◌, ◌*◌, ◌^◌, ◌<◌, ◌≤◌, true, Some, Err, unwrap_or, length, IfOk};
ghost use Rattle.netlist.specs.Netlists.{IsNet, IsInputPort};
ghost use Rattle.net_parts.specs.Growth.{AddsNets};
ghost use Rattle.st_mux.specs.Packets.{ArePacketNets};
ghost use Rattle.routed_modules.specs.Ends.{HasEndAt, IsInputAt, IsInputIf, IsBeatAt, IsChannelAt, IsWordAt, HaveReadies, AreReadies, HaveEnds, AreBeats, marks_at};

use crate::header::EndPorts;
use crate::sizes::one_if;
use net_parts::level;
use netlist::{Builder, Net, NetFault};
use st_gather::WordNets;
use st_mux::PacketNets;
use std::alloc::Global;

/// The channel at an end where beats come in, whose ports begin at this place.
pub(crate) fn channel_at(builder: &Builder, place: u32, has: EndPorts, bits: u8) -> Net
    requires stands { HasEndAt builder.now place has }
    requires channel { has.channel ≡ Some bits }
    requires small { place ≤ 1000 }
    ensures { IsChannelAt builder.now place bits result }
{
    builder.input(place + 3)
}

/// The net of `empty` at this port, or one that is made where there is no such port.
#[tactic(auto, using(net_parts::specs::Laws::growing))]
fn empty_at(builder: &mut Builder, port: u32, empty: Option<u8>) -> Result<Net, NetFault>
    requires { (width : ℕ) → empty ≡ Some width → IsInputPort builder.old.ports port width }
    ensures net { IfOk result (λ net. IsNet builder.new net) }
    ensures at { IfOk result (λ net. IsInputIf builder.new port empty net) }
    ensures wide { IfOk result (λ net. net.width ≡ unwrap_or empty 1) }
    ensures adds { AddsNets 1 builder.old builder.new }
    ensures full { result ≡ Err NetFault.TooManyNets → 2 ^ 20 < length builder.old.lines + 1 }
{
    match empty {
        Some(_) => Ok(builder.input(port)),
        None => level(builder, false),
    }
}

/// The beat at an end with packets where beats come in, whose ports begin at this place. Where the end has no `empty`, a net is
/// made for it.
#[tactic(auto, using(net_parts::specs::Laws::growing))]
pub(crate) fn beat_at(
    builder: &mut Builder,
    place: u32,
    has: EndPorts,
) -> Result<PacketNets, NetFault>
    requires stands { HasEndAt builder.old place has }
    requires packets { has.packets ≡ true }
    requires small { place ≤ 1000 }
    ensures nets { IfOk result (λ beat. ArePacketNets builder.new beat) }
    ensures at { IfOk result (λ beat. IsBeatAt builder.new place has beat) }
    ensures wide { IfOk result (λ beat. beat.empty.width ≡ unwrap_or has.empty 1) }
    ensures adds { AddsNets 1 builder.old builder.new }
    ensures full { result ≡ Err NetFault.TooManyNets → 2 ^ 20 < length builder.old.lines + 1 }
{
    let marks = place + 3 + one_if(has.channel.is_some());
    let valid = builder.input(place + 1);
    let word = builder.input(place + 2);
    let first = builder.input(marks);
    let last = builder.input(marks + 1);
    let empty = empty_at(builder, marks + 2, has.empty)?;
    Ok(PacketNets {
        valid,
        word,
        first,
        last,
        empty,
    })
}

/// The word at an end without packets where beats come in, whose ports begin at this place.
pub(crate) fn word_at(builder: &Builder, place: u32, has: EndPorts, channel_bits: u8) -> WordNets
    requires stands { HasEndAt builder.now place has }
    requires channel { has.channel ≡ Some channel_bits }
    requires small { place ≤ 1000 }
    ensures { IsWordAt builder.now place has.word channel_bits result }
{
    let valid = builder.input(place + 1);
    let word = builder.input(place + 2);
    let channel = channel_at(builder, place, has, channel_bits);
    WordNets {
        valid,
        word,
        channel,
    }
}

/// The readies of so many ends where beats go out, each with so many ports.
pub(crate) fn readies_at(
    alloc: Global,
    builder: &Builder,
    place: u32,
    stride: u32,
    count: u8,
) -> Result<Vec<Net>, NetFault>
    requires readies { HaveReadies builder.now place stride count }
    requires small { place ≤ 1000 }
    requires narrow { stride ≤ 10 }
    ensures readies { IfOk result (λ nets. AreReadies builder.now place stride count nets.items) }
    ensures full { (result ≡ Err NetFault.TooManyNets) → ⊥ }
{
    let mut readies = Vec::new(alloc);
    for number in 0..count {
        readies.push(builder.input(place + stride * u32::from(number)))?;
    }
    Ok(readies)
}

/// The beats of so many ends in a row, each with so many ports, of which the first begin the header.
#[tactic(auto, using(net_parts::specs::Laws::growing))]
pub(crate) fn beats_at(
    alloc: Global,
    builder: &mut Builder,
    has: EndPorts,
    stride: u32,
    count: u8,
) -> Result<Vec<PacketNets>, NetFault>
    requires ends { HaveEnds builder.old stride has count }
    requires packets { has.packets ≡ true }
    requires narrow { stride ≤ 10 }
    requires few { count ≤ 16 }
    ensures beats { IfOk result (λ beats. AreBeats builder.new stride has count beats.items) }
    ensures adds { AddsNets count builder.old builder.new }
    ensures full { result ≡ Err NetFault.TooManyNets → 2 ^ 20 < length builder.old.lines + count }
{
    let mut beats = Vec::new(alloc);
    for number in 0..count {
        let beat = beat_at(builder, stride * u32::from(number), has)?;
        beats.push(beat)?;
    }
    Ok(beats)
}

/// The ready of an end where beats go out, whose ports begin at this place.
pub(crate) fn ready_at(builder: &Builder, place: u32) -> Net
    requires { IsInputPort builder.now.ports place 1 }
    ensures { IsInputAt builder.now place 1 result }
{
    builder.input(place)
}
