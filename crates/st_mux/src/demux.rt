//! A demultiplexer: each beat goes straight to the output that has the number of its channel. It keeps no state, and makes three
//! nets for each output and two for each of their readies.

ghost use Rattle.std.specs.Prelude.{◌≡◌, ◌+◌, ◌-◌, ◌*◌, ◌^◌, ◌<◌, ◌≤◌, ◌&&◌, ◌==◌, length, IfOk};
ghost use Rattle.netlist.specs.Runs.{Always};
ghost use Rattle.net_parts.specs.Nets.{IsBit, IsNetOfWidth};
ghost use Rattle.net_parts.specs.Growth.{AddsNets};
ghost use Rattle.st_mux.specs.Selecting.{AreBits};
ghost use Rattle.st_mux.specs.Packets.{ArePacketNets};
ghost use Rattle.st_mux.specs.DemultiplexerNets.{DemultiplexesInLonger};
ghost use Rattle.st_mux.specs.Each.{MakesEach, shown_on};

use crate::packet::PacketNets;
use crate::select::select_bit;
use net_parts::constant;
use netlist::{Builder, Net, NetFault};
use routed_runs::machines::demultiplexer_demultiplexes;
use std::alloc::Global;

/// The nets that a demultiplexer gives, beside those of the beat, which all outputs show.
#[derive(Drop)]
pub struct DemultiplexerNets {
    /// `valid` of each output, one bit.
    pub valids: Vec<Net>,
    /// To the input, one bit.
    pub ready: Net,
}

/// Whether a beat is shown on the channel of this number.
#[tactic(auto, using(net_parts::specs::Laws::growing))]
pub fn shown_on(
    builder: &mut Builder,
    shown: Net,
    channel: Net,
    bits: u8,
    number: u8,
) -> Result<Net, NetFault>
    requires shown { IsBit builder.old shown }
    requires channel { IsNetOfWidth builder.old channel bits }
    requires some { 1 ≤ bits }
    requires small { bits ≤ 4 }
    requires fits { number < 2 ^ bits }
    ensures net { IfOk result (λ net. IsBit builder.new net) }
    ensures value { IfOk result (λ net. Always builder.new (λ cycle. (cycle.net net.number == 1)
        ≡ ((cycle.net shown.number == 1) && (cycle.net channel.number == number)))) }
    ensures adds { AddsNets 3 builder.old builder.new }
    ensures full { result ≡ Err NetFault.TooManyNets → 2 ^ 20 < length builder.old.lines + 3 }
{
    let wanted = constant(builder, bits, number)?;
    let here = builder.eq(channel, wanted)?;
    builder.and(shown, here)
}

/// For each of so many channels whether a beat is shown on it.
#[tactic(auto, using(net_parts::specs::Laws::growing))]
fn shown_on_each(
    alloc: Global,
    builder: &mut Builder,
    shown: Net,
    channel: Net,
    bits: u8,
    count: u8,
) -> Result<Vec<Net>, NetFault>
    requires shown { IsBit builder.old shown }
    requires channel { IsNetOfWidth builder.old channel bits }
    requires some { 1 ≤ bits }
    requires small { bits ≤ 4 }
    requires fits { count ≤ 2 ^ bits }
    ensures each { IfOk result (λ nets. MakesEach builder.old builder.new (shown_on shown channel) nets.items count) }
    ensures adds { AddsNets (3 * count) builder.old builder.new }
    ensures full { result ≡ Err NetFault.TooManyNets → 2 ^ 20 < length builder.old.lines + 3 * count }
{
    let mut nets = Vec::new(alloc);
    for number in 0..count {
        let here = shown_on(builder, shown, channel, bits, number)?;
        nets.push(here)?;
    }
    Ok(nets)
}

/// Makes a demultiplexer from the beat of its input, the channel of so many bits, and the readies of its outputs. After an error
/// the builder is to be dropped.
#[tactic(auto, using(net_parts::specs::Laws::growing))]
pub fn emit_demultiplexer(
    alloc: Global,
    builder: &mut Builder,
    from: &PacketNets,
    channel: Net,
    bits: u8,
    readies: &[Net],
) -> Result<DemultiplexerNets, NetFault>
    requires from { ArePacketNets builder.old from.now }
    requires channel { IsNetOfWidth builder.old channel bits }
    requires some_bits { 1 ≤ bits }
    requires few_bits { bits ≤ 4 }
    requires readies { AreBits builder.old readies.now }
    requires some { 0 < length readies.now }
    requires few { length readies.now ≤ 2 ^ bits }
    ensures ready { IfOk result (λ made. IsBit builder.new made.ready) }
    ensures valids { IfOk result (λ made. AreBits builder.new made.valids.items) }
    ensures count { IfOk result (λ made. length made.valids.items ≡ length readies.now) }
    ensures demultiplexes { IfOk result (λ made. DemultiplexesInLonger builder.new from.now channel made.ready made.valids.items readies.now) }
    ensures adds { AddsNets (5 * length readies.now - 2) builder.old builder.new }
    ensures full { result ≡ Err NetFault.TooManyNets → 2 ^ 20 < length builder.old.lines + (5 * length readies.now - 2) }
{
    demultiplexer_demultiplexes();
    let valids = shown_on_each(
        alloc,
        builder,
        from.valid,
        channel,
        bits,
        readies.len() as u8,
    )?;
    let ready = select_bit(builder, channel, bits, readies)?;
    Ok(DemultiplexerNets { valids, ready })
}
