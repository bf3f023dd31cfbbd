//! A choice among several nets, by a number.

ghost use Rattle.std.specs.Prelude.{◌≡◌, ◌+◌, ◌-◌, ◌*◌, ◌^◌, ◌<◌, ◌≤◌, length, IfOk};
ghost use Rattle.netlist.specs.Netlists.{IsNet};
ghost use Rattle.netlist.specs.Runs.{Always};
ghost use Rattle.net_parts.specs.Nets.{IsBit};
ghost use Rattle.net_parts.specs.Growth.{AddsNets};
ghost use Rattle.st_mux.specs.Packets.{ArePacketNets};
ghost use Rattle.st_mux.specs.PacketChoices.{shown_in, AreAlike, IsLike};
ghost use Rattle.st_mux.specs.Selecting.{AreBits, Selects};

use crate::packet::PacketNets;
use crate::turns::choose_packet;
use net_parts::choose;
use netlist::{Builder, Net, NetFault};

/// How many numbers the bits below the highest one have.
pub fn half_of(bits: u8) -> u8
    requires some { 1 ≤ bits }
    requires few { bits ≤ 4 }
    ensures { result ≡ 2 ^ (bits - 1) }
{
    match bits {
        1 => 1,
        2 => 2,
        3 => 4,
        _ => 8,
    }
}

/// Of these bits the one that has the number of the index's lowest bits.
#[tactic(auto, using(net_parts::specs::Laws::growing))]
pub fn select_bit(
    builder: &mut Builder,
    index: Net,
    bits: u8,
    nets: &[Net],
) -> Result<Net, NetFault>
    requires index { IsNet builder.old index }
    requires within { bits ≤ index.width }
    requires few_bits { bits ≤ 4 }
    requires nets { AreBits builder.old nets.now }
    requires some { 0 < length nets.now }
    requires few { length nets.now ≤ 2 ^ bits }
    ensures net { IfOk result (λ net. IsBit builder.new net) }
    ensures value { IfOk result (λ net. Always builder.new (λ cycle. Selects (λ item. cycle.net item.number)
        (cycle.net index.number) bits nets.now net)) }
    ensures adds { AddsNets (2 * length nets.now - 2) builder.old builder.new }
    ensures full { result ≡ Err NetFault.TooManyNets → 2 ^ 20 < length builder.old.lines + (2 * length nets.now - 2) }
{
    if bits == 0 {
        return Ok(nets[0]);
    }
    let half = usize::from(half_of(bits));
    if nets.len() <= half {
        return select_bit(builder, index, bits - 1, nets);
    }
    let (front, back) = nets.split_at(half);
    let low = select_bit(builder, index, bits - 1, front)?;
    let high = select_bit(builder, index, bits - 1, back)?;
    let bit = builder.slice(index, bits - 1, bits - 1)?;
    choose(builder, bit, high, low)
}

/// Of these beats the one that has the number of the index's lowest bits.
#[tactic(auto, using(net_parts::specs::Laws::growing))]
pub(crate) fn select_packet(
    builder: &mut Builder,
    index: Net,
    bits: u8,
    packets: &[PacketNets],
) -> Result<PacketNets, NetFault>
    requires index { IsNet builder.old index }
    requires within { bits ≤ index.width }
    requires few_bits { bits ≤ 4 }
    requires packets { AreAlike builder.old packets.now }
    requires some { 0 < length packets.now }
    requires few { length packets.now ≤ 2 ^ bits }
    ensures packet { IfOk result (λ made. ArePacketNets builder.new made) }
    ensures widths { IfOk result (λ made. IsLike made packets.now) }
    ensures value { IfOk result (λ made. Always builder.new (λ cycle. Selects (shown_in cycle)
        (cycle.net index.number) bits packets.now made)) }
    ensures adds { AddsNets (6 * length packets.now - 6) builder.old builder.new }
    ensures full { result ≡ Err NetFault.TooManyNets → 2 ^ 20 < length builder.old.lines + (6 * length packets.now - 6) }
{
    if bits == 0 {
        return Ok(packets[0]);
    }
    let half = usize::from(half_of(bits));
    if packets.len() <= half {
        return select_packet(builder, index, bits - 1, packets);
    }
    let (front, back) = packets.split_at(half);
    let low = select_packet(builder, index, bits - 1, front)?;
    let high = select_packet(builder, index, bits - 1, back)?;
    let top = builder.slice(index, bits - 1, bits - 1)?;
    choose_packet(builder, top, &high, &low)
}
