//! A bit that is led to one of several nets, by a number.

ghost use Rattle.std.specs.Prelude.{◌≡◌, ◌+◌, ◌-◌, ◌*◌, ◌^◌, ◌<◌, ◌≤◌, length, IfOk};
ghost use Rattle.netlist.specs.Netlists.{IsNet};
ghost use Rattle.netlist.specs.Runs.{Always};
ghost use Rattle.net_parts.specs.Nets.{IsBit};
ghost use Rattle.net_parts.specs.Growth.{AddsNets};
ghost use Rattle.st_mux.specs.Splitting.{AreLed, IsHalf};

use crate::select::half_of;
use netlist::{Builder, Net, NetFault};
use std::alloc::Global;

/// A bit where one digit of an index is 0, and where it is 1.
#[derive(Clone, Copy)]
struct Halves {
    front: Net,
    back: Net,
}

/// The bit by the highest of so many digits of the index.
#[tactic(auto, using(net_parts::specs::Laws::growing))]
fn halve_bit(builder: &mut Builder, bit: Net, index: Net, bits: u8) -> Result<Halves, NetFault>
    requires bit { IsBit builder.old bit }
    requires index { IsNet builder.old index }
    requires some { 1 ≤ bits }
    requires within { bits ≤ index.width }
    ensures front_net { IfOk result (λ made. IsBit builder.new made.front) }
    ensures back_net { IfOk result (λ made. IsBit builder.new made.back) }
    ensures front { IfOk result (λ made. Always builder.new (IsHalf made.front bit index (bits - 1) 0)) }
    ensures back { IfOk result (λ made. Always builder.new (IsHalf made.back bit index (bits - 1) 1)) }
    ensures adds { AddsNets 4 builder.old builder.new }
    ensures full { result ≡ Err NetFault.TooManyNets → 2 ^ 20 < length builder.old.lines + 4 }
{
    let top = builder.slice(index, bits - 1, bits - 1)?;
    let low = builder.not(top)?;
    let front = builder.and(bit, low)?;
    let back = builder.and(bit, top)?;
    Ok(Halves { front, back })
}

/// How many numbers so many bits have in each half.
fn half_size(bits: u8) -> usize
    requires some { 1 ≤ bits }
    requires few { bits ≤ 4 }
    ensures size { result ≡ 2 ^ (bits - 1) }
    ensures whole { 2 ^ bits ≡ result + result }
    ensures some { 1 ≤ result }
{
    usize::from(half_of(bits))
}

/// For each number below the count a net that is high where the bit is and the index's lowest bits are that number.
#[tactic(auto, using(net_parts::specs::Laws::growing))]
pub(crate) fn lead_bit(
    alloc: Global,
    builder: &mut Builder,
    bit: Net,
    index: Net,
    bits: u8,
    count: usize,
) -> Result<Vec<Net>, NetFault>
    requires bit { IsBit builder.old bit }
    requires index { IsNet builder.old index }
    requires within { bits ≤ index.width }
    requires few_bits { bits ≤ 4 }
    requires some { 0 < count }
    requires few { count ≤ 2 ^ bits }
    ensures each { IfOk result (λ nets. AreLed builder.new bit index bits nets.items count) }
    ensures adds { AddsNets (4 * (2 ^ bits - 1)) builder.old builder.new }
    ensures full { result ≡ Err NetFault.TooManyNets → 2 ^ 20 < length builder.old.lines + 4 * (2 ^ bits - 1) }
{
    if bits == 0 {
        let mut nets = Vec::new(alloc);
        nets.push(bit)?;
        return Ok(nets);
    }
    let half = half_size(bits);
    let halves = halve_bit(builder, bit, index, bits)?;
    if count <= half {
        return lead_bit(alloc, builder, halves.front, index, bits - 1, count);
    }
    let mut nets = lead_bit(alloc, builder, halves.front, index, bits - 1, half)?;
    let back = lead_bit(alloc, builder, halves.back, index, bits - 1, count - half)?;
    nets.extend_from_slice(back.as_slice())?;
    Ok(nets)
}
