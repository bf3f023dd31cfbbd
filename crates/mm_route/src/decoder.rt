//! The decoder: which entry of the map holds the address of a command.

ghost use Rattle.std.specs.Prelude.{◌≡◌, ◌+◌, ◌-◌, ◌*◌, ◌/◌, ◌%◌, ◌^◌, ◌<◌, ◌≤◌, ◌∷◌, length, if◌then◌else◌, IfOk};
ghost use Rattle.av_base.specs.Word.{word};
ghost use Rattle.histories.specs.History.{is_raised, one_if};
ghost use Rattle.netlist.specs.Runs.{Always};
ghost use Rattle.net_parts.specs.Nets.{IsBit, IsNetOfWidth};
ghost use Rattle.net_parts.specs.Growth.{AddsNets};
ghost use Rattle.mm_route.specs.Entries.{IsEntry, AreEntries, is_inside, serves, kind_of};
ghost use Rattle.mm_route.specs.Decoder.{AreAskedNets, held_in, hits_in};

use av_base::Val;
use command_nets::both;
use memory_runs::sides::Route;
use net_parts::level;
use netlist::{Builder, Net, NetFault};

/// What the decoder reads of a command.
#[derive(Clone, Copy)]
pub(crate) struct AskedNets {
    pub address: Net,
    /// The width of the address.
    pub width: u8,
    pub write: Net,
    /// `write`, turned.
    pub no_write: Net,
}

/// The high bits of an entry's base, those that name its footprint.
fn high_base(entry: &Route, width: u8) -> Val
    requires entry { IsEntry width entry.now }
    requires some { entry.now.bits < width }
    requires small { width ≤ 128 }
    ensures { result ≡ word (width - entry.now.bits) (entry.now.base / 2 ^ entry.now.bits) }
{
    Val::new(width - entry.bits, u128::from(entry.base) >> entry.bits).unwrap()
}

/// The high bits of an address, those that name a footprint of 2 to the `bits` bytes.
#[tactic(auto, using(net_parts::specs::Laws::growing, crate::proofs::Decoding::upper_bits))]
fn high_bits(builder: &mut Builder, address: Net, width: u8, bits: u8) -> Result<Net, NetFault>
    requires address { IsNetOfWidth builder.old address width }
    requires some { bits < width }
    ensures net { IfOk result (λ high. IsNetOfWidth builder.new high (width - bits)) }
    ensures value { IfOk result (λ high. Always builder.new (λ cycle. cycle.net high.number
        ≡ cycle.net address.number / 2 ^ bits % 2 ^ (width - bits))) }
    ensures adds { AddsNets 1 builder.old builder.new }
    ensures full { result ≡ Err NetFault.TooManyNets → 2 ^ 20 < length builder.old.lines + 1 }
{
    builder.slice(address, width - 1, bits)
}

/// Whether the footprint of an entry holds the address.
#[tactic(auto, using(net_parts::specs::Laws::growing))]
fn is_inside(builder: &mut Builder, address: Net, width: u8, entry: &Route) -> Result<Net, NetFault>
    requires address { IsNetOfWidth builder.old address width }
    requires entry { IsEntry width entry.now }
    requires small { width ≤ 128 }
    ensures net { IfOk result (λ inside. IsBit builder.new inside) }
    ensures value { IfOk result (λ inside. Always builder.new (λ cycle. cycle.net inside.number
        ≡ one_if (is_inside entry.now (cycle.net address.number)))) }
    ensures adds { AddsNets 3 builder.old builder.new }
    ensures full { result ≡ Err NetFault.TooManyNets → 2 ^ 20 < length builder.old.lines + 3 }
{
    if entry.bits >= width {
        return level(builder, true);
    }
    let high = high_bits(builder, address, width, entry.bits)?;
    let base = builder.constant(high_base(entry, width))?;
    builder.eq(high, base)
}

/// The bit where the command is no write, and low else.
#[tactic(auto, using(net_parts::specs::Laws::growing))]
fn where_read(builder: &mut Builder, asked: &AskedNets, inside: Net) -> Result<Net, NetFault>
    requires asked { AreAskedNets builder.old asked.now }
    requires inside { IsBit builder.old inside }
    ensures net { IfOk result (λ held. IsBit builder.new held) }
    ensures value { IfOk result (λ held. Always builder.new (λ cycle. cycle.net held.number
        ≡ (if is_raised (cycle.net asked.now.no_write.number) then cycle.net inside.number else 0))) }
    ensures adds { AddsNets 1 builder.old builder.new }
    ensures full { result ≡ Err NetFault.TooManyNets → 2 ^ 20 < length builder.old.lines + 1 }
{
    both(builder, asked.no_write, inside)
}

/// The bit where the agent of the entry has the command's kind, and low else.
#[tactic(auto, using(net_parts::specs::Laws::growing))]
fn of_kind(
    builder: &mut Builder,
    asked: &AskedNets,
    entry: &Route,
    inside: Net,
) -> Result<Net, NetFault>
    requires asked { AreAskedNets builder.old asked.now }
    requires inside { IsBit builder.old inside }
    ensures net { IfOk result (λ held. IsBit builder.new held) }
    ensures value { IfOk result (λ held. Always builder.new (λ cycle. cycle.net held.number
        ≡ (if serves entry.now (kind_of (cycle.net asked.now.write.number)) then cycle.net inside.number else 0))) }
    ensures adds { AddsNets 1 builder.old builder.new }
    ensures full { result ≡ Err NetFault.TooManyNets → 2 ^ 20 < length builder.old.lines + 1 }
{
    if entry.reads {
        if entry.writes {
            return Ok(inside);
        }
        return where_read(builder, asked, inside);
    }
    if entry.writes {
        return builder.and(inside, asked.write);
    }
    level(builder, false)
}

/// Whether the entry holds the command.
#[tactic(auto, using(net_parts::specs::Laws::growing))]
fn hit(builder: &mut Builder, asked: &AskedNets, entry: &Route) -> Result<Net, NetFault>
    requires asked { AreAskedNets builder.old asked.now }
    requires entry { IsEntry asked.now.width entry.now }
    requires small { asked.now.width ≤ 128 }
    ensures net { IfOk result (λ held. IsBit builder.new held) }
    ensures value { IfOk result (λ held. Always builder.new (λ cycle. cycle.net held.number
        ≡ one_if (held_in cycle asked.now entry.now))) }
    ensures adds { AddsNets 4 builder.old builder.new }
    ensures full { result ≡ Err NetFault.TooManyNets → 2 ^ 20 < length builder.old.lines + 4 }
{
    let inside = is_inside(builder, asked.address, asked.width, entry)?;
    of_kind(builder, asked, entry, inside)
}

/// A bit for each entry, the first one lowest: whether it holds the command.
#[tactic(auto, using(net_parts::specs::Laws::growing))]
pub(crate) fn decode(
    builder: &mut Builder,
    asked: &AskedNets,
    first: &Route,
    later: &[Route],
) -> Result<Net, NetFault>
    requires asked { AreAskedNets builder.old asked.now }
    requires entries { AreEntries asked.now.width (first.now ∷ later.now) }
    requires small { asked.now.width ≤ 128 }
    requires few { length later.now + 1 ≤ 128 }
    ensures net { IfOk result (λ bits. IsNetOfWidth builder.new bits (length later.now + 1)) }
    ensures value { IfOk result (λ bits. Always builder.new (λ cycle. cycle.net bits.number
        ≡ hits_in cycle asked.now (first.now ∷ later.now))) }
    ensures adds { AddsNets (5 * (length later.now + 1)) builder.old builder.new }
    ensures full { result ≡ Err NetFault.TooManyNets → 2 ^ 20 < length builder.old.lines + 5 * (length later.now + 1) }
{
    let held = hit(builder, asked, first)?;
    match later.split_first() {
        None => Ok(held),
        Some((next, others)) => {
            let above = decode(builder, asked, next, others)?;
            builder.concat(above, held)
        }
    }
}
