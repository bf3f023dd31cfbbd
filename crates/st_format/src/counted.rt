//! Beats whose `empty` has the bits of a count and counts in each beat.

ghost use Rattle.std.specs.Prelude.{◌≡◌, ◌+◌, ◌-◌, ◌%◌, ◌^◌, ◌<◌, ◌≤◌, length, IfOk};
ghost use Rattle.netlist.specs.Netlists.{IsNet};
ghost use Rattle.netlist.specs.Runs.{Always};
ghost use Rattle.net_parts.specs.Nets.{IsNetOfWidth};
ghost use Rattle.stage_core.specs.Beats.{AreBeatNets};
ghost use Rattle.stage_core.specs.Groups.{shown_in};
ghost use Rattle.net_parts.specs.Growth.{AddsNets};
ghost use Rattle.st_format.specs.Counted.{counted, HaveCountedWidths};

use net_parts::{constant, fit_bits};
use netlist::{Builder, Net, NetFault};
use stage_core::BeatNets;

/// `empty` with so many bits: the lowest ones where it has more.
#[tactic(auto, using(net_parts::specs::Laws::growing))]
pub(crate) fn fit_empty(builder: &mut Builder, empty: Net, count: u8) -> Result<Net, NetFault>
    requires empty { IsNet builder.old empty }
    requires some { 1 ≤ count }
    requires few { count ≤ 128 }
    ensures net { IfOk result (λ n. IsNetOfWidth builder.new n count) }
    ensures value { IfOk result (λ n. Always builder.new (λ cycle. cycle.net n.number ≡ cycle.net empty.number % 2 ^ count)) }
    ensures adds { AddsNets 2 builder.old builder.new }
    ensures full { result ≡ Err NetFault.TooManyNets → 2 ^ 20 < length builder.old.lines + 2 }
{
    let bits = builder.width(empty);
    fit_bits(builder, empty, bits, count)
}

/// The beat with an `empty` of so many bits that is 0 where the beat isn't the last of a packet.
#[tactic(auto, using(net_parts::specs::Laws::growing))]
pub(crate) fn count_empty(
    builder: &mut Builder,
    from: &BeatNets,
    count: u8,
) -> Result<BeatNets, NetFault>
    requires from { AreBeatNets builder.old from.now }
    requires some { 1 ≤ count }
    requires few { count ≤ 128 }
    ensures beat { IfOk result (λ made. AreBeatNets builder.new made) }
    ensures widths { IfOk result (λ made. HaveCountedWidths count made from.now) }
    ensures value { IfOk result (λ made. Always builder.new (λ cycle. shown_in cycle made
        ≡ counted count (shown_in cycle from.now))) }
    ensures adds { AddsNets 4 builder.old builder.new }
    ensures full { result ≡ Err NetFault.TooManyNets → 2 ^ 20 < length builder.old.lines + 4 }
{
    let own = fit_empty(builder, from.empty, count)?;
    let none = constant(builder, count, 0)?;
    let empty = builder.mux(from.last, own, none)?;
    Ok(BeatNets {
        empty,
        ..from.copied()
    })
}
