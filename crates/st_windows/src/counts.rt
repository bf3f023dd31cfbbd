//! Counts of symbols, and whether so many make a beat.

ghost use Rattle.std.specs.Prelude.{◌≡◌, ◌+◌, ◌-◌, ◌%◌, ◌^◌, ◌<◌, ◌≤◌, ◌==◌, ◌||◌, nat_lt, length, IfOk};
ghost use Rattle.netlist.specs.Netlists.{IsNet};
ghost use Rattle.netlist.specs.Runs.{Always};
ghost use Rattle.net_parts.specs.Nets.{IsBit, IsNetOfWidth};
ghost use Rattle.net_parts.specs.Growth.{AddsNets};
ghost use Rattle.stage_core.specs.Beats.{AreBeatNets};
ghost use Rattle.stage_core.specs.Groups.{shown_in};
ghost use Rattle.st_windows.specs.Rows.{joined_count};

use crate::sizes::WindowSizes;
use net_parts::{constant, fit_bits, is_above};
use netlist::{Builder, Net, NetFault};
use stage_core::BeatNets;

/// `empty` with the bits of a count.
#[tactic(auto, using(net_parts::specs::Laws::growing))]
fn fit_empty(builder: &mut Builder, sizes: &WindowSizes, empty: Net) -> Result<Net, NetFault>
    requires empty { IsNet builder.old empty }
    ensures net { IfOk result (λ n. IsNetOfWidth builder.new n sizes.now.count) }
    ensures value { IfOk result (λ n. Always builder.new (λ cycle. cycle.net n.number
        ≡ cycle.net empty.number % 2 ^ sizes.now.count)) }
    ensures adds { AddsNets 2 builder.old builder.new }
    ensures full { result ≡ Err NetFault.TooManyNets → 2 ^ 20 < length builder.old.lines + 2 }
{
    let bits = builder.width(empty);
    fit_bits(builder, empty, bits, sizes.count)
}

/// How many symbols are held and come, as one count.
#[tactic(auto, using(net_parts::specs::Laws::growing))]
pub(crate) fn count_joined(
    builder: &mut Builder,
    sizes: &WindowSizes,
    held: Net,
    from: &BeatNets,
) -> Result<Net, NetFault>
    requires held { IsNetOfWidth builder.old held sizes.now.count }
    requires from { AreBeatNets builder.old from.now }
    ensures net { IfOk result (λ count. IsNetOfWidth builder.new count sizes.now.count) }
    ensures value { IfOk result (λ count. Always builder.new (λ cycle. cycle.net count.number
        ≡ joined_count sizes.now (cycle.net held.number) (shown_in cycle from.now))) }
    ensures adds { AddsNets 7 builder.old builder.new }
    ensures full { result ≡ Err NetFault.TooManyNets → 2 ^ 20 < length builder.old.lines + 7 }
{
    let fitted = fit_empty(builder, sizes, from.empty)?;
    let none = constant(builder, sizes.count, 0)?;
    let empty = builder.mux(from.last, fitted, none)?;
    let size = constant(builder, sizes.count, sizes.from)?;
    let coming = builder.sub(size, empty)?;
    builder.add(held, coming)
}

/// Whether so many symbols make a beat: they fill one, or the last of them ends a packet.
#[tactic(auto, using(net_parts::specs::Laws::growing))]
pub(crate) fn makes_beat(
    builder: &mut Builder,
    sizes: &WindowSizes,
    count: Net,
    last: Net,
) -> Result<Net, NetFault>
    requires count { IsNetOfWidth builder.old count sizes.now.count }
    requires last { IsBit builder.old last }
    ensures net { IfOk result (λ whole. IsBit builder.new whole) }
    ensures value { IfOk result (λ whole. Always builder.new (λ cycle. (cycle.net whole.number == 1)
        ≡ (nat_lt (sizes.now.into - 1) (cycle.net count.number) || (cycle.net last.number == 1)))) }
    ensures adds { AddsNets 3 builder.old builder.new }
    ensures full { result ≡ Err NetFault.TooManyNets → 2 ^ 20 < length builder.old.lines + 3 }
{
    let most = u32::from(sizes.into - 1);
    let enough = is_above(builder, count, sizes.count, most)?;
    builder.or(enough, last)
}
