//! Counts that begin anew.

ghost use Rattle.std.specs.Prelude.{◌≡◌, ◌+◌, ◌^◌, ◌<◌, if◌then◌else◌, length, IfOk};
ghost use Rattle.histories.specs.History.{is_raised};
ghost use Rattle.netlist.specs.Netlists.{IsNet};
ghost use Rattle.netlist.specs.Runs.{Always};
ghost use Rattle.net_parts.specs.Nets.{IsBit, IsNetOfWidth};
ghost use Rattle.net_parts.specs.Growth.{AddsNets};

use net_parts::{choose, constant};
use netlist::{Builder, Net, NetFault};

/// A count after a cycle: none where it ends, and else `more` where something is counted.
#[tactic(auto, using(net_parts::specs::Laws::growing))]
pub fn count_until(
    builder: &mut Builder,
    count: Net,
    more: Net,
    counts: Net,
    ends: Net,
) -> Result<Net, NetFault>
    requires count { IsNet builder.old count }
    requires more { IsNetOfWidth builder.old more count.width }
    requires counts { IsBit builder.old counts }
    requires ends { IsBit builder.old ends }
    ensures net { IfOk result (λ next. IsNetOfWidth builder.new next count.width) }
    ensures value { IfOk result (λ next. Always builder.new (λ cycle. cycle.net next.number
        ≡ (if is_raised (cycle.net ends.number) then 0 else if is_raised (cycle.net counts.number) then cycle.net more.number
        else cycle.net count.number))) }
    ensures adds { AddsNets 3 builder.old builder.new }
    ensures full { result ≡ Err NetFault.TooManyNets → 2 ^ 20 < length builder.old.lines + 3 }
{
    let bits = builder.width(count);
    let none = constant(builder, bits, 0)?;
    let some = choose(builder, counts, more, count)?;
    choose(builder, ends, none, some)
}
