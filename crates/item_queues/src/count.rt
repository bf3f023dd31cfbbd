//! The count of the items of a queue.

ghost use Rattle.std.specs.Prelude.{◌≡◌, ℕ, ◌+◌, ◌^◌, ◌<◌, ◌≤◌, length, IfOk, OnOk};
ghost use Rattle.netlist.specs.Netlists.{IsNet, IsWaiting};
ghost use Rattle.netlist.specs.Runs.{Always};
ghost use Rattle.net_parts.specs.Nets.{IsBit, IsNetOfWidth, StartsLow, TakesNext};
ghost use Rattle.net_parts.specs.Growth.{GrowsBy, AddsNets, StillWait, WaitsBeside, WaitsWithout};
ghost use Rattle.item_queues.specs.Steps.{CountsOn, IsNextCount};

use crate::bits::count_bits;
use net_parts::{fit_bits, register, take_next};
use netlist::{Builder, Net, NetFault};

/// A count up to this bound, that begins at 0.
pub(crate) fn hold_count(builder: &mut Builder, bound: u8) -> Result<Net, NetFault>
    ensures net { IfOk result (λ made. IsNet builder.new made) }
    ensures wide { IfOk result (λ made. bound < 2 ^ made.width) }
    ensures least { IfOk result (λ made. (bits : ℕ) → 1 ≤ bits → bound < 2 ^ bits → made.width ≤ bits) }
    ensures number { IfOk result (λ made. made.number ≡ length builder.old.lines) }
    ensures count { OnOk result (length builder.new.lines ≡ length builder.old.lines + 1) }
    ensures starts { IfOk result (λ made. StartsLow builder.new made) }
    ensures waits { IfOk result (λ made. IsWaiting builder.new made.number) }
    ensures grows { GrowsBy 1 builder.old builder.new }
    ensures still_wait { StillWait builder.old builder.new }
    ensures newly { IfOk result (λ made. WaitsBeside (λ n. n ≡ made.number) builder.old builder.new) }
    ensures full { result ≡ Err NetFault.TooManyNets → 2 ^ 20 < length builder.old.lines + 1 }
{
    register(builder, count_bits(bound))
}

/// The count after a cycle in which an item comes or one goes.
#[tactic(auto, using(net_parts::specs::Laws::growing))]
fn next_count(builder: &mut Builder, count: Net, comes: Net, goes: Net) -> Result<Net, NetFault>
    requires count { IsNet builder.old count }
    requires comes { IsBit builder.old comes }
    requires goes { IsBit builder.old goes }
    ensures net { IfOk result (λ next. IsNetOfWidth builder.new next count.width) }
    ensures value { IfOk result (λ next. Always builder.new (λ cycle. IsNextCount count.width (cycle.net count.number)
        (cycle.net comes.number) (cycle.net goes.number) (cycle.net next.number))) }
    ensures adds { AddsNets 6 builder.old builder.new }
    ensures full { result ≡ Err NetFault.TooManyNets → 2 ^ 20 < length builder.old.lines + 6 }
{
    let bits = builder.width(count);
    let more = fit_bits(builder, comes, 1, bits)?;
    let fewer = fit_bits(builder, goes, 1, bits)?;
    let sum = builder.add(count, more)?;
    builder.sub(sum, fewer)
}

/// Lets the count rise where an item comes, and fall where one goes.
#[tactic(auto, using(net_parts::specs::Laws::growing))]
pub fn move_count(builder: &mut Builder, count: Net, comes: Net, goes: Net) -> Result<(), NetFault>
    requires count { IsNet builder.old count }
    requires comes { IsBit builder.old comes }
    requires goes { IsBit builder.old goes }
    requires waits { IsWaiting builder.old count.number }
    ensures value { OnOk result (CountsOn builder.new count comes goes) }
    ensures grows { GrowsBy 6 builder.old builder.new }
    ensures waits { (n : ℕ) → ¬ (n ≡ count.number) → IsWaiting builder.old n → IsWaiting builder.new n }
    ensures no_more_wait { OnOk result (WaitsWithout (λ n. n ≡ count.number) builder.old builder.new) }
    ensures full { result ≡ Err NetFault.TooManyNets → 2 ^ 20 < length builder.old.lines + 6 }
{
    let next = next_count(builder, count, comes, goes)?;
    take_next(builder, count, next);
    Ok(())
}
