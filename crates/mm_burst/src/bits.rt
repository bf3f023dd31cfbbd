//! Makers of a bit, and of a choice.

ghost use Rattle.std.specs.Prelude.{◌≡◌, ◌+◌, ◌-◌, ◌^◌, ◌<◌, ◌≤◌, if◌then◌else◌, length, nat_lt, IfOk};
ghost use Rattle.histories.specs.History.{is_raised};
ghost use Rattle.netlist.specs.Netlists.{IsNet};
ghost use Rattle.netlist.specs.Runs.{Always};
ghost use Rattle.net_parts.specs.Nets.{IsBit, IsNetOfWidth};
ghost use Rattle.net_parts.specs.Growth.{AddsNets};
ghost use Rattle.memory_runs.specs.Commands.{longest_burst};

use av_base::Val;
use net_parts::choose;
use netlist::{Builder, Net, NetFault};

/// The most beats that a burst has where so many bits count them.
fn longest(count_bits: u8) -> u128
    requires some { 1 ≤ count_bits }
    requires few { count_bits ≤ 11 }
    ensures value { result ≡ longest_burst count_bits }
    ensures fits { result < 2 ^ count_bits }
{
    1u128 << (count_bits - 1)
}

/// A net of so many bits that shows the most beats of a burst that fewer bits count.
#[tactic(auto, using(net_parts::specs::Laws::growing))]
pub(crate) fn longest_net(
    builder: &mut Builder,
    count_bits: u8,
    below_bits: u8,
) -> Result<Net, NetFault>
    requires some { 1 ≤ below_bits }
    requires fewer { below_bits ≤ count_bits }
    requires few { count_bits ≤ 11 }
    ensures net { IfOk result (λ net. IsNetOfWidth builder.new net count_bits) }
    ensures value { IfOk result (λ net. Always builder.new (λ cycle. cycle.net net.number ≡ longest_burst below_bits)) }
    ensures adds { AddsNets 1 builder.old builder.new }
    ensures full { result ≡ Err NetFault.TooManyNets → 2 ^ 20 < length builder.old.lines + 1 }
{
    builder.constant(Val::new(count_bits, longest(below_bits)).unwrap())
}

/// High where a net doesn't show 0.
#[tactic(auto, using(net_parts::specs::Laws::growing))]
pub(crate) fn is_some(builder: &mut Builder, net: Net) -> Result<Net, NetFault>
    requires { IsNet builder.old net }
    ensures net { IfOk result (λ some. IsBit builder.new some) }
    ensures value { IfOk result (λ some. Always builder.new (λ cycle. is_raised (cycle.net some.number)
        ≡ nat_lt 0 (cycle.net net.number))) }
    ensures adds { AddsNets 1 builder.old builder.new }
    ensures full { result ≡ Err NetFault.TooManyNets → 2 ^ 20 < length builder.old.lines + 1 }
{
    builder.any(net)
}

/// High where one net of a width shows less than another.
#[tactic(auto, using(net_parts::specs::Laws::growing))]
pub(crate) fn is_less(builder: &mut Builder, net: Net, limit: Net) -> Result<Net, NetFault>
    requires net { IsNet builder.old net }
    requires limit { IsNet builder.old limit }
    requires widths { net.width ≡ limit.width }
    ensures net { IfOk result (λ less. IsBit builder.new less) }
    ensures value { IfOk result (λ less. Always builder.new (λ cycle. is_raised (cycle.net less.number)
        ≡ nat_lt (cycle.net net.number) (cycle.net limit.number))) }
    ensures adds { AddsNets 1 builder.old builder.new }
    ensures full { result ≡ Err NetFault.TooManyNets → 2 ^ 20 < length builder.old.lines + 1 }
{
    builder.less(net, limit)
}

/// One of two nets of a width: the first where the bit is high.
#[tactic(auto, using(net_parts::specs::Laws::growing))]
pub(crate) fn pick(builder: &mut Builder, bit: Net, one: Net, other: Net) -> Result<Net, NetFault>
    requires bit { IsBit builder.old bit }
    requires one { IsNet builder.old one }
    requires other { IsNet builder.old other }
    requires widths { one.width ≡ other.width }
    ensures net { IfOk result (λ made. IsNetOfWidth builder.new made one.width) }
    ensures value { IfOk result (λ made. Always builder.new (λ cycle. cycle.net made.number
        ≡ (if is_raised (cycle.net bit.number) then cycle.net one.number else cycle.net other.number))) }
    ensures adds { AddsNets 1 builder.old builder.new }
    ensures full { result ≡ Err NetFault.TooManyNets → 2 ^ 20 < length builder.old.lines + 1 }
{
    choose(builder, bit, one, other)
}
