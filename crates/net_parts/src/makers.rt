//! Makers of one net, or of a few.

ghost use Rattle.std.specs.Prelude.{◌≡◌, ◌+◌, ◌%◌, ◌^◌, ◌<◌, ◌≤◌, ◌==◌, length, nat_lt, if◌then◌else◌, IfOk, OnOk};
ghost use Rattle.netlist.specs.Netlists.{IsNet, IsWaiting};
ghost use Rattle.netlist.specs.Runs.{Always};
ghost use Rattle.net_parts.specs.Nets.{IsNetOfWidth, IsBit, StartsLow};
ghost use Rattle.net_parts.specs.Growth.{fit_nets, GrowsBy, AddsNets, StillWait, WaitsBeside};

use av_base::Val;
use netlist::{Builder, Net, NetFault};

/// A net that always has this value.
#[tactic(auto, using(crate::specs::Laws::growing))]
pub fn constant(builder: &mut Builder, width: u8, value: u8) -> Result<Net, NetFault>
    requires some { 1 ≤ width }
    requires small { width ≤ 128 }
    requires fits { value < 2 ^ width }
    ensures net { IfOk result (λ n. IsNetOfWidth builder.new n width) }
    ensures value { IfOk result (λ n. Always builder.new (λ cycle. cycle.net n.number ≡ value)) }
    ensures adds { AddsNets 1 builder.old builder.new }
    ensures full { result ≡ Err NetFault.TooManyNets → 2 ^ 20 < length builder.old.lines + 1 }
{
    builder.constant(Val::new(width, u128::from(value)).unwrap())
}

/// A net of one bit that always has this level.
#[tactic(auto, using(crate::specs::Laws::growing))]
pub fn level(builder: &mut Builder, high: bool) -> Result<Net, NetFault>
    ensures net { IfOk result (λ net. IsBit builder.new net) }
    ensures value { IfOk result (λ net. Always builder.new (λ cycle. cycle.net net.number ≡ (if high then 1 else 0))) }
    ensures adds { AddsNets 1 builder.old builder.new }
    ensures full { result ≡ Err NetFault.TooManyNets → 2 ^ 20 < length builder.old.lines + 1 }
{
    builder.constant(Val::new(1, u128::from(high)).unwrap())
}

/// Whether the net is above this number.
#[tactic(auto, using(crate::specs::Laws::growing))]
pub fn is_above(builder: &mut Builder, net: Net, bits: u8, largest: u32) -> Result<Net, NetFault>
    requires net { IsNetOfWidth builder.old net bits }
    requires some { 1 ≤ bits }
    requires few { bits ≤ 128 }
    requires fits { largest < 2 ^ bits }
    ensures net { IfOk result (λ above. IsBit builder.new above) }
    ensures value { IfOk result (λ above. Always builder.new (λ cycle. cycle.net above.number
        ≡ (if nat_lt largest (cycle.net net.number) then 1 else 0))) }
    ensures adds { AddsNets 2 builder.old builder.new }
    ensures full { result ≡ Err NetFault.TooManyNets → 2 ^ 20 < length builder.old.lines + 2 }
{
    let limit = builder.constant(Val::new(bits, u128::from(largest)).unwrap())?;
    builder.less(limit, net)
}

/// A net in another width: cut, or with zeros above it.
#[tactic(auto, using(crate::specs::Laws::growing))]
pub fn fit_bits(builder: &mut Builder, net: Net, bits: u8, wanted: u8) -> Result<Net, NetFault>
    requires net { IsNetOfWidth builder.old net bits }
    requires some { 1 ≤ bits }
    requires some_wanted { 1 ≤ wanted }
    requires few { wanted ≤ 128 }
    ensures net { IfOk result (λ fitted. IsNetOfWidth builder.new fitted wanted) }
    ensures value { IfOk result (λ fitted. Always builder.new (λ cycle. cycle.net fitted.number
        ≡ cycle.net net.number % 2 ^ wanted)) }
    ensures adds { AddsNets (fit_nets bits wanted) builder.old builder.new }
    ensures full { result ≡ Err NetFault.TooManyNets → 2 ^ 20 < length builder.old.lines + fit_nets bits wanted }
{
    if wanted == bits {
        return Ok(net);
    }
    if wanted < bits {
        return builder.slice(net, wanted - 1, 0);
    }
    let zeros = builder.constant(Val::new(wanted - bits, 0).unwrap())?;
    builder.concat(zeros, net)
}

/// A register of the width of a net, that begins at 0.
pub fn low_register(builder: &mut Builder, like: Net) -> Result<Net, NetFault>
    requires { IsNet builder.old like }
    ensures net { IfOk result (λ n. IsNetOfWidth builder.new n like.width) }
    ensures number { IfOk result (λ n. n.number ≡ length builder.old.lines) }
    ensures count { OnOk result (length builder.new.lines ≡ length builder.old.lines + 1) }
    ensures starts { IfOk result (λ n. StartsLow builder.new n) }
    ensures waits { IfOk result (λ n. IsWaiting builder.new n.number) }
    ensures grows { GrowsBy 1 builder.old builder.new }
    ensures still_wait { StillWait builder.old builder.new }
    ensures newly { WaitsBeside (λ n. n ≡ length builder.old.lines) builder.old builder.new }
    ensures full { result ≡ Err NetFault.TooManyNets → 2 ^ 20 < length builder.old.lines + 1 }
{
    let width = builder.width(like);
    builder.reg(Val::new(width, 0).unwrap())
}

/// One of two nets of one width: the first where the bit is set.
#[tactic(auto, using(crate::specs::Laws::growing))]
pub fn choose(builder: &mut Builder, bit: Net, one: Net, other: Net) -> Result<Net, NetFault>
    requires bit { IsBit builder.old bit }
    requires one { IsNet builder.old one }
    requires other { IsNet builder.old other }
    requires widths { one.width ≡ other.width }
    ensures net { IfOk result (λ n. IsNetOfWidth builder.new n one.width) }
    ensures value { IfOk result (λ n. Always builder.new (λ cycle. cycle.net n.number
        ≡ (if cycle.net bit.number == 0 then cycle.net other.number else cycle.net one.number))) }
    ensures adds { AddsNets 1 builder.old builder.new }
    ensures full { result ≡ Err NetFault.TooManyNets → 2 ^ 20 < length builder.old.lines + 1 }
{
    builder.mux(bit, one, other)
}
