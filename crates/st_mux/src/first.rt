//! The first of several bits that is high.

ghost use Rattle.std.specs.Prelude.{◌≡◌, ◌+◌, ◌-◌, ◌*◌, ◌^◌, ◌<◌, ◌≤◌, ◌==◌, length, IfOk};
ghost use Rattle.netlist.specs.Runs.{Always};
ghost use Rattle.net_parts.specs.Nets.{IsBit, IsNetOfWidth};
ghost use Rattle.net_parts.specs.Growth.{AddsNets};
ghost use Rattle.st_mux.specs.Selecting.{AreBits};
ghost use Rattle.st_mux.specs.Choosing.{some_set, first_set};

use net_parts::{choose, constant, level};
use netlist::{Builder, Net, NetFault};

/// Whether one of the bits is high.
#[tactic(auto, using(net_parts::specs::Laws::growing))]
pub(crate) fn any_high(builder: &mut Builder, nets: &[Net]) -> Result<Net, NetFault>
    requires nets { AreBits builder.old nets.now }
    ensures net { IfOk result (λ net. IsBit builder.new net) }
    ensures value { IfOk result (λ net. Always builder.new (λ cycle. (cycle.net net.number == 1) ≡ some_set cycle nets.now)) }
    ensures adds { AddsNets (length nets.now + 1) builder.old builder.new }
    ensures full { result ≡ Err NetFault.TooManyNets → 2 ^ 20 < length builder.old.lines + (length nets.now + 1) }
{
    if nets.is_empty() {
        return level(builder, false);
    }
    let others = any_high(builder, &nets[1..])?;
    builder.or(nets[0], others)
}

/// The number of the first of the bits that is high, or that of the last one, where they are counted from a number on.
#[tactic(auto, using(net_parts::specs::Laws::growing))]
pub(crate) fn first_high(
    builder: &mut Builder,
    nets: &[Net],
    from: u8,
    bits: u8,
) -> Result<Net, NetFault>
    requires nets { AreBits builder.old nets.now }
    requires some { 0 < length nets.now }
    requires some_bits { 1 ≤ bits }
    requires few_bits { bits ≤ 4 }
    requires few { from + length nets.now ≤ 2 ^ bits }
    ensures net { IfOk result (λ net. IsNetOfWidth builder.new net bits) }
    ensures value { IfOk result (λ net. Always builder.new (λ cycle. cycle.net net.number ≡ first_set cycle nets.now from)) }
    ensures adds { AddsNets (2 * length nets.now - 1) builder.old builder.new }
    ensures full { result ≡ Err NetFault.TooManyNets → 2 ^ 20 < length builder.old.lines + (2 * length nets.now - 1) }
{
    if nets.len() == 1 {
        return constant(builder, bits, from);
    }
    let later = first_high(builder, &nets[1..], from + 1, bits)?;
    let here = constant(builder, bits, from)?;
    choose(builder, nets[0], here, later)
}
