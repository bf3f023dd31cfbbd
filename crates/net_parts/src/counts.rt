//! How many bits are high, as a sum of five bits.

ghost use Rattle.std.specs.Prelude.{◌≡◌, ◌+◌, ◌*◌, ◌^◌, ◌<◌, ◌≤◌, length, IfOk};
ghost use Rattle.netlist.specs.Netlists.{IsNet};
ghost use Rattle.netlist.specs.Runs.{Always};
ghost use Rattle.net_parts.specs.Nets.{IsBit, IsNetOfWidth};
ghost use Rattle.net_parts.specs.Growth.{AddsNets};
ghost use Rattle.net_parts.specs.Counts.{high_bits, AreZeros};

use netlist::{Builder, Net, NetFault};

/// One more where the bit is high.
#[tactic(auto, using(crate::specs::Laws::growing))]
pub fn add_bit(builder: &mut Builder, zeros: Net, sum: Net, bit: Net) -> Result<Net, NetFault>
    requires zeros { AreZeros builder.old zeros }
    requires sum { IsNetOfWidth builder.old sum 5 }
    requires small { Always builder.old (λ cycle. cycle.net sum.number < 31) }
    requires bit { IsBit builder.old bit }
    ensures net { IfOk result (λ more. IsNetOfWidth builder.new more 5) }
    ensures value { IfOk result (λ more. Always builder.new (λ cycle. cycle.net more.number
        ≡ cycle.net sum.number + cycle.net bit.number)) }
    ensures adds { AddsNets 2 builder.old builder.new }
    ensures full { result ≡ Err NetFault.TooManyNets → 2 ^ 20 < length builder.old.lines + 2 }
{
    let summand = builder.concat(zeros, bit)?;
    builder.add(sum, summand)
}

/// The sum, and one more for each of the lowest bits that is high.
#[tactic(auto, using(crate::specs::Laws::growing))]
pub fn count_high(
    builder: &mut Builder,
    zeros: Net,
    sum: Net,
    bits: Net,
    count: u8,
) -> Result<Net, NetFault>
    requires zeros { AreZeros builder.old zeros }
    requires sum { IsNetOfWidth builder.old sum 5 }
    requires small { Always builder.old (λ cycle. cycle.net sum.number + count < 32) }
    requires bits { IsNet builder.old bits }
    requires count { count ≤ bits.width }
    ensures net { IfOk result (λ total. IsNetOfWidth builder.new total 5) }
    ensures value { IfOk result (λ total. Always builder.new (λ cycle. cycle.net total.number
        ≡ cycle.net sum.number + high_bits count (cycle.net bits.number))) }
    ensures adds { AddsNets (3 * count) builder.old builder.new }
    ensures full { result ≡ Err NetFault.TooManyNets → 2 ^ 20 < length builder.old.lines + 3 * count }
{
    if count == 0 {
        return Ok(sum);
    }
    let highest = builder.slice(bits, count - 1, count - 1)?;
    let more = add_bit(builder, zeros, sum, highest)?;
    count_high(builder, zeros, more, bits, count - 1)
}
