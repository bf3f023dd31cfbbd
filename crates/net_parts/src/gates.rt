//! Makers of one bit.

ghost use Rattle.std.specs.Prelude.{◌≡◌, ◌+◌, ◌^◌, ◌<◌, not, ◌&&◌, ◌||◌, if◌then◌else◌, length, IfOk};
ghost use Rattle.histories.specs.History.{is_raised};
ghost use Rattle.netlist.specs.Runs.{Always};
ghost use Rattle.net_parts.specs.Nets.{IsBit};
ghost use Rattle.net_parts.specs.Growth.{AddsNets};

use netlist::{Builder, Net, NetFault};

/// High where both bits are.
#[tactic(auto, using(crate::specs::Laws::growing))]
pub fn both(builder: &mut Builder, a: Net, b: Net) -> Result<Net, NetFault>
    requires a { IsBit builder.old a }
    requires b { IsBit builder.old b }
    ensures net { IfOk result (λ net. IsBit builder.new net) }
    ensures value { IfOk result (λ net. Always builder.new (λ cycle. is_raised (cycle.net net.number)
        ≡ (is_raised (cycle.net a.number) && is_raised (cycle.net b.number)))) }
    ensures level { IfOk result (λ net. Always builder.new (λ cycle. cycle.net net.number
        ≡ (if is_raised (cycle.net a.number) then cycle.net b.number else 0))) }
    ensures adds { AddsNets 1 builder.old builder.new }
    ensures full { result ≡ Err NetFault.TooManyNets → 2 ^ 20 < length builder.old.lines + 1 }
{
    builder.and(a, b)
}

/// High where one of the bits is.
#[tactic(auto, using(crate::specs::Laws::growing))]
pub fn either(builder: &mut Builder, a: Net, b: Net) -> Result<Net, NetFault>
    requires a { IsBit builder.old a }
    requires b { IsBit builder.old b }
    ensures net { IfOk result (λ net. IsBit builder.new net) }
    ensures value { IfOk result (λ net. Always builder.new (λ cycle. is_raised (cycle.net net.number)
        ≡ (is_raised (cycle.net a.number) || is_raised (cycle.net b.number)))) }
    ensures adds { AddsNets 1 builder.old builder.new }
    ensures full { result ≡ Err NetFault.TooManyNets → 2 ^ 20 < length builder.old.lines + 1 }
{
    builder.or(a, b)
}

/// High where the bit is low.
#[tactic(auto, using(crate::specs::Laws::growing))]
pub fn turned(builder: &mut Builder, a: Net) -> Result<Net, NetFault>
    requires a { IsBit builder.old a }
    ensures net { IfOk result (λ net. IsBit builder.new net) }
    ensures value { IfOk result (λ net. Always builder.new (λ cycle. is_raised (cycle.net net.number)
        ≡ not (is_raised (cycle.net a.number)))) }
    ensures adds { AddsNets 1 builder.old builder.new }
    ensures full { result ≡ Err NetFault.TooManyNets → 2 ^ 20 < length builder.old.lines + 1 }
{
    builder.not(a)
}

/// High where the first bit is and the second one isn't.
#[tactic(auto, using(crate::specs::Laws::growing))]
pub fn unless(builder: &mut Builder, a: Net, b: Net) -> Result<Net, NetFault>
    requires a { IsBit builder.old a }
    requires b { IsBit builder.old b }
    ensures net { IfOk result (λ net. IsBit builder.new net) }
    ensures value { IfOk result (λ net. Always builder.new (λ cycle. is_raised (cycle.net net.number)
        ≡ (is_raised (cycle.net a.number) && not (is_raised (cycle.net b.number))))) }
    ensures adds { AddsNets 2 builder.old builder.new }
    ensures full { result ≡ Err NetFault.TooManyNets → 2 ^ 20 < length builder.old.lines + 2 }
{
    let low = turned(builder, b)?;
    both(builder, a, low)
}
