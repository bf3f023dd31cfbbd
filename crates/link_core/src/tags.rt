//! The tag of an answer, which goes up through a pipe beside it.

ghost use Rattle.std.specs.Prelude.{◌≡◌, ◌+◌, ◌^◌, ◌<◌, length, IfOk, OnOk};
ghost use Rattle.netlist.specs.Netlists.{IsNet};
ghost use Rattle.net_parts.specs.Nets.{IsNetOfWidth};
ghost use Rattle.net_parts.specs.Growth.{GrowsBy, StillWait};
ghost use Rattle.command_nets.specs.Groups.{IsDelayed};
ghost use Rattle.link_core.specs.PipeNets.{IsLaterBy};

use command_nets::take_next;
use net_parts::low_register;
use netlist::{Builder, Net, NetFault};

/// A register that shows in each cycle what a net showed in the one before.
#[tactic(auto, using(net_parts::specs::Laws::growing))]
fn delay_net(builder: &mut Builder, from: Net) -> Result<Net, NetFault>
    requires { IsNet builder.old from }
    ensures net { IfOk result (λ late. IsNetOfWidth builder.new late from.width) }
    ensures value { IfOk result (IsDelayed builder.new from) }
    ensures grows { GrowsBy 1 builder.old builder.new }
    ensures waits { StillWait builder.old builder.new }
    ensures no_more_wait { OnOk result (StillWait builder.new builder.old) }
    ensures full { result ≡ Err NetFault.TooManyNets → 2 ^ 20 < length builder.old.lines + 1 }
{
    let late = low_register(builder, from)?;
    take_next(builder, late, from);
    Ok(late)
}

/// A net that shows in each cycle what a net showed so many cycles before.
#[tactic(auto, using(net_parts::specs::Laws::growing))]
pub fn delay_tag(builder: &mut Builder, from: Net, count: u8) -> Result<Net, NetFault>
    requires { IsNet builder.old from }
    ensures net { IfOk result (λ late. IsNetOfWidth builder.new late from.width) }
    ensures value { IfOk result (IsLaterBy builder.new count from) }
    ensures no_stage { IfOk result (λ late. count ≡ 0 → late ≡ from) }
    ensures grows { GrowsBy count builder.old builder.new }
    ensures waits { StillWait builder.old builder.new }
    ensures no_more_wait { OnOk result (StillWait builder.new builder.old) }

    // Memory may run out at any net.
    ensures full { result ≡ Err NetFault.TooManyNets → 2 ^ 20 < length builder.old.lines + count }
{
    if count == 0 {
        return Ok(from);
    }
    let late = delay_tag(builder, from, count - 1)?;
    delay_net(builder, late)
}
