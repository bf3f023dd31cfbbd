//! When a beat transfers.

ghost use Rattle.std.specs.Prelude.{◌≡◌, ◌+◌, ◌^◌, ◌<◌, length, IfOk};
ghost use Rattle.netlist.specs.Runs.{Always};
ghost use Rattle.net_parts.specs.Nets.{IsBit};
ghost use Rattle.net_parts.specs.Growth.{AddsNets};
ghost use Rattle.st_timing.specs.TransferNets.{moving};

use netlist::{Builder, Net, NetFault};

/// `valid` where a beat transfers, at an end of this ready latency, and else low.
#[tactic(auto, using(net_parts::specs::Laws::growing))]
pub(crate) fn transfers(
    builder: &mut Builder,
    latency: u8,
    valid: Net,
    ready: Net,
) -> Result<Net, NetFault>
    requires valid { IsBit builder.old valid }
    requires ready { IsBit builder.old ready }
    ensures net { IfOk result (λ moves. IsBit builder.new moves) }
    ensures value { IfOk result (λ moves. Always builder.new (λ cycle. cycle.net moves.number
        ≡ moving latency (cycle.net valid.number) (cycle.net ready.number))) }
    ensures adds { AddsNets 1 builder.old builder.new }
    ensures full { result ≡ Err NetFault.TooManyNets → 2 ^ 20 < length builder.old.lines + 1 }
{
    if latency > 0 {
        return Ok(valid);
    }
    builder.and(valid, ready)
}
