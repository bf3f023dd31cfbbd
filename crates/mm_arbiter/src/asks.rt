//! Who asks.

ghost use Rattle.std.specs.Prelude.{◌≡◌, ◌+◌, ◌*◌, ◌^◌, ◌<◌, ◌≤◌, ◌∷◌, length, IfOk};
ghost use Rattle.netlist.specs.Runs.{Always};
ghost use Rattle.net_parts.specs.Nets.{IsNetOfWidth};
ghost use Rattle.net_parts.specs.Growth.{AddsNets};
ghost use Rattle.command_nets.specs.Nets.{AreCommandNets};
ghost use Rattle.mm_arbiter.specs.Asks.{number};
ghost use Rattle.mm_arbiter.specs.Shown.{AreCommands, asks_in};

use command_nets::{CommandNets, shown};
use netlist::{Builder, Net, NetFault};

/// A bit for each asker, the first one lowest: whether it shows a beat.
#[tactic(auto, using(net_parts::specs::Laws::growing))]
pub(crate) fn ask_bits(
    builder: &mut Builder,
    first: &CommandNets,
    later: &[CommandNets],
) -> Result<Net, NetFault>
    requires first { AreCommandNets builder.old first.now }
    requires later { AreCommands builder.old later.now }
    requires few { length later.now + 1 ≤ 128 }
    ensures net { IfOk result (λ bits. IsNetOfWidth builder.new bits (length later.now + 1)) }
    ensures value { IfOk result (λ bits. Always builder.new (λ cycle. cycle.net bits.number
        ≡ number (asks_in cycle (first.now ∷ later.now)))) }
    ensures adds { AddsNets (2 * (length later.now + 1)) builder.old builder.new }
    ensures full { result ≡ Err NetFault.TooManyNets → 2 ^ 20 < length builder.old.lines + 2 * (length later.now + 1) }
{
    let asks = shown(builder, first)?;
    match later.split_first() {
        None => Ok(asks),
        Some((next, others)) => {
            let above = ask_bits(builder, next, others)?;
            builder.concat(above, asks)
        }
    }
}
