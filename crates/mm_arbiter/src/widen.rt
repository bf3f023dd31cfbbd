//! A command on wider nets.

ghost use Rattle.std.specs.Prelude.{◌≡◌, ◌+◌, ◌^◌, ◌<◌, ◌≤◌, length, IfOk};
ghost use Rattle.netlist.specs.Netlists.{IsNet};
ghost use Rattle.netlist.specs.Runs.{Always};
ghost use Rattle.net_parts.specs.Nets.{IsNetOfWidth};
ghost use Rattle.net_parts.specs.Growth.{AddsNets};
ghost use Rattle.command_nets.specs.Nets.{AreCommandNets, widths_of, raw_in};
ghost use Rattle.mm_arbiter.specs.Wider.{wider};

use command_nets::CommandNets;
use net_parts::fit_bits;
use netlist::{Builder, Net, NetFault};

/// The same number on a net of so many bits.
#[tactic(auto, using(net_parts::specs::Laws::growing))]
fn widen(builder: &mut Builder, net: Net, wanted: u8) -> Result<Net, NetFault>
    requires net { IsNet builder.old net }
    requires wider { net.width ≤ wanted }
    requires few { wanted ≤ 128 }
    ensures net { IfOk result (λ made. IsNetOfWidth builder.new made wanted) }
    ensures value { IfOk result (λ made. Always builder.new (λ cycle. cycle.net made.number ≡ cycle.net net.number)) }
    ensures adds { AddsNets 2 builder.old builder.new }
    ensures full { result ≡ Err NetFault.TooManyNets → 2 ^ 20 < length builder.old.lines + 2 }
{
    let bits = builder.width(net);
    fit_bits(builder, net, bits, wanted)
}

/// The same beat, its address on a net of so many bits, and its count too.
///
/// `TooManyNets` comes where the module has no room for these nets.
#[tactic(auto, using(net_parts::specs::Laws::growing))]
pub fn widen_command(
    builder: &mut Builder,
    command: &CommandNets,
    address_bits: u8,
    count_bits: u8,
) -> Result<CommandNets, NetFault>
    requires command { AreCommandNets builder.old command.now }
    requires address { command.now.address.width ≤ address_bits }
    requires few_address { address_bits ≤ 128 }
    requires count { command.now.count.width ≤ count_bits }
    requires few_count { count_bits ≤ 128 }
    ensures command { IfOk result (λ made. AreCommandNets builder.new made) }
    ensures widths { IfOk result (λ made. widths_of made ≡ wider command.now address_bits count_bits) }
    ensures value { IfOk result (λ made. Always builder.new (λ cycle. raw_in cycle made ≡ raw_in cycle command.now)) }
    ensures adds { AddsNets 4 builder.old builder.new }

    // Memory may run out at any net.
    ensures full { result ≡ Err NetFault.TooManyNets → 2 ^ 20 < length builder.old.lines + 4 }
{
    let address = widen(builder, command.address, address_bits)?;
    let count = widen(builder, command.count, count_bits)?;
    Ok(CommandNets {
        read: command.read,
        write: command.write,
        address,
        word: command.word,
        enables: command.enables,
        count,
        more: command.more,
        tag: command.tag,
    })
}
