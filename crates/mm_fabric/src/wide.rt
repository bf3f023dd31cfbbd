//! The commands that are asked of an agent: addresses on nets as wide as the widest, and counts on nets of the agent's width.

ghost use Rattle.std.specs.Prelude.{◌≡◌, ◌+◌, ◌*◌, ◌^◌, ◌<◌, ◌≤◌, length, IfOk};
ghost use Rattle.std.specs.List.{AllZip};
ghost use Rattle.net_parts.specs.Growth.{AddsNets};
ghost use Rattle.mm_arbiter.specs.Shown.{AreCommands};
ghost use Rattle.memory_runs.specs.Sides.{burst_width};
ghost use Rattle.mm_fabric.specs.Wide.{ReachWithin, AreWithin, IsWidened};

use command_nets::CommandNets;
use iface_roles::AgentPort;
use mm_arbiter::widen_command;
use netlist::{Builder, NetFault};
use std::alloc::Global;

/// Bits that hold each address and each count of some commands.
#[derive(Clone, Copy)]
pub(crate) struct WideBits {
    pub address: u8,
    pub count: u8,
}

/// The bits of the widest address.
fn widest_address(builder: &Builder, commands: &[CommandNets]) -> u8
    requires { AreCommands builder.now commands.now }
    ensures within { ReachWithin result commands.now }
    ensures few { result ≤ 128 }
{
    let mut bits: u8 = 0;
    for command in commands {
        bits = bits.max(builder.width(command.address));
    }
    bits
}

/// The bits of the widest address, and of the count of the agent's bursts.
pub(crate) fn widest(builder: &Builder, port: &AgentPort, commands: &[CommandNets]) -> WideBits
    requires port { port.now.burst_bits ≤ 11 }
    requires commands { AreCommands builder.now commands.now }
    ensures within { ReachWithin result.address commands.now }
    ensures count { result.count ≡ burst_width port.now.burst_bits }
    ensures few_address { result.address ≤ 128 }
    ensures few_count { result.count ≤ 128 }
{
    WideBits {
        address: widest_address(builder, commands),
        count: port.burst_bits.max(1),
    }
}

/// The same beats, each address and each count on nets of so many bits.
#[tactic(auto, using(net_parts::specs::Laws::growing))]
pub(crate) fn widen_all(
    alloc: Global,
    builder: &mut Builder,
    commands: &[CommandNets],
    bits: WideBits,
) -> Result<Vec<CommandNets>, NetFault>
    requires commands { AreCommands builder.old commands.now }
    requires within { AreWithin bits.address bits.count commands.now }
    requires few_address { bits.address ≤ 128 }
    requires few_count { bits.count ≤ 128 }
    ensures wide { IfOk result (λ wide. AllZip (IsWidened builder.new bits.address bits.count) commands.now wide.items) }
    ensures adds { AddsNets (4 * length commands.now) builder.old builder.new }
    ensures full { result ≡ Err NetFault.TooManyNets → 2 ^ 20 < length builder.old.lines + 4 * length commands.now }
{
    let mut wide = Vec::new(alloc);
    for command in commands {
        wide.push(widen_command(builder, command, bits.address, bits.count)?)?;
    }
    Ok(wide)
}
