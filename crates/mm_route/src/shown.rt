//! The commands below a route: one for each entry, shown where the command above goes to its agent.

ghost use Rattle.std.specs.Prelude.{◌≡◌, ◌+◌, ◌*◌, ◌^◌, ◌<◌, ◌≤◌, length, IfOk};
ghost use Rattle.net_parts.specs.Growth.{AddsNets};
ghost use Rattle.mm_route.specs.Shown.{AreShownNets, IsShownAt, AreShown};

use command_nets::CommandNets;
use netlist::{Builder, Net, NetFault};
use std::alloc::Global;

/// What the commands below are made of.
#[derive(Clone, Copy)]
pub struct ShownNets {
    /// A bit for each entry: the place of the command above.
    pub place: Net,
    /// The gate: whether the command goes on.
    pub gate: Net,
    /// The host's number.
    pub tag: Net,
    /// The command above.
    pub command: CommandNets,
}

/// The command at the place of a bit.
#[tactic(auto, using(net_parts::specs::Laws::growing))]
fn show_at(
    builder: &mut Builder,
    shown: &ShownNets,
    k: u8,
    count: u8,
) -> Result<CommandNets, NetFault>
    requires shown { AreShownNets builder.old shown.now count }
    requires bit { k < count }
    ensures made { IfOk result (λ made. IsShownAt builder.new shown.now k made) }
    ensures adds { AddsNets 4 builder.old builder.new }
    ensures full { result ≡ Err NetFault.TooManyNets → 2 ^ 20 < length builder.old.lines + 4 }
{
    let here = builder.slice(shown.place, k, k)?;
    let goes = builder.and(here, shown.gate)?;
    let read = builder.and(goes, shown.command.read)?;
    let write = builder.and(goes, shown.command.write)?;
    Ok(CommandNets {
        read,
        write,
        address: shown.command.address,
        word: shown.command.word,
        enables: shown.command.enables,
        count: shown.command.count,
        more: shown.command.more,
        tag: shown.tag,
    })
}

/// A command for each bit of the place, the lowest first.
#[tactic(auto, using(net_parts::specs::Laws::growing))]
pub(crate) fn show_all(
    alloc: Global,
    builder: &mut Builder,
    shown: &ShownNets,
    count: u8,
) -> Result<Vec<CommandNets>, NetFault>
    requires shown { AreShownNets builder.old shown.now count }
    ensures count { IfOk result (λ made. length made.items ≡ count) }
    ensures made { IfOk result (λ made. AreShown builder.new shown.now 0 made.items) }
    ensures adds { AddsNets (4 * count) builder.old builder.new }
    ensures full { result ≡ Err NetFault.TooManyNets → 2 ^ 20 < length builder.old.lines + 4 * count }
{
    let mut commands = Vec::new(alloc);
    for k in 0..count {
        let command = show_at(builder, shown, k, count)?;
        commands.push(command)?;
    }
    Ok(commands)
}
