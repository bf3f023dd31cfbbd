//! The header of a module that leads beats by their channels.

ghost use Rattle.std.specs.Prelude.{◌≡◌, ℕ, ◌≤◌, ◌++◌, [], ◌∷◌, not, length, None, OnOk, IfOk};
ghost use Rattle.netlist.specs.Netlists.{IsHeader, IsWellMade, IsClocked, IsWritten, driver_of, started};
ghost use Rattle.routed_modules.specs.Ports.{numbered, port_name, port_line, port_if, mark_ports, end_ports, numbered_ports};

use av_base::{List, NoMemory, Text};
use netlist::{Builder, NetFault, PortLine};
use std::alloc::Global;

/// The ports of an end beside `ready` and `valid`: their bits, or none where there is no such port. With packets it has both
/// marks.
#[derive(Clone, Copy)]
pub struct EndPorts {
    pub word: u8,
    pub channel: Option<u8>,
    pub packets: bool,
    pub empty: Option<u8>,
}

fn name_of_port(alloc: Global, end: &str, role: &str) -> Result<Text, NoMemory>
    ensures { IfOk result (λ name. name ≡ port_name end.now role.now) }
{
    let name = format!(in alloc; "{end}$st${role}")?;
    Text::copy(alloc, name.as_str())
}

fn push_port(
    alloc: Global,
    ports: &mut List<PortLine>,
    end: &str,
    role: &str,
    width: u8,
    output: bool,
) -> Result<(), NoMemory>
    ensures { OnOk result (ports.new ≡ ports.old ++ port_line end.now role.now width output ∷ []) }
{
    ports.push(PortLine {
        name: name_of_port(alloc, end, role)?,
        width,
        output,
    })
}

fn push_port_if(
    alloc: Global,
    ports: &mut List<PortLine>,
    end: &str,
    role: &str,
    width: Option<u8>,
    output: bool,
) -> Result<(), NoMemory>
    ensures { OnOk result (ports.new ≡ ports.old ++ port_if end.now role.now width output) }
{
    match width {
        Some(width) => push_port(alloc, ports, end, role, width, output),
        None => Ok(()),
    }
}

fn push_marks(
    alloc: Global,
    ports: &mut List<PortLine>,
    end: &str,
    packets: bool,
    output: bool,
) -> Result<(), NoMemory>
    ensures { OnOk result (ports.new ≡ ports.old ++ mark_ports end.now packets output) }
{
    if !packets {
        return Ok(());
    }
    push_port(alloc, ports, end, "startofpacket", 1, output)?;
    push_port(alloc, ports, end, "endofpacket", 1, output)
}

/// Appends the ports of an end, where beats come in or go out.
pub(crate) fn push_end(
    alloc: Global,
    ports: &mut List<PortLine>,
    comes: bool,
    has: EndPorts,
    end: &str,
) -> Result<(), NoMemory>
    ensures { OnOk result (ports.new ≡ ports.old ++ end_ports comes has end.now) }
{
    push_port(alloc, ports, end, "ready", 1, comes)?;
    push_port(alloc, ports, end, "valid", 1, !comes)?;
    push_port(alloc, ports, end, "data", has.word, !comes)?;
    push_port_if(alloc, ports, end, "channel", has.channel, !comes)?;
    push_marks(alloc, ports, end, has.packets, !comes)?;
    push_port_if(alloc, ports, end, "empty", has.empty, !comes)
}

fn name_of_end(alloc: Global, end: &str, number: u8) -> Result<Text, NoMemory>
    ensures { IfOk result (λ name. name ≡ numbered end.now number) }
{
    let name = format!(in alloc; "{end}{number}")?;
    Text::copy(alloc, name.as_str())
}

/// Appends the ports of so many ends of one name, each with its number behind it.
pub(crate) fn push_ends(
    alloc: Global,
    ports: &mut List<PortLine>,
    comes: bool,
    has: EndPorts,
    end: &str,
    count: u8,
) -> Result<(), NoMemory>
    ensures { OnOk result (ports.new ≡ ports.old ++ numbered_ports comes has end.now count) }
{
    for number in 0..count {
        let name = name_of_end(alloc, end, number)?;
        push_end(alloc, ports, comes, has, name.as_str())?;
    }
    Ok(())
}

/// A module with this header and its input nets alone.
pub(crate) fn start(alloc: Global, name: &str, ports: List<PortLine>) -> Result<Builder, NoMemory>
    requires header { IsHeader name.now ports }
    requires few { length ports ≤ 1000 }
    ensures started { IfOk result (λ b. b ≡ started name.now ports) }
    ensures well_made { IfOk result (λ b. IsWellMade b) }
    ensures clocked { IfOk result (λ b. IsClocked b) }
    ensures written { IfOk result (λ b. IsWritten b) }
    ensures undriven { IfOk result (λ b. (k : ℕ) → driver_of b k ≡ None) }
{
    match Builder::new(alloc, Text::copy(alloc, name)?, ports) {
        Ok(builder) => Ok(builder),
        Err(NetFault::NoMemory) => Err(NoMemory),
        Err(NetFault::TooManyNets) => unreachable!(),
    }
}
