ghost use Rattle.std.specs.Prelude.{◌≡◌, IfOk};

use av_base::{List, NoMemory, Text};
use iface_roles::{Finished, Kind, Side};
use std::alloc::Global;

/// An end of a connection: the numbers of an instance, and of an interface of its component, from 0.
#[derive(Clone, Copy, PartialEq, Eq, Hash)]
pub struct EndId {
    pub instance: u32,
    pub interface: u32,
}

/// A connection of a host to an agent, or of a source to a sink.
#[derive(Clone, Copy, PartialEq, Eq)]
pub struct Connection {
    pub start: EndId,
    pub end: EndId,
    pub kind: Kind,
    /// The address of the agent's first byte in the host's map; 0 in a stream.
    pub base: u32,
    /// The host's shares of the agent, 1 to 63; 1 in a stream.
    pub shares: u8,
    /// The places of the queue before the sink, 0 to 64; 0 between a host and an agent.
    pub fifo: u8,
    /// Neither end is on another clock than the system's.
    pub clock_fits: bool,
}

/// An interface of a component that keeps the rules.
pub struct InterfaceTable {
    pub name: Text,
    pub kind: Kind,
    pub side: Side,
    /// The name of its clock interface, empty where it has none.
    pub clock: Text,
    pub finished: Finished,
}

/// By hand, so that what drops one calls this, and isn't followed through its fields.
impl Drop for InterfaceTable {
    fn drop(self) {
        let InterfaceTable {
            name: _,
            kind: _,
            side: _,
            clock: _,
            finished: _,
        } = self;
    }
}

fn copy_interface(alloc: Global, from: &InterfaceTable) -> Result<InterfaceTable, NoMemory>
    ensures { IfOk result (λ copy. copy ≡ from.now) }
{
    let name = Text::copy(alloc, from.name.as_str())?;
    let clock = Text::copy(alloc, from.clock.as_str())?;
    Ok(InterfaceTable {
        name,
        kind: from.kind,
        side: from.side,
        clock,
        finished: from.finished,
    })
}

/// The same interfaces.
pub fn copy_interfaces(
    alloc: Global,
    from: &[InterfaceTable],
) -> Result<List<InterfaceTable>, NoMemory>
    ensures { IfOk result (λ copy. copy ≡ from.now) }
{
    let mut copy = List::new(alloc);
    for interface in from {
        copy.push(copy_interface(alloc, interface)?)?;
    }
    Ok(copy)
}
