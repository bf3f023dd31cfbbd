ghost use Rattle.std.specs.Prelude.{◌≡◌, IfOk};
ghost use Rattle.address_map.specs.Maps.{is_mm, end_at, mm_ends};

use crate::ends::Ends;
use av_base::NoMemory;
use iface_roles::{Kind, Side};
use std::alloc::Global;
use system_tables::{Connection, EndId, System};

fn end_at(side: Side, connection: &Connection) -> EndId
    ensures { result ≡ end_at side connection.now }
{
    match side {
        Side::Start => connection.start,
        Side::End => connection.end,
    }
}

fn is_mm(connection: &Connection) -> bool
    ensures { result ≡ is_mm connection.now.kind }
{
    matches!(connection.kind, Kind::Mm)
}

/// The ends on one side of the connections of hosts to agents, each once: the hosts or the agents of a system, by their
/// numbers.
pub fn mm_ends(alloc: Global, system: &System, side: Side) -> Result<Ends, NoMemory>
    ensures { IfOk result (λ ends. ends ≡ mm_ends side system.now) }
{
    let mut ends = Ends::new(alloc);
    for connection in system.connections() {
        if is_mm(connection) {
            ends.add(end_at(side, connection))?;
        }
    }
    Ok(ends)
}
