//! Which stages stand between two ready latencies.

ghost use Rattle.std.specs.Prelude.{◌≡◌, ◌≤◌};

use crate::builders::{BYTES, nets_of};
use iface_roles::StreamPort;
use netlist::NetFault;
use st_timing::timing_of;
use std::alloc::Global;

/// A source of two symbols a beat.
fn source(ready: bool, latency: u8) -> StreamPort
    ensures symbols { result.symbols ≡ 2 }
    ensures latency { result.latency ≡ latency }
    ensures allowance { result.allowance ≡ latency }
{
    StreamPort {
        symbols: 2,
        ready,
        latency,
        allowance: latency,
        ..BYTES
    }
}

fn sink(ready: bool, symbols: u8) -> StreamPort {
    StreamPort {
        symbols,
        ready,
        ..BYTES
    }
}

/// How many nets a module has with the timing of these ends, its three constants among them.
fn nets_between(alloc: Global, source: &StreamPort, sink: &StreamPort) -> Result<u32, NetFault>
    requires symbols { source.now.symbols ≡ 2 }
    requires latency { source.now.latency ≤ 8 }
    requires allowance { source.now.allowance ≡ source.now.latency }
{
    nets_of(alloc, &timing_of(source, sink), 8)
}

/// The timing between the ends of this name.
pub(crate) fn push_timing(alloc: Global, text: &mut String, name: &str) -> Result<(), NetFault> {
    let (source, sink) = match name {
        "tied" => (source(true, 1), sink(false, 4)),
        "tied_without_ready" => (source(false, 1), sink(false, 2)),
        "buffered" => (source(true, 1), sink(true, 2)),
        "buffered_before_one_symbol" => (source(true, 1), sink(false, 1)),
        _ => (source(true, 0), sink(true, 2)),
    };
    let nets = nets_between(alloc, &source, &sink)?;
    write!(text, " {nets} nets")?;
    Ok(())
}
