//! The stages between two forms of beats, by how many nets they make.

ghost use Rattle.std.specs.Prelude.{◌≡◌, ◌≤◌};

use crate::builders::{BYTES, nets_of};
use iface_roles::StreamPort;
use netlist::NetFault;
use st_format::{Clear, Narrow, Reorder, Sizes, Widen, format_of};
use std::alloc::Global;

/// A source of four symbols of eight bits, with packets.
fn source(first_high: bool) -> StreamPort
    ensures symbols { result.symbols ≡ 4 }
    ensures bits { result.symbol_bits ≡ 8 }
{
    StreamPort {
        symbols: 4,
        first_high,
        error_bits: 1,
        packets: true,
        empty_bits: 2,
        ..BYTES
    }
}

fn sink(symbols: u8) -> StreamPort
    ensures { result.symbols ≡ symbols }
{
    StreamPort {
        symbols,
        error_bits: 1,
        packets: true,
        empty_bits: 3,
        ..BYTES
    }
}

/// How many nets stand between the source and a sink of so many symbols, with the three constants before them.
fn nets_between(alloc: Global, source: &StreamPort, sink: &StreamPort) -> Result<u32, NetFault>
    requires symbols { source.now.symbols ≡ 4 }
    requires bits { source.now.symbol_bits ≡ 8 }
    requires some { 1 ≤ sink.now.symbols }
    requires few { sink.now.symbols ≤ 16 }
{
    nets_of(alloc, &format_of(source, sink), 32)
}

/// How many nets stand with the stages of this name.
fn nets_with(alloc: Global, name: &str) -> Result<u32, NetFault> {
    match name {
        "turned" => nets_of(alloc, &Reorder::new(4, 8), 32),
        "turned_one" => nets_of(alloc, &Reorder::new(1, 8), 8),
        "cleared" => nets_of(alloc, &Clear::new(4, 8), 32),
        "narrowed" => nets_of(alloc, &Narrow::new(Sizes::new(1, 4, 8)), 32),
        "widened" => nets_of(alloc, &Widen::new(Sizes::new(1, 4, 8), true), 8),
        "four_to_six" => nets_between(alloc, &source(false), &sink(6)),
        _ => nets_between(alloc, &source(true), &sink(4)),
    }
}

pub(crate) fn push_format(alloc: Global, text: &mut String, name: &str) -> Result<(), NetFault> {
    let nets = nets_with(alloc, name)?;
    write!(text, " {nets} nets")?;
    Ok(())
}
