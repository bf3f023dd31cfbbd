//! Whole paths between a source and a sink, by the nets that they make.

ghost use Rattle.std.specs.Prelude.{◌≡◌, None};

use crate::builders::{BYTES, empty_builder};
use iface_roles::StreamPort;
use net_parts::{constant, level};
use netlist::{Builder, Net, NetFault};
use st_path::{SourceNets, emit_path};
use std::alloc::Global;

/// The nets of a source without channels, errors and packets.
fn plain_source(valid: Net, word: Net) -> SourceNets
    ensures { result
        ≡ record
        { valid = valid; word = word; channel = None; error = None; startofpacket = None; endofpacket = None; empty = None } }
{
    SourceNets {
        valid,
        word,
        channel: None,
        error: None,
        startofpacket: None,
        endofpacket: None,
        empty: None,
    }
}

/// From a source of ready latency 2, through a queue of three beats: the number of `dropped`, and that of the net behind the
/// path.
fn emit_queued(builder: &mut Builder) -> Result<[u32; 2], NetFault> {
    let bit = level(builder, true)?;
    let word = constant(builder, 8, 0xa5)?;
    let source = StreamPort {
        latency: 2,
        allowance: 2,
        ..BYTES
    };
    let from = plain_source(bit, word);
    let path = emit_path(builder, &source, &BYTES, 3, &from, Some(bit))?;
    let next = level(builder, false)?;
    Ok([path.dropped.number(), next.number()])
}

/// From beats of four symbols to beats of one.
fn emit_narrowed(builder: &mut Builder) -> Result<[u32; 2], NetFault> {
    let bit = level(builder, true)?;
    let word = constant(builder, 32, 0xa5)?;
    let source = StreamPort {
        symbols: 4,
        ..BYTES
    };
    let from = plain_source(bit, word);
    let path = emit_path(builder, &source, &BYTES, 0, &from, Some(bit))?;
    let next = level(builder, false)?;
    Ok([path.dropped.number(), next.number()])
}

/// The path of this name.
pub(crate) fn push_path(alloc: Global, text: &mut String, name: &str) -> Result<(), NetFault> {
    let mut builder = empty_builder(alloc)?;
    let numbers = if name == "queued" {
        emit_queued(&mut builder)?
    } else {
        emit_narrowed(&mut builder)?
    };
    write!(text, " {numbers:?}")?;
    Ok(())
}
