//! The scripts of sources and sinks.

ghost use Rattle.std.specs.Prelude.{◌≡◌, ◌≤◌, ◌<◌, ◌++◌, OnOk, IfOk};
ghost use Rattle.workload_systems.specs.Texts.{text_of};
ghost use Rattle.workload_systems.specs.Components.{beat_bits, empties, beat_ports, source_lines, sink_lines};

use crate::words::{put_interface, put_port, put_property, put_type};
use av_base::{Bytes, NoMemory};
use std::alloc::Global;

/// The bits of 1 to 4 symbols.
fn beat_bits(symbols: u8) -> &'static [u8]
    ensures { result.now ≡ beat_bits symbols }
{
    if symbols == 1 {
        b"8"
    } else if symbols == 2 {
        b"16"
    } else if symbols == 3 {
        b"24"
    } else {
        b"32"
    }
}

/// The port of `empty`, which one symbol has not.
fn put_empties(
    text: &mut Bytes,
    interface: &[u8],
    direction: &[u8],
    symbols: u8,
) -> Result<(), NoMemory>
    ensures { OnOk result (text.new ≡ text.old ++ text_of (empties interface.now direction.now symbols)) }
{
    if symbols == 1 {
        return Ok(());
    }
    if symbols == 2 {
        put_port(text, interface, b"empty", direction, b"1")?;
        return Ok(());
    }
    put_port(text, interface, b"empty", direction, b"2")?;
    Ok(())
}

/// The ports of a beat, of a source or a sink.
fn put_beat_ports(
    text: &mut Bytes,
    interface: &[u8],
    direction: &[u8],
    symbols: u8,
) -> Result<(), NoMemory>
    ensures { OnOk result (text.new ≡ text.old ++ text_of (beat_ports interface.now direction.now symbols)) }
{
    put_port(text, interface, b"valid", direction, b"1")?;
    put_port(text, interface, b"data", direction, beat_bits(symbols))?;
    put_port(text, interface, b"startofpacket", direction, b"1")?;
    put_port(text, interface, b"endofpacket", direction, b"1")?;
    put_empties(text, interface, direction, symbols)?;
    Ok(())
}

/// The script of a source of so many symbols and a ready latency.
pub(crate) fn source_text(alloc: Global, latency: u8, symbols: u8) -> Result<Bytes, NoMemory>
    requires early { latency < 10 }
    requires few { symbols < 10 }
    ensures { IfOk result (λ text. text ≡ text_of (source_lines latency symbols)) }
{
    let mut text = Bytes::new(alloc);
    put_type(&mut text, &[b'o', b'0' + symbols, b'_', b'0' + latency])?;
    put_interface(&mut text, b"o", b"avalon_streaming", b"source")?;
    put_property(&mut text, b"o", b"readyLatency", &[b'0' + latency])?;
    put_port(&mut text, b"o", b"ready", b"input", b"1")?;
    put_beat_ports(&mut text, b"o", b"output", symbols)?;
    Ok(text)
}

/// The script of a sink of so many symbols.
pub(crate) fn sink_text(alloc: Global, symbols: u8) -> Result<Bytes, NoMemory>
    requires { symbols < 10 }
    ensures { IfOk result (λ text. text ≡ text_of (sink_lines symbols)) }
{
    let mut text = Bytes::new(alloc);
    put_type(&mut text, &[b'i', b'0' + symbols])?;
    put_interface(&mut text, b"i", b"avalon_streaming", b"sink")?;
    put_port(&mut text, b"i", b"ready", b"output", b"1")?;
    put_beat_ports(&mut text, b"i", b"input", symbols)?;
    Ok(text)
}
