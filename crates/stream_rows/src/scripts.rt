//! The scripts of a row: a source, a sink, and a system that joins them.

use crate::end::End;
use crate::row::Row;
use av_base::Bytes;
use row_words::push_port;
use std::alloc::{AllocError, Global};

/// What the scripts call an end, and the directions of its ports.
#[derive(Clone, Copy)]
struct Names<'a> {
    component: &'a str,
    interface: &'a str,
    side: &'a str,
    ready: &'a str,
    beat: &'a str,
}

/// Appends the ports of the beat.
fn push_ports(text: &mut String, names: &Names, end: &End) -> Result<(), AllocError> {
    let marks = u16::from(end.packets);
    let roles = [
        ("valid", 1),
        (
            "data",
            u16::from(end.symbols).saturating_mul(u16::from(end.bits)),
        ),
        ("channel", u16::from(end.channel_bits)),
        ("error", u16::from(end.error_bits)),
        ("startofpacket", marks),
        ("endofpacket", marks),
        ("empty", u16::from(end.empty_bits)),
    ];
    for (role, bits) in roles {
        push_port(text, names.interface, role, names.beat, bits)?;
    }
    Ok(())
}

/// Appends a property of the interface.
fn push_property(
    text: &mut String,
    interface: &str,
    property: &str,
    value: u32,
) -> Result<(), AllocError> {
    write!(
        text,
        "set_interface_property {interface} {property} {value}\n"
    )
}

/// Appends the ready latency, the allowance where one is given, and the port.
fn push_ready(text: &mut String, names: &Names, end: &End) -> Result<(), AllocError> {
    let Some(latency) = end.latency else {
        return Ok(());
    };
    push_property(text, names.interface, "readyLatency", u32::from(latency))?;
    if let Some(allowance) = end.allowance {
        push_property(
            text,
            names.interface,
            "readyAllowance",
            u32::from(allowance),
        )?;
    }
    push_port(text, names.interface, "ready", names.ready, 1)
}

/// Appends what is set of symbols and channels.
fn push_settings(text: &mut String, interface: &str, end: &End) -> Result<(), AllocError> {
    let high = if end.low_first { "false" } else { "true" };
    write!(
        text,
        "set_interface_property {interface} firstSymbolInHighOrderBits {high}\n"
    )?;
    let properties = [
        ("symbolsPerBeat", u32::from(end.symbols)),
        ("dataBitsPerSymbol", u32::from(end.bits)),
        ("maxChannel", end.largest_channel),
    ];
    for (property, value) in properties {
        push_property(text, interface, property, value)?;
    }
    Ok(())
}

fn push_component(text: &mut String, names: &Names, end: &End) -> Result<(), AllocError> {
    let Names {
        component,
        interface,
        side,
        ..
    } = *names;
    write!(
        text,
        "package require -exact qsys 16.0\nset_module_property NAME {component}\nadd_interface {interface} avalon_streaming {side}\n"
    )?;
    push_settings(text, interface, end)?;
    push_ready(text, names, end)?;
    push_ports(text, names, end)
}

fn component(alloc: Global, names: &Names, end: &End) -> Result<Bytes, AllocError> {
    let mut text = String::new(alloc);
    push_component(&mut text, names, end)?;
    Ok(Bytes::from(text))
}

fn system(alloc: Global, depth: u8) -> Result<Bytes, AllocError> {
    let text = format!(in alloc;
        "create_system row\nadd_instance a source\nadd_instance b sink\nadd_connection a.out b.into\nset_connection_parameter_value a.out/b.into fifoDepth {depth}\n"
    )?;
    Ok(Bytes::from(text))
}

const SOURCE: Names<'static> = Names {
    component: "source",
    interface: "out",
    side: "start",
    ready: "Input",
    beat: "Output",
};

const SINK: Names<'static> = Names {
    component: "sink",
    interface: "into",
    side: "end",
    ready: "Output",
    beat: "Input",
};

/// The system's file and those of its components.
pub fn files_of(alloc: Global, row: &Row) -> Result<[Bytes; 3], AllocError> {
    let system = system(alloc, row.depth)?;
    let source = component(alloc, &SOURCE, &row.source)?;
    let sink = component(alloc, &SINK, &row.sink)?;
    Ok([system, source, sink])
}
