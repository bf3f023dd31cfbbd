//! Demultiplexers as modules by themselves.

ghost use Rattle.std.specs.Prelude.{◌≡◌, ℕ, ◌+◌, ◌^◌, ◌<◌, ◌≤◌, ◌++◌, true, false, codes, length, Err, Some, None, IfOk, OnOk};
ghost use Rattle.netlist.specs.Netlists.{driver_of, IsWellMade, IsClocked, IsWritten, started};
ghost use Rattle.routed_modules.specs.Ports.{end_ports, numbered_ports};
ghost use Rattle.routed_modules.specs.Demultiplexers.{AreSizes, demultiplexer, coming, demultiplexer_ports, shown_at, demultiplexer_drivers, IsFilled, IsDemultiplexerModule};

use crate::drivers::{drive_each, push_coming, push_going};
use crate::ends::{beat_at, channel_at, readies_at};
use crate::header::{EndPorts, push_end, push_ends, start};
use crate::sizes::{bits_for, empty_bits, one_if};
use av_base::{List, NoMemory};
use netlist::{Builder, Module, Net, NetFault, PortLine, goes_on, signals};
use pruned_netlists::prune;
use st_mux::{DemultiplexerNets, PacketNets, emit_demultiplexer};
use std::alloc::Global;
use stream_runs::same_beginnings;

/// The ports at its input.
fn coming_ports(outputs: u8, symbols: u8, bits: u8) -> EndPorts
    requires { AreSizes outputs symbols bits }
    ensures { result ≡ coming (demultiplexer outputs symbols bits) }
{
    EndPorts {
        word: symbols * bits,
        channel: Some(bits_for(outputs)),
        packets: true,
        empty: empty_bits(symbols),
    }
}

/// The ports of its header.
fn demux_ports(alloc: Global, has: EndPorts, outputs: u8) -> Result<List<PortLine>, NoMemory>
    ensures { IfOk result (λ ports. ports
        ≡ end_ports true has (codes "in") ++ numbered_ports false (record has { channel = None }) (codes "out") outputs) }
{
    let going = EndPorts {
        channel: None,
        ..has
    };
    let mut ports = List::new(alloc);
    push_end(alloc, &mut ports, true, has, "in")?;
    push_ends(alloc, &mut ports, false, going, "out", outputs)?;
    Ok(ports)
}

/// The beat as an output shows it, by its own `valid`.
fn shown_at(from: &PacketNets, valids: &[Net], output: usize) -> PacketNets
    requires { output < length valids.now }
    ensures { result ≡ shown_at from.now valids.now output }
{
    PacketNets {
        valid: valids[output],
        ..*from
    }
}

/// What drives each port.
fn demux_drivers(
    alloc: Global,
    from: &PacketNets,
    made: &DemultiplexerNets,
    empty: bool,
) -> Result<Vec<Option<Net>>, NetFault>
    ensures drivers { IfOk result (λ drivers. drivers.items
        ≡ demultiplexer_drivers from.now made.now.ready made.now.valids.items empty) }
    ensures full { (result ≡ Err NetFault.TooManyNets) → ⊥ }
{
    let mut drivers = Vec::new(alloc);
    push_coming(&mut drivers, made.ready, true, empty)?;
    for output in 0..made.valids.len() {
        let shown = shown_at(from, made.valids.as_slice(), output);
        push_going(&mut drivers, &shown, None, empty)?;
    }
    Ok(drivers)
}

/// Makes the nets of a demultiplexer and lets them drive its ports.
fn fill(
    alloc: Global,
    builder: &mut Builder,
    has: EndPorts,
    outputs: u8,
    symbols: u8,
    bits: u8,
) -> Result<(), NetFault>
    requires sizes { AreSizes outputs symbols bits }
    requires has { has ≡ coming (demultiplexer outputs symbols bits) }
    requires started { builder.old
        ≡ started (codes "demux_interconnect") (demultiplexer_ports (demultiplexer outputs symbols bits)) }
    requires well_made { IsWellMade builder.old }
    requires clocked { IsClocked builder.old }
    requires written { IsWritten builder.old }
    requires undriven { (k : ℕ) → driver_of builder.old k ≡ None }
    ensures filled { OnOk result (IsFilled (demultiplexer outputs symbols bits) builder.new) }
    ensures full { (result ≡ Err NetFault.TooManyNets) → ⊥ }
{
    // the laws of runs, which the contract rests on
    goes_on();
    signals();
    same_beginnings();
    let extra = one_if(has.empty.is_some());
    let from = beat_at(builder, 0, has)?;
    let channel_bits = bits_for(outputs);
    let channel = channel_at(builder, 0, has, channel_bits);
    let readies = readies_at(alloc, builder, 6 + extra, 5 + extra, outputs)?;
    let made = emit_demultiplexer(
        alloc,
        builder,
        &from,
        channel,
        channel_bits,
        readies.as_slice(),
    )?;
    let drivers = demux_drivers(alloc, &from, &made, has.empty.is_some())?;
    drive_each(builder, drivers.as_slice());
    builder.well_made();
    Ok(())
}

/// The module of a demultiplexer of so many outputs, and of so many symbols of so many bits a beat.
pub fn demux_module(alloc: Global, outputs: u8, symbols: u8, bits: u8) -> Result<Module, NoMemory>
    requires { AreSizes outputs symbols bits }
    ensures { IfOk result (IsDemultiplexerModule (demultiplexer outputs symbols bits)) }
{
    let coming = coming_ports(outputs, symbols, bits);
    let ports = demux_ports(alloc, coming, outputs)?;
    let mut builder = start(alloc, "demux_interconnect", ports)?;
    match fill(alloc, &mut builder, coming, outputs, symbols, bits) {
        Ok(()) => {}
        Err(NetFault::NoMemory) => return Err(NoMemory),
        Err(NetFault::TooManyNets) => unreachable!(),
    }
    let whole = builder.finish();
    prune(alloc, &whole)
}
