//! Gatherers as modules by themselves.

ghost use Rattle.std.specs.Prelude.{◌≡◌, ℕ, ◌*◌, ◌^◌, ◌<◌, ◌≤◌, ◌++◌, true, false, codes, length, Err, Some, None, IfOk, OnOk};
ghost use Rattle.netlist.specs.Netlists.{driver_of, IsWellMade, IsClocked, IsWritten, started};
ghost use Rattle.st_gather.specs.Gatherers.{IsShape, HasShape};
ghost use Rattle.routed_modules.specs.Ports.{end_ports};
ghost use Rattle.routed_modules.specs.Sizes.{bits_for};
ghost use Rattle.routed_modules.specs.Gatherers.{AreGathererSizes, gatherer, gathered_in, gatherer_ports, IsGathererWhole, IsGathererModule};

use crate::drivers::drive_each;
use crate::ends::word_at;
use crate::header::{EndPorts, push_end, start};
use crate::sizes::bits_for;
use av_base::{List, NoMemory};
use netlist::{Builder, Module, NetFault, PortLine, goes_on, signals};
use pruned_netlists::prune;
use st_gather::{GathererShape, emit_gatherer};
use std::alloc::Global;
use stream_runs::same_beginnings;

/// The shape of a gatherer of so many symbols of so many bits a word.
fn shape_of(channels: u8, symbols: u8, parts: u8, bits: u8) -> GathererShape
    requires { AreGathererSizes channels symbols parts bits }
    ensures shape { IsShape result }
    ensures has { HasShape (gatherer channels symbols parts bits) result }
    ensures channel { result.channel_bits ≡ bits_for channels }
{
    GathererShape {
        channels,
        channel_bits: bits_for(channels),
        word_bits: symbols * bits,
        parts,
    }
}

/// The ports at its input.
fn coming_ports(channels: u8, symbols: u8, bits: u8) -> EndPorts
    requires few { channels ≤ 16 }
    requires narrow { symbols * bits ≤ 128 }
    ensures { result ≡ record { word = symbols * bits; channel = Some (bits_for channels); packets = false; empty = None } }
{
    EndPorts {
        word: symbols * bits,
        channel: Some(bits_for(channels)),
        packets: false,
        empty: None,
    }
}

/// The ports of its header.
fn header_ports(
    alloc: Global,
    coming: EndPorts,
    going: EndPorts,
) -> Result<List<PortLine>, NoMemory>
    ensures { IfOk result (λ ports. ports ≡ end_ports true coming (codes "in") ++ end_ports false going (codes "out")) }
{
    let mut ports = List::new(alloc);
    push_end(alloc, &mut ports, true, coming, "in")?;
    push_end(alloc, &mut ports, false, going, "out")?;
    Ok(ports)
}

/// Makes the nets of a gatherer and lets them drive its ports.
fn fill(
    alloc: Global,
    builder: &mut Builder,
    has: EndPorts,
    channels: u8,
    symbols: u8,
    parts: u8,
    bits: u8,
) -> Result<(), NetFault>
    requires sizes { AreGathererSizes channels symbols parts bits }
    requires has { has ≡ gathered_in (gatherer channels symbols parts bits) }
    requires started { builder.old
        ≡ started (codes "gather_interconnect") (gatherer_ports (gatherer channels symbols parts bits)) }
    requires well_made { IsWellMade builder.old }
    requires clocked { IsClocked builder.old }
    requires written { IsWritten builder.old }
    requires undriven { (k : ℕ) → driver_of builder.old k ≡ None }
    ensures whole { OnOk result (IsGathererWhole (gatherer channels symbols parts bits) builder.new) }
    ensures full { (result ≡ Err NetFault.TooManyNets) → ⊥ }
{
    // the laws of runs, which the contract rests on
    goes_on();
    signals();
    same_beginnings();
    let shape = shape_of(channels, symbols, parts, bits);
    let from = word_at(builder, 0, has, shape.channel_bits);
    let ready = builder.input(4);
    let made = emit_gatherer(builder, shape, &from, ready)?;
    let drivers = [
        Some(made.ready),
        None,
        None,
        None,
        None,
        Some(made.valid),
        Some(made.word),
        Some(from.channel),
    ];
    drive_each(builder, &drivers);
    builder.well_made();
    Ok(())
}

/// The module of a gatherer of so many channels, which makes a beat of so many parts, each of so many symbols of so many bits.
pub fn gather_module(
    alloc: Global,
    channels: u8,
    symbols: u8,
    parts: u8,
    bits: u8,
) -> Result<Module, NoMemory>
    requires { AreGathererSizes channels symbols parts bits }
    ensures { IfOk result (IsGathererModule (gatherer channels symbols parts bits)) }
{
    let coming = coming_ports(channels, symbols, bits);
    let going = EndPorts {
        word: symbols * parts * bits,
        ..coming
    };
    let ports = header_ports(alloc, coming, going)?;
    let mut builder = start(alloc, "gather_interconnect", ports)?;
    match fill(alloc, &mut builder, coming, channels, symbols, parts, bits) {
        Ok(()) => {}
        Err(NetFault::NoMemory) => return Err(NoMemory),
        Err(NetFault::TooManyNets) => unreachable!(),
    }
    let whole = builder.finish();
    prune(alloc, &whole)
}
