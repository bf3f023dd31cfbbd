//! Multiplexers as modules by themselves.

ghost use Rattle.std.specs.Prelude.{◌≡◌, ℕ, ◌+◌, ◌*◌, ◌^◌, ◌<◌, ◌≤◌, ◌++◌, true, false, codes, length, Err, Some, None, IfOk, OnOk};
ghost use Rattle.netlist.specs.Netlists.{driver_of, IsWellMade, IsClocked, IsWritten, started};
ghost use Rattle.routed_modules.specs.Ports.{end_ports, numbered_ports};
ghost use Rattle.routed_modules.specs.Demultiplexers.{AreSizes};
ghost use Rattle.routed_modules.specs.Multiplexers.{multiplexer, coming, multiplexer_ports, multiplexer_drivers, IsFilled, IsMultiplexerModule};

use crate::drivers::{drive_each, push_coming, push_going};
use crate::ends::{beats_at, ready_at};
use crate::header::{EndPorts, push_end, push_ends, start};
use crate::sizes::{bits_for, empty_bits, one_if};
use av_base::{List, NoMemory};
use netlist::{Builder, Module, Net, NetFault, PortLine, goes_on, signals};
use pruned_netlists::prune;
use st_mux::{MultiplexerNets, emit_multiplexer};
use std::alloc::Global;
use stream_runs::same_beginnings;

/// The ports at each of its inputs.
fn coming_ports(inputs: u8, symbols: u8, bits: u8) -> EndPorts
    requires { AreSizes inputs symbols bits }
    ensures { result ≡ coming (multiplexer inputs symbols bits) }
{
    EndPorts {
        word: symbols * bits,
        channel: None,
        packets: true,
        empty: empty_bits(symbols),
    }
}

/// The ports of its header, with a channel of so many bits at the output.
fn mux_ports(
    alloc: Global,
    has: EndPorts,
    inputs: u8,
    channel_bits: u8,
) -> Result<List<PortLine>, NoMemory>
    ensures { IfOk result (λ ports. ports
        ≡ numbered_ports true has (codes "in") inputs
        ++ end_ports false (record has { channel = Some channel_bits }) (codes "out")) }
{
    let going = EndPorts {
        channel: Some(channel_bits),
        ..has
    };
    let mut ports = List::new(alloc);
    push_ends(alloc, &mut ports, true, has, "in", inputs)?;
    push_end(alloc, &mut ports, false, going, "out")?;
    Ok(ports)
}

/// What drives each port.
fn mux_drivers(
    alloc: Global,
    made: &MultiplexerNets,
    empty: bool,
) -> Result<Vec<Option<Net>>, NetFault>
    ensures drivers { IfOk result (λ drivers. drivers.items
        ≡ multiplexer_drivers made.now.readies.items made.now.beat made.now.channel empty) }
    ensures full { (result ≡ Err NetFault.TooManyNets) → ⊥ }
{
    let mut drivers = Vec::new(alloc);
    for input in 0..made.readies.len() {
        push_coming(&mut drivers, made.readies[input], false, empty)?;
    }
    push_going(&mut drivers, &made.beat, Some(made.channel), empty)?;
    Ok(drivers)
}

/// Makes the nets of a multiplexer and lets them drive its ports.
fn fill(
    alloc: Global,
    builder: &mut Builder,
    has: EndPorts,
    inputs: u8,
    symbols: u8,
    bits: u8,
) -> Result<(), NetFault>
    requires sizes { AreSizes inputs symbols bits }
    requires has { has ≡ coming (multiplexer inputs symbols bits) }
    requires started { builder.old ≡ started (codes "mux_interconnect") (multiplexer_ports (multiplexer inputs symbols bits)) }
    requires well_made { IsWellMade builder.old }
    requires clocked { IsClocked builder.old }
    requires written { IsWritten builder.old }
    requires undriven { (k : ℕ) → driver_of builder.old k ≡ None }
    ensures filled { OnOk result (IsFilled (multiplexer inputs symbols bits) builder.new) }
    ensures full { (result ≡ Err NetFault.TooManyNets) → ⊥ }
{
    // the laws of runs, which the contract rests on
    goes_on();
    signals();
    same_beginnings();
    let stride = 5 + one_if(has.empty.is_some());
    let beats = beats_at(alloc, builder, has, stride, inputs)?;
    let ready = ready_at(builder, stride * u32::from(inputs));
    let made = emit_multiplexer(alloc, builder, beats.as_slice(), bits_for(inputs), ready)?;
    let drivers = mux_drivers(alloc, &made, has.empty.is_some())?;
    drive_each(builder, drivers.as_slice());
    builder.well_made();
    Ok(())
}

/// The module of a multiplexer of so many inputs, and of so many symbols of so many bits a beat.
pub fn mux_module(alloc: Global, inputs: u8, symbols: u8, bits: u8) -> Result<Module, NoMemory>
    requires { AreSizes inputs symbols bits }
    ensures { IfOk result (IsMultiplexerModule (multiplexer inputs symbols bits)) }
{
    let coming = coming_ports(inputs, symbols, bits);
    let ports = mux_ports(alloc, coming, inputs, bits_for(inputs))?;
    let mut builder = start(alloc, "mux_interconnect", ports)?;
    match fill(alloc, &mut builder, coming, inputs, symbols, bits) {
        Ok(()) => {}
        Err(NetFault::NoMemory) => return Err(NoMemory),
        Err(NetFault::TooManyNets) => unreachable!(),
    }
    let whole = builder.finish();
    prune(alloc, &whole)
}
