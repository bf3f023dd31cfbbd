//! Which of these modules is wanted.

ghost use Rattle.std.specs.Prelude.{◌↔◌, ◌≡◌, IsTrue, IfOk};
ghost use Rattle.routed_modules.specs.Routed.{HaveSizes, IsRoutedModule};
ghost use Rattle.routed_modules.specs.Demultiplexers.{AreSizes};
ghost use Rattle.routed_modules.specs.Gatherers.{AreGathererSizes};

use crate::demux::demux_module;
use crate::gather::gather_module;
use crate::mux::mux_module;
use av_base::NoMemory;
use netlist::Module;
use std::alloc::Global;

/// A module that leads beats by their channels.
#[derive(Clone, Copy, Debug, PartialEq, Eq)]
pub enum Routed {
    /// A multiplexer of so many inputs, and of so many symbols of so many bits a beat.
    Multiplexer {
        inputs: u8,
        symbols: u8,
        bits: u8,
    },
    /// A demultiplexer of so many outputs, and of so many symbols of so many bits a beat.
    Demultiplexer {
        outputs: u8,
        symbols: u8,
        bits: u8,
    },
    /// A gatherer of so many channels, which makes a beat of so many parts, each of so many symbols of so many bits.
    Gatherer {
        channels: u8,
        symbols: u8,
        parts: u8,
        bits: u8,
    },
}

/// Whether so many ends may share beats of so many symbols of so many bits.
fn are_sizes(ends: u8, symbols: u8, bits: u8) -> bool
    ensures { IsTrue result ↔ AreSizes ends symbols bits }
{
    (2..=16).contains(&ends)
        && (1..=16).contains(&symbols)
        && bits >= 1
        && u16::from(symbols) * u16::from(bits) <= 128
}

/// Whether beats of so many symbols of so many bits on so many channels may be gathered to so many.
fn are_gatherer_sizes(channels: u8, symbols: u8, parts: u8, bits: u8) -> bool
    ensures { IsTrue result ↔ AreGathererSizes channels symbols parts bits }
{
    let gathered = u32::from(symbols) * u32::from(parts);
    (2..=16).contains(&channels)
        && (1..=16).contains(&symbols)
        && (2..=16).contains(&parts)
        && bits >= 1
        && gathered <= 32
        && gathered * u32::from(bits) <= 128
}

impl Routed {
    /// Whether there is such a module: its numbers are in their ranges.
    pub fn has_sizes(self) -> bool
        ensures { IsTrue result ↔ HaveSizes self }
    {
        match self {
            Routed::Multiplexer {
                inputs,
                symbols,
                bits,
            } => are_sizes(inputs, symbols, bits),
            Routed::Demultiplexer {
                outputs,
                symbols,
                bits,
            } => are_sizes(outputs, symbols, bits),
            Routed::Gatherer {
                channels,
                symbols,
                parts,
                bits,
            } => are_gatherer_sizes(channels, symbols, parts, bits),
        }
    }

    /// The module.
    pub fn make(self, alloc: Global) -> Result<Module, NoMemory>
        requires { HaveSizes self }
        ensures { IfOk result (IsRoutedModule self) }
    {
        match self {
            Routed::Multiplexer {
                inputs,
                symbols,
                bits,
            } => mux_module(alloc, inputs, symbols, bits),
            Routed::Demultiplexer {
                outputs,
                symbols,
                bits,
            } => demux_module(alloc, outputs, symbols, bits),
            Routed::Gatherer {
                channels,
                symbols,
                parts,
                bits,
            } => gather_module(alloc, channels, symbols, parts, bits),
        }
    }
}
