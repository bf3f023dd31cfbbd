//! Modules without ports, for one stage each.

ghost use Rattle.std.specs.Prelude.{◌≡◌, ◌^◌, ◌<◌, ◌≤◌, ℕ, IfOk, OnOk};
ghost use Rattle.netlist.specs.Netlists.{IsNet, IsOutputPort, IsClocked, IsWritten};
ghost use Rattle.net_parts.specs.Nets.{IsBit};
ghost use Rattle.stage_core.specs.Beats.{Widths, AreBeatNets};
ghost use Rattle.adapters_tests.specs.Whole.{StaysWhole};

use crate::lines::push_lines;
use av_base::{List, Text};
use iface_roles::StreamPort;
use net_parts::{constant, level};
use netlist::{Builder, Module, Net, NetFault};
use stage_core::{BeatNets, Stage, StreamNets, emit_stream};
use std::alloc::Global;

/// An end of one symbol of eight bits, with ready and without ready latency, packets, channels and errors.
pub(crate) const BYTES: StreamPort = StreamPort {
    symbols: 1,
    symbol_bits: 8,
    first_high: true,
    ready: true,
    latency: 0,
    allowance: 0,
    channel_bits: 0,
    max_channel: 0,
    error_bits: 0,
    packets: false,
    empty_bits: 0,
};

/// The text in memory.
pub(crate) fn text_of(alloc: Global, text: &str) -> Result<Text, NetFault>
    ensures { IfOk result (λ t. t ≡ text.now) }
{
    match Text::copy(alloc, text) {
        Ok(copied) => Ok(copied),
        Err(_) => Err(NetFault::NoMemory),
    }
}

/// A module without ports.
pub(crate) fn empty_builder(alloc: Global) -> Result<Builder, NetFault>
    ensures no_output { IfOk result (λ b. (k w : ℕ) → IsOutputPort b.ports k w → ⊥) }
    ensures clocked { IfOk result (λ b. IsClocked b) }
    ensures written { IfOk result (λ b. IsWritten b) }
{
    let name = text_of(alloc, "t_interconnect")?;
    let ports = List::new(alloc);
    Ok(Builder::new(alloc, name, ports)?)
}

/// The beat whose other signals are all this bit.
pub(crate) fn beat_of(_builder: &Builder, bit: Net, word: Net, channel: Net, empty: Net) -> BeatNets
    requires bit { IsBit _builder.now bit }
    requires word { IsNet _builder.now word }
    requires channel { IsNet _builder.now channel }
    requires empty { IsNet _builder.now empty }
    ensures same { result
        ≡ record { valid = bit; word = word; channel = channel; error = bit; first = bit; last = bit; empty = empty } }
    ensures nets { AreBeatNets _builder.now result }
{
    BeatNets {
        valid: bit,
        word,
        channel,
        error: bit,
        first: bit,
        last: bit,
        empty,
    }
}

/// The stage stands behind a word of so many bits, net 1, an `empty` of two bits, net 2, and a bit, net 0, which is every other
/// signal of the beat, and the ready before which it stands.
#[tactic(auto, using(net_parts::specs::Laws::growing))]
fn grow<S: Stage>(builder: &mut Builder, stage: &S, word_bits: u8) -> Result<StreamNets, NetFault>
    requires some { 1 ≤ word_bits }
    requires few { word_bits ≤ 128 }
    requires fits { 1 < 2 ^ word_bits }
    requires takes { (widths : Widths) → widths.word ≡ word_bits → widths.empty ≡ 2 → S.takes stage.now widths }
    ensures { OnOk result (StaysWhole builder.old builder.new) }
{
    let bit = level(builder, true)?;
    let word = constant(builder, word_bits, 1)?;
    let empty = constant(builder, 2, 1)?;
    let from = beat_of(builder, bit, word, bit, empty);
    let made = emit_stream(stage, builder, from, bit)?;
    Ok(made)
}

/// A module with one stage, and the numbers of the `valid` and the ready that the stage makes.
#[derive(Drop)]
struct Made {
    module: Module,
    valid: u32,
    ready: u32,
}

fn made_by<S: Stage>(alloc: Global, stage: &S, word_bits: u8) -> Result<Made, NetFault>
    requires some { 1 ≤ word_bits }
    requires few { word_bits ≤ 128 }
    requires fits { 1 < 2 ^ word_bits }
    requires takes { (widths : Widths) → widths.word ≡ word_bits → widths.empty ≡ 2 → S.takes stage.now widths }
{
    let mut builder = empty_builder(alloc)?;
    let made = grow(&mut builder, stage, word_bits)?;
    Ok(Made {
        module: builder.finish(),
        valid: made.beat.valid.number(),
        ready: made.ready.number(),
    })
}

/// How many nets stand with the stage, its three constants among them.
pub(crate) fn nets_of<S: Stage>(alloc: Global, stage: &S, word_bits: u8) -> Result<u32, NetFault>
    requires some { 1 ≤ word_bits }
    requires few { word_bits ≤ 128 }
    requires fits { 1 < 2 ^ word_bits }
    requires takes { (widths : Widths) → widths.word ≡ word_bits → widths.empty ≡ 2 → S.takes stage.now widths }
{
    Ok(made_by(alloc, stage, word_bits)?.module.net_count())
}

/// The stage behind a word of eight bits, by its lines.
pub(crate) fn push_stage<S: Stage>(
    alloc: Global,
    text: &mut String,
    stage: &S,
    words: &str,
) -> Result<(), NetFault>
    requires { (widths : Widths) → widths.word ≡ 8 → widths.empty ≡ 2 → S.takes stage.now widths }
{
    let made = made_by(alloc, stage, 8)?;
    write!(text, " valid {}, ready {},", made.valid, made.ready)?;
    push_lines(text, &made.module, words)?;
    Ok(())
}
