//! The filter on channels and the tied error.

ghost use Rattle.std.specs.Prelude.{◌≡◌, OnOk};
ghost use Rattle.st_channel.specs.Ports.{HasChannels};
ghost use Rattle.adapters_tests.specs.Whole.{StaysWhole};

use crate::builders::{BYTES, beat_of, empty_builder};
use crate::lines::push_lines;
use iface_roles::StreamPort;
use net_parts::{constant, level};
use netlist::{Builder, Module, NetFault};
use st_channel::{ChannelFilter, ErrorTie};
use stage_core::{Maybe, emit_stream};
use std::alloc::{AllocError, Global};

/// A source at ready latency 0 with eight channels.
fn source() -> StreamPort
    ensures bits { result.channel_bits ≡ 3 }
    ensures largest { result.max_channel ≡ 7 }
{
    StreamPort {
        channel_bits: 3,
        max_channel: 7,
        ..BYTES
    }
}

fn sink(channel_bits: u8, max_channel: u32) -> StreamPort
    ensures bits { result.channel_bits ≡ channel_bits }
    ensures largest { result.max_channel ≡ max_channel }
{
    StreamPort {
        channel_bits,
        max_channel,
        error_bits: 1,
        ..BYTES
    }
}

/// The filter behind a beat of net 0 on channel 5, net 1, and before a ready that is net 0; and the numbers of the `valid`, the
/// channel, the ready and the `dropped` that it makes.
#[tactic(auto, using(net_parts::specs::Laws::growing))]
fn emit_filter(builder: &mut Builder, filter: &ChannelFilter) -> Result<[u32; 4], NetFault>
    requires { filter.now.source.bits ≡ 3 }
    ensures { OnOk result (StaysWhole builder.old builder.new) }
{
    let bit = level(builder, true)?;
    let channel = constant(builder, 3, 5)?;
    let from = beat_of(builder, bit, bit, channel, bit);
    let made = emit_stream(filter, builder, from, bit)?;
    let again = beat_of(builder, bit, bit, channel, bit);
    let dropped = filter.emit_dropped(builder, again, made.ready)?;
    Ok([
        made.beat.valid.number(),
        made.beat.channel.number(),
        made.ready.number(),
        dropped.number(),
    ])
}

/// A module, and the numbers of the nets that were looked at.
#[derive(Drop)]
struct Made {
    module: Module,
    numbers: [u32; 4],
}

fn push_made(text: &mut String, made: &Made, words: &str) -> Result<(), AllocError> {
    write!(text, " {:?},", made.numbers)?;
    push_lines(text, &made.module, words)
}

/// The module with the filter before a sink.
fn filtered(alloc: Global, sink: &StreamPort) -> Result<Made, NetFault>
    requires { HasChannels sink.now.channel_bits sink.now.max_channel }
{
    let filter = ChannelFilter::new(&source(), sink);
    let mut builder = empty_builder(alloc)?;
    let numbers = emit_filter(&mut builder, &filter)?;
    Ok(Made {
        module: builder.finish(),
        numbers,
    })
}

/// No stage and a tied error of two bits, behind a beat of net 0 and before a ready that is net 0; and the numbers of the
/// `valid`, the channel, the error and the ready that they make.
#[tactic(auto, using(net_parts::specs::Laws::growing))]
fn emit_tie(builder: &mut Builder) -> Result<[u32; 4], NetFault>
    ensures { OnOk result (StaysWhole builder.old builder.new) }
{
    let bit = level(builder, true)?;
    let none: Maybe<ErrorTie> = Maybe { stage: None };
    let from = beat_of(builder, bit, bit, bit, bit);
    let through = emit_stream(&none, builder, from, bit)?;
    let tie = Maybe {
        stage: Some(ErrorTie::new(2)),
    };
    let made = emit_stream(&tie, builder, through.beat, through.ready)?;
    Ok([
        made.beat.valid.number(),
        made.beat.channel.number(),
        made.beat.error.number(),
        made.ready.number(),
    ])
}

fn tied(alloc: Global) -> Result<Made, NetFault> {
    let mut builder = empty_builder(alloc)?;
    let numbers = emit_tie(&mut builder)?;
    Ok(Made {
        module: builder.finish(),
        numbers,
    })
}

fn push_filter(
    alloc: Global,
    text: &mut String,
    sink: &StreamPort,
    words: &str,
) -> Result<(), NetFault>
    requires { HasChannels sink.now.channel_bits sink.now.max_channel }
{
    let made = filtered(alloc, sink)?;
    push_made(text, &made, words)?;
    Ok(())
}

fn push_tie(alloc: Global, text: &mut String, words: &str) -> Result<(), NetFault> {
    let made = tied(alloc)?;
    push_made(text, &made, words)?;
    Ok(())
}

/// The module that the first word names.
pub(crate) fn push_channels(alloc: Global, text: &mut String, words: &str) -> Result<(), NetFault> {
    let (name, words) = words.split_once(' ').unwrap_or((words, ""));
    match name {
        "eight_to_four" => push_filter(alloc, text, &sink(2, 3), words),
        "equal" => push_filter(alloc, text, &sink(3, 7), words),
        _ => push_tie(alloc, text, words),
    }
}
