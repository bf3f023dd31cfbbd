//! From the form of a source's beats to that of a sink's: symbols are brought to one order, and beats come apart or are joined.
//! Each stage stands only where it is needed. The turn to a sink's own order isn't part of it.

ghost use Rattle.std.specs.Prelude.{◌≡◌, ℕ, ◌+◌, ◌*◌, ◌/◌, ◌<◌, ◌≤◌, Bool};
ghost use Rattle.stream_runs.specs.View.{Side};
ghost use Rattle.stream_machines.specs.Stage.{PassesAll};
ghost use Rattle.stage_core.specs.Beats.{Widths};
ghost use Rattle.st_format.specs.FormatNets.{turns_first, clears, IsTurn, IsClearing, IsFormatOf, IsSideOf, LeadsTo, Orders, Resizes, turned, formatted, TakesTo, OrderTakes, ResizeTakes, format_nets, order_nets};
ghost use Rattle.st_format.specs.ResizeNets.{resize_nets};

use crate::clear::Clear;
use crate::reorder::Reorder;
use crate::resize::{Resize, resize_of};
use iface_roles::{SinkPort, SourcePort};
use stage_core::{Chain, Maybe};

/// What brings symbols to one order and clears empty ones. It holds nothing.
pub type Order = Chain<Maybe<Reorder>, Maybe<Clear>>;

/// What brings symbols to one order and clears empty ones, and then changes how many symbols a beat has.
pub type Format = Chain<Order, Resize>;

fn turn_of(source: &SourcePort, sink: &SinkPort, bits: u8) -> Maybe<Reorder>
    requires some { 1 ≤ source.now.symbols }
    requires some_bits { 1 ≤ bits }
    requires small { bits * source.now.symbols ≤ 128 }
    ensures { IsTurn (turns_first source.now sink.now) source.now.symbols bits result.stage }
{
    if source.first_high || !(sink.first_high || source.symbols != sink.symbols) {
        return Maybe { stage: None };
    }
    Maybe {
        stage: Some(Reorder::new(source.symbols, bits)),
    }
}

fn clearing_of(source: &SourcePort, sink: &SinkPort, bits: u8) -> Maybe<Clear>
    requires some { 1 ≤ source.now.symbols }
    requires some_bits { 1 ≤ bits }
    requires small { bits * source.now.symbols ≤ 128 }
    ensures { IsClearing (clears source.now sink.now) source.now.symbols bits result.stage }
{
    if source.symbols == sink.symbols || source.empty_bits == 0 || sink.symbols <= 1 {
        return Maybe { stage: None };
    }
    Maybe {
        stage: Some(Clear::new(source.symbols, bits)),
    }
}

/// The stages from a source's beats to beats of the sink's symbols.
pub fn format_of(source: &SourcePort, sink: &SinkPort) -> Format
    requires some { 1 ≤ source.now.symbols }
    requires sink_some { 1 ≤ sink.now.symbols }
    requires some_bits { 1 ≤ source.now.symbol_bits }
    requires small { source.now.symbol_bits * source.now.symbols ≤ 128 }
    requires sink_small { source.now.symbol_bits * sink.now.symbols ≤ 128 }
    ensures format { IsFormatOf source.now sink.now result }
    ensures leads { (passes : ℕ → Bool) (side : Side) → IsSideOf source.now result side → PassesAll passes side
        → LeadsTo result passes side (formatted source.now sink.now side) }
    ensures orders { (passes : ℕ → Bool) (side : Side) → IsSideOf source.now result side → PassesAll passes side
        → Orders result.first passes side (turned source.now sink.now side) }
    ensures resizes { (passes : ℕ → Bool) (side : Side) → IsSideOf source.now result side → PassesAll passes side
        → Resizes result.second passes (turned source.now sink.now side) (formatted source.now sink.now side) }
    ensures widths { (widths : Widths) → widths.word ≡ source.now.symbol_bits * source.now.symbols → widths.empty ≤ 8
        → TakesTo result widths (source.now.symbol_bits * sink.now.symbols) }
    ensures order_widths { (widths : Widths) → widths.word ≡ source.now.symbol_bits * source.now.symbols → widths.empty ≤ 8
        → OrderTakes result.first widths }
    ensures resize_widths { (widths : Widths) → widths.word ≡ source.now.symbol_bits * source.now.symbols → widths.empty ≤ 8
        → ResizeTakes result.second widths (source.now.symbol_bits * sink.now.symbols) }
    ensures nets { format_nets result ≤ 3250 }
    ensures few_order { order_nets result.first ≤ 1050 }
    ensures few_resize { resize_nets result.second ≤ 2200 }

    // Ends of one form have nothing between them.
    ensures nothing { source.now.symbols ≡ sink.now.symbols → source.now.first_high ≡ sink.now.first_high
        → format_nets result ≡ 0 }
    ensures no_order { source.now.symbols ≡ sink.now.symbols → source.now.first_high ≡ sink.now.first_high
        → order_nets result.first ≡ 0 }
    ensures no_resize { source.now.symbols ≡ sink.now.symbols → resize_nets result.second ≡ 0 }
{
    let bits = source.symbol_bits as u8;
    let order = Chain {
        first: turn_of(source, sink, bits),
        second: clearing_of(source, sink, bits),
    };
    Chain {
        first: order,
        second: resize_of(source.symbols, sink.symbols, bits, source.packets),
    }
}
