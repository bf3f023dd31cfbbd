//! What holds of the empty symbols in each netlist of these stages. The functions do nothing; their contracts are the laws.

ghost use Rattle.std.specs.Prelude.{◌≡◌, ℕ, ◌<◌, ◌≤◌, true, IsNone, IsTrue};
ghost use Rattle.netlist.specs.Nets.{NetValue};
ghost use Rattle.netlist.specs.Netlists.{Netlist};
ghost use Rattle.netlist.specs.Runs.{Run, Always, IsEndlessRun};
ghost use Rattle.stream_runs.specs.View.{EndView, Side};
ghost use Rattle.stream_runs.specs.Source.{IsLegalSource};
ghost use Rattle.stream_machines.specs.Stage.{Shape};
ghost use Rattle.stream_machines.specs.Words.{HasClearEmpty, ShowsClear};
ghost use Rattle.stage_core.specs.declared.beat.BeatNets.{BeatNets};
ghost use Rattle.stage_core.specs.Beats.{beat_in, view_of};
ghost use Rattle.st_format.specs.declared.sizes.Sizes.{Sizes};
ghost use Rattle.st_format.specs.declared.narrow.NarrowKept.{NarrowKept};
ghost use Rattle.st_format.specs.declared.widen.Widen.{Widen};
ghost use Rattle.st_format.specs.declared.widen.WidenKept.{WidenKept};
ghost use Rattle.st_format.specs.ClearNets.{ClearsBeat};
ghost use Rattle.st_format.specs.NarrowNets.{IsNarrowShape, NarrowForward, NarrowBackward};
ghost use Rattle.st_format.specs.WidenNets.{IsWidenShape, WidenForward, WidenBackward};
ghost use Rattle.st_format.specs.FormatNets.{format_has};
ghost use Rattle.st_format.specs.declared.resize.ResizeKept.{ResizeKept};
ghost use Rattle.st_format.specs.FormatStands.{FrontKept, FormatForward, FormatBackward};

use crate::format::Format;
use st_windows::window_sends_clear_beats;
use stage_core::Stage;
use stream_machines::machines::{clear_is_a_stage, parts_of_words, words_fit};

/// `Clear` sets the empty symbols of each beat to 0, and `Narrow` and `Widen` send beats with 0 in them where they take such
/// beats.
pub fn empty_symbols_are_clear()
    ensures clear { (symbols bits : ℕ) (from to : BeatNets) (netlist : Netlist) → ClearsBeat symbols bits from to netlist
        → (side : Side) → side.symbols ≡ symbols → side.symbol_bits ≡ bits → side.first_high ≡ true
        → Always netlist (λ cycle. HasClearEmpty side (beat_in cycle to)) }
    ensures narrow { (sizes : Sizes) (shape : Shape) (from to : BeatNets) (kept : NarrowKept) (ready up : NetValue)
        (netlist : Netlist) → IsNarrowShape sizes shape → NarrowForward sizes from to kept netlist
        → NarrowBackward kept ready up netlist → (run : Run) → IsEndlessRun netlist run → (count : ℕ)
        → ShowsClear shape.up (view_of run from up) count → ShowsClear shape.down (view_of run to ready) count }
    ensures widen { (stage : Widen) (shape : Shape) (from to : BeatNets) (kept : WidenKept) (ready up : NetValue)
        (netlist : Netlist) → IsWidenShape stage shape → WidenForward stage from to kept netlist
        → WidenBackward kept ready up netlist → (run : Run) → IsEndlessRun netlist run → (count : ℕ)
        → IsLegalSource shape.up (view_of run from up) count
        → ShowsClear shape.up (view_of run from up) count → ShowsClear shape.down (view_of run to ready) count }

    // A legal source without packets, or whose beats have one symbol, sends no empty symbol.
    ensures full { (side : Side) (view : EndView) (count : ℕ) → (IsTrue side.packets → side.symbols ≤ 1)
        → IsLegalSource side view count → ShowsClear side view count }
{
    clear_is_a_stage();
    parts_of_words();
}

/// Behind a legal source, the stages of a format send beats with 0 in their empty symbols: where a `Clear` is one of them, or
/// the sink's beats have one symbol, whatever stands there, and else where the source does.
pub fn format_sends_clear_beats(format: &Format)
    ensures { (shape : Shape) (from to : BeatNets) (front : FrontKept) (back : ResizeKept) (ready up : NetValue)
        (netlist : Netlist)
        → format_has format.now shape → FormatForward format.now from to front back netlist
        → FormatBackward format.now front back ready up netlist → (run : Run) → IsEndlessRun netlist run → (count : ℕ)
        → IsLegalSource shape.up (view_of run from up) count
        → (IsNone format.now.first.second.stage → 1 < shape.down.symbols → ShowsClear shape.up (view_of run from up) count)
        → ShowsClear shape.down (view_of run to ready) count }
{
    empty_symbols_are_clear();
    words_fit();
    format.first.law();
    format.second.law();
    window_sends_clear_beats();
}
