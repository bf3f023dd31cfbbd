//! What holds of the empty symbols that a window sends. The function does nothing; its contract is the law.

ghost use Rattle.std.specs.Prelude.{ℕ};
ghost use Rattle.netlist.specs.Nets.{NetValue};
ghost use Rattle.netlist.specs.Netlists.{Netlist};
ghost use Rattle.netlist.specs.Runs.{Run, IsEndlessRun};
ghost use Rattle.stream_runs.specs.Source.{IsLegalSource};
ghost use Rattle.stream_machines.specs.Stage.{Shape};
ghost use Rattle.stream_machines.specs.Words.{ShowsClear};
ghost use Rattle.stage_core.specs.declared.beat.BeatNets.{BeatNets};
ghost use Rattle.stage_core.specs.Beats.{view_of};
ghost use Rattle.st_windows.specs.declared.sizes.WindowSizes.{WindowSizes};
ghost use Rattle.st_windows.specs.declared.window.WindowKept.{WindowKept};
ghost use Rattle.st_windows.specs.WindowNets.{IsWindowShape, WindowForward, WindowBackward};

/// A window sends beats with 0 in their empty symbols where it takes such beats from a legal source.
pub fn window_sends_clear_beats()
    ensures { (sizes : WindowSizes) (shape : Shape) (from to : BeatNets) (kept : WindowKept) (ready up : NetValue)
        (netlist : Netlist) → IsWindowShape sizes shape → WindowForward sizes from to kept netlist
        → WindowBackward kept ready up netlist → (run : Run) → IsEndlessRun netlist run → (count : ℕ)
        → IsLegalSource shape.up (view_of run from up) count
        → ShowsClear shape.up (view_of run from up) count → ShowsClear shape.down (view_of run to ready) count }
{}
