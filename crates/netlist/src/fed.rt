//! Runs of a module that go on with given inputs, one cycle at a time: what is fed may depend on all that the run has shown.

ghost use Rattle.std.specs.Prelude.{ℕ};
ghost use Rattle.netlist.specs.Netlists.{Netlist, IsWellMade};
ghost use Rattle.netlist.specs.Runs.{Run, Cycle, Always, InputsFit, IsRun};
ghost use Rattle.netlist.specs.Fed.{GoesOnFed};

/// In each valuation what stands at the input ports fits their widths.
pub fn inputs_fit()
    ensures { (netlist : Netlist) → IsWellMade netlist → Always netlist (λ (cycle : Cycle). InputsFit netlist.ports cycle.input) }
{
    crate::signals();
}

/// Each run is the beginning of one that is a cycle longer, with any inputs within their widths in that cycle.
pub fn runs_can_be_fed()
    ensures { (netlist : Netlist) → IsWellMade netlist → (run : Run) (cycles : ℕ) (inputs : ℕ → ℕ) → IsRun netlist run cycles
        → InputsFit netlist.ports inputs → GoesOnFed netlist run cycles inputs }
{
    crate::goes_on();
    crate::has_valuation();
}
