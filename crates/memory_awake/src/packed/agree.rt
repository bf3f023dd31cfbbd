//! Whether each word that a read touches is read once depends on what the ports show, cycle by cycle.

ghost use Rattle.std.specs.Prelude.{ℕ};
ghost use Rattle.memory_runs.specs.Beginnings.{RunsAgreeBefore};
ghost use Rattle.memory_runs.specs.Packed.{ReadsEachTouchedWordOnce};
ghost use Rattle.memory_runs.specs.Views.{System, Run};

/// Where two runs show the same before a cycle, both read each touched word once up to it, or neither does.
pub fn packed_runs_agree()
    ensures { (system : System) (one two : Run) (host agent end : ℕ) → RunsAgreeBefore one two end
        → ReadsEachTouchedWordOnce system one host agent end → ReadsEachTouchedWordOnce system two host agent end }
{}
