//! Legal runs go on: whatever the module shows in a cycle, its hosts and agents can keep to their rules in it.

pub mod rows;

ghost use Rattle.std.specs.Prelude.{ℕ, suc, ◌+◌, ◌≤◌};
ghost use Rattle.memory_runs.specs.Views.{System, Run};
ghost use Rattle.memory_runs.specs.Beginnings.{RunsAgreeBefore};
ghost use Rattle.memory_runs.specs.Whole.{IsLegalRun};
ghost use Rattle.memory_runs.specs.Going.{AreAtRest, ModuleShowsAlike, rested, rested_on};

/// Each run has its like in which the components rest in one cycle. What it shows before that cycle is the same, and so is
/// in each cycle what the module shows.
pub fn components_can_rest()
    ensures rests { (system : System) (run : Run) (end : ℕ) → AreAtRest system (rested run end) end }
    ensures begins { (run : Run) (end : ℕ) → RunsAgreeBefore run (rested run end) end }
    ensures shown { (run : Run) (end : ℕ) → ModuleShowsAlike run (rested run end) }
{}

/// A run that is legal up to a cycle in which its components rest is legal up to the next one, whatever the module shows
/// there. So each legal run begins longer legal ones.
pub fn legal_runs_go_on()
    ensures further { (system : System) (run : Run) (end : ℕ) → IsLegalRun system run end → AreAtRest system run end
        → IsLegalRun system run (suc end) }
    ensures alike { (system : System) (run other : Run) (end : ℕ) → RunsAgreeBefore run other end → IsLegalRun system run end
        → AreAtRest system other end → IsLegalRun system other (suc end) }
    ensures begins { (run : Run) (end more : ℕ) → RunsAgreeBefore run (rested_on run end more) end }
    ensures shown { (run : Run) (end more : ℕ) → ModuleShowsAlike run (rested_on run end more) }
    ensures legal { (system : System) (run : Run) (end more : ℕ) → IsLegalRun system run end
        → IsLegalRun system (rested_on run end more) (end + more) }
{
    components_can_rest();
    crate::same_beginnings();
}
