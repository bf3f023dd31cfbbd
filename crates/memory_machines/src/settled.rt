//! What the lines of a whole system settle of its boundaries: never idling and fairness rest on it.

ghost use Rattle.std.specs.Prelude.{ℕ, ◌<◌};
ghost use Rattle.memory_runs.specs.Views.{Responses, System, Run};
ghost use Rattle.memory_runs.specs.Whole.{IsLegalRun};
ghost use Rattle.memory_machines.specs.Lines.{Inside, Holds, Wired};
ghost use Rattle.memory_machines.specs.Settled.{IsSettled};
ghost use Rattle.memory_machines.specs.Begun.{IsMatched};

/// Where the parts keep their lines and the components are legal, each boundary carries legal commands and owed answers, and each
/// agent takes what its arbiter shows, in order.
pub fn lines_settle()
    ensures { (responses : Responses) (system : System) (run : Run) (inside : Inside) (holds : Holds) (end : ℕ)
        → (wired : Wired responses system run inside holds end) → IsLegalRun system run end
        → IsSettled system run inside wired.room end }
{}

/// There, too, the operations that an agent has taken match, in order, those behind its arbiter, the pipe hands on in order, and
/// commands stand whole behind the arbiter.
pub fn agents_take_by_turns()
    ensures { (responses : Responses) (system : System) (run : Run) (inside : Inside) (holds : Holds) (end agent : ℕ)
        → Wired responses system run inside holds end → IsLegalRun system run end → agent < system.agents
        → IsMatched system run inside agent end }
{}
