//! The lines that the parts of a module keep, and what they give together.

ghost use Rattle.std.specs.Prelude.{ℕ};
ghost use Rattle.memory_runs.specs.Views.{Responses, System, Run};
ghost use Rattle.memory_machines.specs.Register.{AreRegisters};
ghost use Rattle.memory_machines.specs.Lines.{AreTaggedInOrder, AreOwedByTag, Inside, Holds, Wired, TaggedPort, IsPipeLine, Pipe, KeepsPipeLine, joined_pipe};
ghost use Rattle.memory_runs.specs.Whole.{IsLegalRun, IsSafe};

/// The lines of the parts give what is promised at the ports, for any number of hosts, agents and stages.
pub fn the_lines_give_the_headline()
    ensures { (responses : Responses) (system : System) (run : Run) (inside : Inside) (holds : Holds) (end : ℕ)
        → Wired responses system run inside holds end → IsLegalRun system run end
        → IsSafe responses system run end }
{}

/// A register for commands and one for answers keep the line of a pipe of one stage, and pipes in a row are one pipe.
pub fn registers_are_a_pipe()
    ensures one { (system : System) (agent : ℕ) (up down : TaggedPort) → AreRegisters up down → (end : ℕ)
        → IsPipeLine system agent 1 1 up down end }
    ensures none { (system : System) (agent : ℕ) (port : TaggedPort) (end : ℕ)
        → IsPipeLine system agent 0 0 port port end }
    ensures two { (system : System) (agent : ℕ) (first second : Pipe) (up middle down : TaggedPort) (end : ℕ)
        → KeepsPipeLine system agent first up middle end → KeepsPipeLine system agent second middle down end
        → KeepsPipeLine system agent (joined_pipe first second) up down end }
{}

/// Words that bear the tags of their commands in order are owed for each tag by itself.
pub fn tags_in_order()
    ensures { (system : System) (tagged : TaggedPort) (end : ℕ) → AreTaggedInOrder tagged end
        → AreOwedByTag system tagged end }
{}
