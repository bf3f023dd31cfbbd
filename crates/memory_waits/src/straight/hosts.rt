//! The part next to a host: what it shows below, and when.

ghost use Rattle.std.specs.Prelude.{ℕ};
ghost use Rattle.memory_runs.specs.Views.{Responses, System, Run};
ghost use Rattle.memory_runs.specs.Legal.{IsLegalHost};
ghost use Rattle.memory_machines.specs.Link.{Port, AnswersAreOwed};
ghost use Rattle.memory_machines.specs.Straight.{HostGoesStraightThrough, HostIsPrompt};
ghost use Rattle.memory_parts.specs.Host.{HostState, IsHostMachine, ReadsWords};

/// A plain command of a host is shown below in its own cycle, and accepted with it, once all earlier ones are taken, while fewer
/// than 16 reads are under way.
pub fn host_goes_straight()
    ensures { (responses : Responses) (system : System) (run : Run) (host : ℕ) (down : Port) (state : HostState) (end : ℕ)
        → ReadsWords (system.host host) (run.at_host host) end → IsLegalHost (system.host host) (run.at_host host) end
        → AnswersAreOwed down end → IsHostMachine responses (system.host host) (run.at_host host) down state end
        → HostGoesStraightThrough (system.host host) (run.at_host host) host down end }
{
    memory_parts::steps::host_machine_is_a_part()
}

/// It shows a command in the first cycle in which all earlier ones are taken and answered, whatever waits below. Of a write
/// without an enabled lane no beat is left to be taken once its last one is accepted.
pub fn host_is_prompt()
    ensures { (responses : Responses) (system : System) (run : Run) (host : ℕ) (down : Port) (state : HostState) (end : ℕ)
        → ReadsWords (system.host host) (run.at_host host) end → IsLegalHost (system.host host) (run.at_host host) end
        → AnswersAreOwed down end → IsHostMachine responses (system.host host) (run.at_host host) down state end
        → HostIsPrompt 0 (system.host host) (run.at_host host) host down end }
{
    memory_parts::lines::host_machine_keeps_its_line();
    memory_parts::steps::host_machine_is_a_part()
}
