//! Hosts whose plain commands reach their agent one for one wait for few cycles, whatever the agent owes meanwhile.

ghost use Rattle.std.specs.Prelude.{ℕ, ◌+◌};
ghost use Rattle.memory_runs.specs.Views.{System, Run, Responses};
ghost use Rattle.memory_runs.specs.Whole.{IsLegalRun};
ghost use Rattle.memory_runs.specs.Onward.{AcceptsSoon};
ghost use Rattle.memory_awake.specs.Onward.{prompt_window};
ghost use Rattle.memory_awake.specs.RowSystem.{RowPorts, AreRows, boundaries_of};
ghost use Rattle.memory_awake.specs.Theorem.{States, ArePlanned, AreMachines};

/// In a system of machines whose links are machines too, a host stands beside others like it at an agent that never stalls and
/// answers soon: a beat of its oldest command is accepted in each window in which beats lack.
pub fn alike_hosts_are_accepted()
    ensures { (responses : Responses) (system : System) (run : Run) (ports : RowPorts) (states : States) (end : ℕ)
        → ArePlanned system (boundaries_of ports) states → AreMachines responses system run (boundaries_of ports) states (end + 2)
        → AreRows system run ports (end + 2) → IsLegalRun system run (end + 2)
        → AcceptsSoon (prompt_window system) system run end }
{
    memory_awake::hosts::wired_hosts_move_on();
    memory_awake::rows::machines_with_links_are_built()
}
