//! No host hangs, whatever links stand before its agents: a command that is wanted moves on within a window that the system alone
//! tells.

ghost use Rattle.std.specs.Prelude.{ℕ, ◌+◌, ◌<◌, IsTrue};
ghost use Rattle.memory_runs.specs.Views.{System, Run, Responses};
ghost use Rattle.memory_runs.specs.Whole.{IsLegalRun};
ghost use Rattle.memory_runs.specs.Order.{is_joined};
ghost use Rattle.memory_runs.specs.Onward.{NoHostHangs};
ghost use Rattle.memory_machines.specs.Lines.{target_of};
ghost use Rattle.memory_awake.specs.RowSystem.{RowPorts, AreRows, boundaries_of};
ghost use Rattle.memory_awake.specs.Theorem.{States, ArePlanned, AreMachines};
ghost use Rattle.memory_waits.specs.Watched.{LeadsBy, may_wait};
ghost use Rattle.memory_waits.specs.Windows.{own_steps, host_window};

/// Behind any row of links what a host sends comes to few steps before its arbiter, each of which may wait for its turn there and
/// for words: its bursts are cut, or not, its words selected, gathered or split, or not, and its beats without a lane dropped, or
/// not.
pub fn rows_lead_down()
    ensures { (responses : Responses) (system : System) (run : Run) (ports : RowPorts) (states : States) (end agent host : ℕ)
        → ArePlanned system (boundaries_of ports) states → AreMachines responses system run (boundaries_of ports) states (end + 1)
        → AreRows system run ports (end + 1) → IsLegalRun system run (end + 1)
        → agent < system.agents → host < system.hosts → IsTrue (is_joined system agent host)
        → (left : ℕ → ℕ) × (still : ℕ → ℕ → ℕ)
        × LeadsBy (target_of system agent) (ports.after_route host agent) (ports.before_arbiter host agent)
        (may_wait system run agent (ports.before_arbiter host agent)) left still (own_steps system agent host) end }
{
    memory_awake::hosts::routes_take_few_steps();
    memory_links::widths::select_is_a_link();
    memory_links::widths::split_is_a_link();
    memory_links::gathers::gather_is_a_link();
    memory_links::gathers::touches_lie_in_words();
    memory_links::drops::drop_owes_its_words();
    crate::neighbours::fitted_rows_take_few_steps();
    memory_awake::rows::machines_with_links_are_built()
}

/// So in a system of machines whose links are machines too no host hangs: at any agent, behind any number of stages, and whatever
/// words, bursts and byte enables hosts and agents have.
pub fn no_host_hangs()
    ensures { (responses : Responses) (system : System) (run : Run) (ports : RowPorts) (states : States) (end : ℕ)
        → ArePlanned system (boundaries_of ports) states → AreMachines responses system run (boundaries_of ports) states (end + 2)
        → AreRows system run ports (end + 2) → IsLegalRun system run (end + 2)
        → NoHostHangs (host_window system) system run end }
{
    crate::hosts_beside_links_move();
    crate::wired_hosts_move();
    crate::neighbours::rows_take_few_steps();
    rows_lead_down();
    memory_awake::rows::machines_with_links_are_built()
}
