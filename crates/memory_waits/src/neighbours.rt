//! How many steps a command comes to behind the links of its row.

ghost use Rattle.std.specs.Prelude.{◌≡◌, ℕ, ◌+◌, ◌*◌, ◌<◌, ◌≤◌, not, Bool, ◌&&◌, false, IsTrue, IsFalse};
ghost use Rattle.memory_runs.specs.Views.{System, Run, Responses};
ghost use Rattle.memory_runs.specs.Whole.{IsLegalRun};
ghost use Rattle.memory_runs.specs.Order.{is_joined};
ghost use Rattle.memory_machines.specs.Link.{Target, Port, AreLegalAt, AnswersAreOwed};
ghost use Rattle.memory_machines.specs.PartRanks.{JoinsAlike};
ghost use Rattle.memory_parts.specs.Steps.{is_gone};
ghost use Rattle.memory_runs.specs.Commands.{shows};
ghost use Rattle.histories.specs.History.{is_raised};
ghost use Rattle.memory_links.specs.Gathers.{GatherState, RunsAsGather};
ghost use Rattle.memory_links.specs.Drops.{DropState, RunsAsDrop, IsDropPlan};
ghost use Rattle.memory_awake.specs.Steps.{HasStepsLeft};
ghost use Rattle.memory_awake.specs.Theorem.{States, ArePlanned, AreMachines};
ghost use Rattle.memory_awake.specs.RowSystem.{RowPorts, AreRows, boundaries_of};
ghost use Rattle.memory_waits.specs.Waits.{is_quiet};
ghost use Rattle.memory_waits.specs.Neighbours.{fitted_steps, row_steps};

/// Where beats without a lane are dropped a command comes to at most two steps for each of its own and two more: one beat is
/// kept, and a word that it owes by itself may hold back what stands above.
/// While no word is owed below, none is owed above but such a one.
pub fn droppers_take_few_steps()
    ensures steps { (target : Target) (room : ℕ) (up down : Port) (state : DropState) (good : ℕ → Bool) (longest : ℕ)
        (rest : ℕ → ℕ) (end : ℕ)
        → IsDropPlan target up.shape down.shape
        → 0 < room → RunsAsDrop room up down state → JoinsAlike target up end → AreLegalAt up end → AnswersAreOwed down end
        → ((c : ℕ) → c < end → IsTrue (good c) → IsFalse (is_gone down c))
        → HasStepsLeft up (λ c. good c && not (state.own c)) longest rest end
        → (below : ℕ → ℕ) × HasStepsLeft down good (2 * longest + 2) below end }
    ensures quiet { (target : Target) (room : ℕ) (up down : Port) (state : DropState) (end c : ℕ)
        → IsDropPlan target up.shape down.shape
        → RunsAsDrop room up down state → AreLegalAt up end → AnswersAreOwed down end → c ≤ end
        → IsFalse (is_gone down c) → state.own c ≡ false → IsFalse (is_gone up c) }
{
    memory_links::drops::drop_brings_lanes();
    memory_links::drops::drop_owes_its_words()
}

/// Where reads are gathered each step above is followed by as many cycles as a wide word has words there: a read may be held back
/// while they are given out.
pub fn gatherers_take_few_steps()
    ensures { (room many : ℕ) (up down : Port) (state : GatherState) (good : ℕ → Bool) (longest : ℕ) (rest : ℕ → ℕ) (end : ℕ)
        → RunsAsGather room up down state
        → 1 < room → 1 ≤ many → AreLegalAt down end → AnswersAreOwed down end
        → ((c : ℕ) → c < end → IsTrue (shows up.commands.signals c) → IsFalse (is_raised (up.commands.write c))
        → up.commands.count c ≤ many)
        → ((c : ℕ) → c < end → IsTrue (good c) → IsFalse (is_gone down c))
        → HasStepsLeft up good longest rest end
        → (below : ℕ → ℕ) × HasStepsLeft down good (longest * (many + 1) + many) below end }
{}

/// So behind a cutter and what fits its words, or without any, a host's command comes to few steps: in good cycles, or at least
/// in those in which no word is owed there.
pub fn fitted_rows_take_few_steps()
    ensures { (responses : Responses) (system : System) (run : Run) (ports : RowPorts) (states : States) (end agent host : ℕ)
        → ArePlanned system (boundaries_of ports) states → AreMachines responses system run (boundaries_of ports) states (end + 1)
        → AreRows system run ports (end + 1) → IsLegalRun system run (end + 1)
        → agent < system.agents → host < system.hosts → IsTrue (is_joined system agent host)
        → (rest : ℕ → ℕ)
        × HasStepsLeft (ports.above_dropper host agent) (is_quiet system run agent (ports.above_dropper host agent))
        (fitted_steps system agent host) rest end }
{
    memory_awake::hosts::routes_take_few_steps();
    memory_awake::hosts::links_take_few_steps();
    memory_links::drops::drop_owes_its_words();
    gatherers_take_few_steps();
    memory_awake::rows::machines_with_links_are_built()
}

/// And behind any row of links, whatever words, bursts and byte enables its host and the agent have, it does so before the
/// arbiter.
pub fn rows_take_few_steps()
    ensures { (responses : Responses) (system : System) (run : Run) (ports : RowPorts) (states : States) (end agent : ℕ)
        → ArePlanned system (boundaries_of ports) states → AreMachines responses system run (boundaries_of ports) states (end + 1)
        → AreRows system run ports (end + 1) → IsLegalRun system run (end + 1) → agent < system.agents
        → (rest : ℕ → ℕ → ℕ)
        × ((other : ℕ)
        → HasStepsLeft (ports.before_arbiter other agent) (is_quiet system run agent (ports.lower agent system.stages).port)
        (row_steps system agent other) (rest other) end) }
{
    memory_awake::built::machines_keep_their_records();
    memory_awake::hosts::links_take_few_steps();
    memory_links::bursts::cut_is_a_link();
    memory_links::widths::split_is_a_link();
    memory_links::drops::drop_owes_its_words();
    droppers_take_few_steps();
    fitted_rows_take_few_steps();
    memory_awake::rows::machines_with_links_are_built()
}
