//! What the parts of a system of machines keep.

ghost use Rattle.std.specs.Prelude.{◌≡◌, ℕ, ◌*◌, ◌<◌, IsTrue};
ghost use Rattle.memory_runs.specs.Views.{Responses, System, Run};
ghost use Rattle.memory_runs.specs.Commands.{longest_burst};
ghost use Rattle.memory_runs.specs.Plan.{IsMemoryPlan};
ghost use Rattle.memory_runs.specs.Whole.{IsLegalRun};
ghost use Rattle.memory_machines.specs.Settled.{IsSettled};
ghost use Rattle.memory_awake.specs.Ahead.{LeadsAhead};
ghost use Rattle.memory_awake.specs.Approach.{IsAwake};
ghost use Rattle.memory_awake.specs.Fair.{AreParts};
ghost use Rattle.memory_awake.specs.Theorem.{Boundaries, States, LinkRanks, ArePlanned, KeepLines, KeepRows, AreMachines, IsBuilt, approach_of, inside_of, ways_of};

/// What systems of machines ask of the plan follows from the rules on connections and maps, where the register of each route
/// counts far enough.
pub fn memory_plans_are_planned()
    ensures { (system : System) (inside : Boundaries) (states : States) → IsMemoryPlan system
        → ((h : ℕ) → h < system.hosts → (inside.after_host h).shape.word_bytes ≡ (system.host h).word_bytes)
        → ((h : ℕ) → h < system.hosts → 16 * longest_burst (inside.after_host h).shape.burst_bits < states.room h)
        → ArePlanned system inside states }
{
    memory_parts::plans::plans_suit_machines()
}

/// The machines next to the hosts, the routes, the arbiters and the machines next to the agents keep their lines.
pub fn machines_keep_their_lines()
    ensures { (responses : Responses) (system : System) (run : Run) (inside : Boundaries) (states : States) (end : ℕ)
        → ArePlanned system inside states → AreMachines responses system run inside states end
        → KeepLines responses system run inside states end }
{
    memory_parts::lines::host_machine_keeps_its_line();
    memory_parts::lines::route_machine_keeps_its_line();
    memory_parts::lines::arbiter_machine_keeps_its_line();
    memory_parts::lines::agent_machine_keeps_its_line()
}

/// So where the links and the pipes keep theirs and the components are legal, each boundary carries legal commands and owed
/// answers.
pub fn machines_settle()
    ensures { (responses : Responses) (system : System) (run : Run) (inside : Boundaries) (states : States) (end : ℕ)
        → ArePlanned system inside states → KeepRows system run inside states end
        → AreMachines responses system run inside states end → IsLegalRun system run end
        → IsSettled system run (inside_of system inside) states.room end }
{
    machines_keep_their_lines();
    memory_machines::settled::lines_settle()
}

/// In a system of machines the parts next to the hosts, the routes and the arbiters keep the equations of their records, each
/// stage holds back two beats at most, and the part next to an agent none. What leads to each agent is as the theorem on wanted
/// agents asks, and what leads to one with readdatavalid as reads that travel ahead ask.
pub fn machines_keep_their_records()
    ensures parts { (responses : Responses) (system : System) (run : Run) (inside : Boundaries) (states : States)
        (ranks : LinkRanks) (end : ℕ)
        → IsBuilt responses system run inside states ranks end → IsLegalRun system run end → AreParts system run inside end }
    ensures awake { (responses : Responses) (system : System) (run : Run) (inside : Boundaries) (states : States)
        (ranks : LinkRanks) (end : ℕ)
        → IsBuilt responses system run inside states ranks end → IsLegalRun system run end
        → IsAwake system run (approach_of system run inside states ranks) end }
    ensures ahead { (responses : Responses) (system : System) (run : Run) (inside : Boundaries) (states : States)
        (ranks : LinkRanks) (end : ℕ)
        → IsBuilt responses system run inside states ranks end → IsLegalRun system run end
        → (a : ℕ) → a < system.agents → IsTrue (system.agent a).has_readdatavalid
        → LeadsAhead system run a (ways_of system inside a) end }
{
    machines_settle();
    memory_machines::machines::stage_is_a_link();
    memory_machines::machines::stage_is_later();
    memory_parts::steps::host_machine_is_a_part();
    memory_parts::steps::route_machine_is_a_part();
    memory_parts::steps::arbiter_machine_is_a_part();
    memory_parts::steps::agent_machine_is_a_part();
    memory_parts::steps::agent_machine_accepts_ahead();
    memory_links::pipes::stage_keeps_going();
    memory_links::soon::stage_shows_soon();
    crate::stages_pass_on();
    crate::host_and_route_are_a_front();
    crate::words_reach_the_host();
    crate::host_and_route_keep_nothing_back();
    crate::host_and_route_serve_default()
}
