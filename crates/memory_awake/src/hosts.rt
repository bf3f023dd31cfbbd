//! No host hangs: a command that is wanted moves on itself.

ghost use Rattle.std.specs.Prelude.{◌≡◌, ℕ, suc, List, IsFalse, ◌≤◌, ◌+◌, ◌*◌, ◌<◌, Bool, IsTrue};
ghost use Rattle.histories.specs.Turns.{AllShare};
ghost use Rattle.memory_runs.specs.Views.{System, Run, Responses};
ghost use Rattle.memory_runs.specs.Whole.{IsLegalRun};
ghost use Rattle.memory_runs.specs.Order.{is_joined};
ghost use Rattle.memory_machines.specs.Link.{Port, takes, AreLegalAt};
ghost use Rattle.memory_runs.specs.Commands.{shows};
ghost use Rattle.memory_runs.specs.Operations.{pieces};
ghost use Rattle.memory_links.specs.Cutters.{CutterState, Reach, RunsAsCutter};
ghost use Rattle.memory_awake.specs.Rows.{CutsBursts};
ghost use Rattle.memory_links.specs.Selects.{RunsAsSelect, is_shut};
ghost use Rattle.memory_links.specs.Splits.{SplitState, RunsAsSplit, opens};
ghost use Rattle.memory_machines.specs.Lines.{TaggedPort};
ghost use Rattle.memory_machines.specs.Turns.{seats_of};
ghost use Rattle.memory_parts.specs.Steps.{IsArbiterPart};
ghost use Rattle.memory_awake.specs.Ways.{count_in};
ghost use Rattle.memory_runs.specs.Plan.{IsMemoryPlan, AreViews};
ghost use Rattle.memory_parts.specs.SystemRun.{PlainPlan, HaveOneShape, Outside, plain_system, registers_of, ports_run};
ghost use Rattle.memory_awake.specs.PlainSystem.{AreQuietPast};
ghost use Rattle.memory_awake.specs.Wires.{IsWire};
ghost use Rattle.memory_awake.specs.Theorem.{Boundaries, States, LinkRanks, IsBuilt};
ghost use Rattle.memory_runs.specs.Awake.{MovesAtDefaultWithin, Throughout};
ghost use Rattle.memory_runs.specs.Onward.{MovesWithin, NoHostHangs, longest_of, AcceptsWithin, IsPrompt};
ghost use Rattle.memory_awake.specs.Onward.{SendsWordsUp, StandsFor, IsStanding, prompt_window, wired_window, standing_window, beats_before, moves_by, round_by, standing_by, accepted_by, prompt_by, is_good};
ghost use Rattle.memory_awake.specs.Steps.{HasStepsLeft, HasSingleReads, WaitsItsTurn, HasPace, beats_of_others};

/// A host that asks at an arbiter, and isn't taken, is passed by no more beats of the others than one round of them has; and
/// where what lies below has a rank that falls, it waits no more good cycles than each of these beats and its own may take.
pub fn waits_are_short()
    ensures { (system : System) (agent : ℕ) (up : ℕ → Port) (down : TaggedPort) (end : ℕ) (longest : ℕ → ℕ) (rest : ℕ → ℕ → ℕ)
        (host from size : ℕ) (good : ℕ → Bool) (rank : ℕ → ℕ) (pace : ℕ)
        → IsArbiterPart system agent up down end → AllShare (seats_of system agent)
        → ((other : ℕ) → HasStepsLeft (up other) good (longest other) (rest other) end)
        → IsTrue (is_joined system agent host) → host < system.hosts → from + size ≤ end → WaitsItsTurn up host from size
        → HasPace down.port good rank pace from size
        → (count_in (takes down.port) from size ≤ beats_of_others longest host (seats_of system agent))
        × (count_in good from size ≤ beats_of_others longest host (seats_of system agent) * (pace + 1) + rank from) }
{
    histories::ranks::turns_keep_seats()
}

/// In a system of machines, a host that is wired to an agent's arbiter isn't held up, whatever links its neighbours have, as long
/// as the commands of each of these come to few steps there. Without stages its oldest command moves on within one round of the
/// others and its own beat, each with the agent's wait states, and a cycle.
/// With any number of stages, a beat stands for few cycles in which the agent neither stalls nor owes an answer, and while few
/// beats are accepted, whatever stalls and answers lie between; so beside a prompt agent for no more cycles than is stated.
pub fn hosts_beside_links_move_on()
    ensures moves { (responses : Responses) (system : System) (run : Run) (inside : Boundaries) (states : States)
        (ranks : LinkRanks) (end agent host : ℕ) (steps : ℕ → ℕ) (rest : ℕ → ℕ → ℕ)
        → IsBuilt responses system run inside states ranks (end + 2) → IsLegalRun system run (end + 2) → agent < system.agents
        → system.stages ≡ 0
        → IsWire (inside.upper host agent (inside.links host agent)) (inside.upper host agent 0)
        → ((other : ℕ)
        → HasStepsLeft (inside.upper other agent 0) (is_good system run agent) (steps other) (rest other) (end + 2))
        → SendsWordsUp system run agent (inside.lower agent 0).port (end + 2)
        → IsTrue (is_joined system agent host) → host < system.hosts
        → MovesWithin (moves_by (round_by steps system agent host) system agent) system run agent host end }
    ensures standing { (responses : Responses) (system : System) (run : Run) (inside : Boundaries) (states : States)
        (ranks : LinkRanks) (end agent host : ℕ) (steps : ℕ → ℕ) (rest : ℕ → ℕ → ℕ)
        → IsBuilt responses system run inside states ranks (end + 2) → IsLegalRun system run (end + 2) → agent < system.agents
        → IsWire (inside.upper host agent (inside.links host agent)) (inside.upper host agent 0)
        → ((other : ℕ)
        → HasStepsLeft (inside.upper other agent 0) (is_good system run agent) (steps other) (rest other) (end + 2))
        → IsTrue (is_joined system agent host) → host < system.hosts
        → StandsFor (standing_by (round_by steps system agent host) system agent)
        (accepted_by (round_by steps system agent host) system) system run agent host end }
    ensures prompt { (responses : Responses) (system : System) (run : Run) (inside : Boundaries) (states : States)
        (ranks : LinkRanks) (end agent host from size number late : ℕ) (steps : ℕ → ℕ) (rest : ℕ → ℕ → ℕ)
        → IsBuilt responses system run inside states ranks (end + 2) → IsLegalRun system run (end + 2) → agent < system.agents
        → IsWire (inside.upper host agent (inside.links host agent)) (inside.upper host agent 0)
        → ((other : ℕ)
        → HasStepsLeft (inside.upper other agent 0) (is_good system run agent) (steps other) (rest other) (end + 2))
        → IsTrue (is_joined system agent host) → host < system.hosts → 1 ≤ late → IsPrompt system run agent late (end + 2)
        → from + size ≤ end → Throughout from size (IsStanding system run agent host number)
        → size < prompt_by (round_by steps system agent host) system agent late }
    ensures accepts { (responses : Responses) (system : System) (run : Run) (inside : Boundaries) (states : States)
        (ranks : LinkRanks) (end agent host late : ℕ) (steps : ℕ → ℕ) (rest : ℕ → ℕ → ℕ)
        → IsBuilt responses system run inside states ranks (end + 2) → IsLegalRun system run (end + 2) → agent < system.agents
        → IsWire (inside.upper host agent (inside.links host agent)) (inside.upper host agent 0)
        → ((other : ℕ)
        → HasStepsLeft (inside.upper other agent 0) (is_good system run agent) (steps other) (rest other) (end + 2))
        → IsTrue (is_joined system agent host) → host < system.hosts → 1 ≤ late → IsPrompt system run agent late (end + 2)
        → AcceptsWithin (prompt_by (round_by steps system agent host) system agent late) system run agent host end }
{
    histories::ranks::turns_keep_seats();
    crate::machines_are_awake();
    crate::built::machines_keep_their_records();
    crate::built::machines_settle();
    memory_parts::steps::agent_machine_is_a_part()
}

/// Behind a route a command comes to no more steps than its host's longest burst has beats, and reads are single.
pub fn routes_take_few_steps()
    ensures { (responses : Responses) (system : System) (run : Run) (inside : Boundaries) (states : States) (ranks : LinkRanks)
        (end agent host : ℕ)
        → IsBuilt responses system run inside states ranks end → IsLegalRun system run end → agent < system.agents
        → host < system.hosts
        → (rest : ℕ → ℕ)
        × HasStepsLeft (inside.upper host agent (inside.links host agent)) (is_good system run agent)
        (longest_of system host) rest end
        × HasSingleReads (inside.upper host agent (inside.links host agent)) rest end }
{
    histories::ranks::turns_keep_seats();
    crate::machines_are_awake();
    crate::built::machines_keep_their_records();
    memory_parts::joins::routes_show_fit_beats()
}

/// From link to link: a wire, a cutter of bursts and a lane selector keep the number of steps, and a splitter multiplies it by
/// the pieces of a beat, where selector and splitter hold no read back in a good cycle.
pub fn links_take_few_steps()
    ensures wire { (up down : Port) (good : ℕ → Bool) (longest : ℕ) (rest : ℕ → ℕ) (end : ℕ) → IsWire up down
        → HasStepsLeft up good longest rest end → HasStepsLeft down good longest rest end }
    ensures cutter { (reach : Reach) (longest : ℕ) (up down : Port) (state : CutterState) (good : ℕ → Bool) (most : ℕ)
        (rest : ℕ → ℕ) (end : ℕ)
        → RunsAsCutter reach longest up down state → ((address : ℕ) → 0 < reach address) → AreLegalAt down end
        → HasSingleReads up rest end → HasStepsLeft up good most rest end
        → (below : ℕ → ℕ) × HasStepsLeft down good most below end }
    ensures selector { (room : ℕ) (up down : Port) (offsets : ℕ → List ℕ) (good : ℕ → Bool) (longest : ℕ) (rest : ℕ → ℕ) (end : ℕ)
        → RunsAsSelect room up down offsets
        → ((c : ℕ) → c < end → IsTrue (good c) → IsFalse (is_shut room up offsets c)) → HasStepsLeft up good longest rest end
        → HasStepsLeft down good longest rest end }
    ensures splitter { (room many : ℕ) (up down : Port) (state : SplitState) (good : ℕ → Bool) (longest : ℕ) (rest : ℕ → ℕ)
        (end : ℕ)
        → RunsAsSplit room up down state → AreLegalAt up (suc end)
        → pieces up.shape down.shape ≤ many → 1 ≤ many
        → ((c : ℕ) → c < end → IsTrue (good c) → IsTrue (shows up.commands.signals c) → IsTrue (opens room up down state c))
        → HasStepsLeft up good longest rest end → (below : ℕ → ℕ) × HasStepsLeft down good (longest * many) below end }
{}

/// So where the hosts of an agent are wired to its arbiter, or their bursts alone are cut before it, their commands come to no
/// more steps there than their longest bursts have beats.
pub fn neighbours_take_few_steps()
    ensures wired { (responses : Responses) (system : System) (run : Run) (inside : Boundaries) (states : States)
        (ranks : LinkRanks) (end agent : ℕ)
        → IsBuilt responses system run inside states ranks end → IsLegalRun system run end → agent < system.agents
        → ((other : ℕ) → IsTrue (is_joined system agent other)
        → IsWire (inside.upper other agent (inside.links other agent)) (inside.upper other agent 0))
        → (rest : ℕ → ℕ → ℕ)
        × ((other : ℕ)
        → HasStepsLeft (inside.upper other agent 0) (is_good system run agent) (longest_of system other) (rest other) end) }
    ensures cut { (responses : Responses) (system : System) (run : Run) (inside : Boundaries) (states : States)
        (ranks : LinkRanks) (end agent : ℕ) (middle : ℕ → Port)
        → IsBuilt responses system run inside states ranks end → IsLegalRun system run end → agent < system.agents
        → ((other : ℕ) → IsTrue (is_joined system agent other)
        → CutsBursts (inside.upper other agent (inside.links other agent)) (middle other))
        → ((other : ℕ) → IsTrue (is_joined system agent other) → IsWire (middle other) (inside.upper other agent 0))
        → (rest : ℕ → ℕ → ℕ)
        × ((other : ℕ)
        → HasStepsLeft (inside.upper other agent 0) (is_good system run agent) (longest_of system other) (rest other) end) }
{
    histories::ranks::turns_keep_seats();
    crate::machines_are_awake();
    crate::built::machines_keep_their_records();
    routes_take_few_steps()
}

/// Whoever is wired to an arbiter waits no longer beside hosts whose bursts are cut than beside wired ones.
pub fn hosts_beside_cutters_move_on()
    ensures standing { (responses : Responses) (system : System) (run : Run) (inside : Boundaries) (states : States)
        (ranks : LinkRanks) (end agent host : ℕ) (middle : ℕ → Port)
        → IsBuilt responses system run inside states ranks (end + 2) → IsLegalRun system run (end + 2) → agent < system.agents
        → ((other : ℕ) → IsTrue (is_joined system agent other)
        → CutsBursts (inside.upper other agent (inside.links other agent)) (middle other))
        → ((other : ℕ) → IsTrue (is_joined system agent other) → IsWire (middle other) (inside.upper other agent 0))
        → IsWire (inside.upper host agent (inside.links host agent)) (inside.upper host agent 0)
        → IsTrue (is_joined system agent host) → host < system.hosts
        → StandsFor (standing_window system agent host) (beats_before system agent host) system run agent host end }
    ensures prompt { (responses : Responses) (system : System) (run : Run) (inside : Boundaries) (states : States)
        (ranks : LinkRanks) (end agent host from size number late : ℕ) (middle : ℕ → Port)
        → IsBuilt responses system run inside states ranks (end + 2) → IsLegalRun system run (end + 2) → agent < system.agents
        → ((other : ℕ) → IsTrue (is_joined system agent other)
        → CutsBursts (inside.upper other agent (inside.links other agent)) (middle other))
        → ((other : ℕ) → IsTrue (is_joined system agent other) → IsWire (middle other) (inside.upper other agent 0))
        → IsWire (inside.upper host agent (inside.links host agent)) (inside.upper host agent 0)
        → IsTrue (is_joined system agent host) → host < system.hosts → 1 ≤ late → IsPrompt system run agent late (end + 2)
        → from + size ≤ end → Throughout from size (IsStanding system run agent host number)
        → size < prompt_window system agent host late }
    ensures accepts { (responses : Responses) (system : System) (run : Run) (inside : Boundaries) (states : States)
        (ranks : LinkRanks) (end agent host late : ℕ) (middle : ℕ → Port)
        → IsBuilt responses system run inside states ranks (end + 2) → IsLegalRun system run (end + 2) → agent < system.agents
        → ((other : ℕ) → IsTrue (is_joined system agent other)
        → CutsBursts (inside.upper other agent (inside.links other agent)) (middle other))
        → ((other : ℕ) → IsTrue (is_joined system agent other) → IsWire (middle other) (inside.upper other agent 0))
        → IsWire (inside.upper host agent (inside.links host agent)) (inside.upper host agent 0)
        → IsTrue (is_joined system agent host) → host < system.hosts → 1 ≤ late → IsPrompt system run agent late (end + 2)
        → AcceptsWithin (prompt_window system agent host late) system run agent host end }
{
    hosts_beside_links_move_on();
    neighbours_take_few_steps()
}

/// So where all hosts of an agent are wired to its arbiter, none is held up for longer than one round of the others' longest
/// bursts takes.
pub fn wired_hosts_move_on()
    ensures moves { (responses : Responses) (system : System) (run : Run) (inside : Boundaries) (states : States)
        (ranks : LinkRanks) (end agent host : ℕ)
        → IsBuilt responses system run inside states ranks (end + 2) → IsLegalRun system run (end + 2) → agent < system.agents
        → system.stages ≡ 0
        → ((other : ℕ) → IsTrue (is_joined system agent other)
        → IsWire (inside.upper other agent (inside.links other agent)) (inside.upper other agent 0))
        → SendsWordsUp system run agent (inside.lower agent 0).port (end + 2)
        → IsTrue (is_joined system agent host) → host < system.hosts
        → MovesWithin (wired_window system agent host) system run agent host end }
    ensures standing { (responses : Responses) (system : System) (run : Run) (inside : Boundaries) (states : States)
        (ranks : LinkRanks) (end agent host : ℕ)
        → IsBuilt responses system run inside states ranks (end + 2) → IsLegalRun system run (end + 2) → agent < system.agents
        → ((other : ℕ) → IsTrue (is_joined system agent other)
        → IsWire (inside.upper other agent (inside.links other agent)) (inside.upper other agent 0))
        → IsTrue (is_joined system agent host) → host < system.hosts
        → StandsFor (standing_window system agent host) (beats_before system agent host) system run agent host end }
    ensures prompt { (responses : Responses) (system : System) (run : Run) (inside : Boundaries) (states : States)
        (ranks : LinkRanks) (end agent host from size number late : ℕ)
        → IsBuilt responses system run inside states ranks (end + 2) → IsLegalRun system run (end + 2) → agent < system.agents
        → ((other : ℕ) → IsTrue (is_joined system agent other)
        → IsWire (inside.upper other agent (inside.links other agent)) (inside.upper other agent 0))
        → IsTrue (is_joined system agent host) → host < system.hosts → 1 ≤ late → IsPrompt system run agent late (end + 2)
        → from + size ≤ end → Throughout from size (IsStanding system run agent host number)
        → size < prompt_window system agent host late }
    ensures accepts { (responses : Responses) (system : System) (run : Run) (inside : Boundaries) (states : States)
        (ranks : LinkRanks) (end agent host late : ℕ)
        → IsBuilt responses system run inside states ranks (end + 2) → IsLegalRun system run (end + 2) → agent < system.agents
        → ((other : ℕ) → IsTrue (is_joined system agent other)
        → IsWire (inside.upper other agent (inside.links other agent)) (inside.upper other agent 0))
        → IsTrue (is_joined system agent host) → host < system.hosts → 1 ≤ late → IsPrompt system run agent late (end + 2)
        → AcceptsWithin (prompt_window system agent host late) system run agent host end }
{
    hosts_beside_links_move_on();
    neighbours_take_few_steps()
}

/// At the default agent no host hangs, in any system of machines: its oldest command moves on in each window of two cycles or
/// more in which no beat of it lacks.
pub fn hosts_move_on_at_the_default_agent()
    ensures { (responses : Responses) (system : System) (run : Run) (inside : Boundaries) (states : States) (ranks : LinkRanks)
        (end host size : ℕ)
        → IsBuilt responses system run inside states ranks end → IsLegalRun system run end → host < system.hosts → 2 ≤ size
        → MovesAtDefaultWithin size system run host end }
{
    crate::machines_are_awake();
    crate::wanted_default_moves_on();
    crate::built::machines_keep_their_records()
}

/// Where an agent with readdatavalid owes nothing, no word is owed above the part next to it.
pub fn words_go_up()
    ensures { (responses : Responses) (system : System) (run : Run) (inside : Boundaries) (states : States) (ranks : LinkRanks)
        (end agent : ℕ)
        → IsBuilt responses system run inside states ranks end → IsLegalRun system run end → agent < system.agents
        → IsTrue (system.agent agent).has_readdatavalid
        → SendsWordsUp system run agent (inside.lower agent 0).port end }
{
    crate::built::machines_keep_their_records()
}

/// In a plain system, run on whatever its legal hosts and agents give, no host hangs at agents with readdatavalid: its oldest
/// command moves on within its window. A beat stands for few good cycles and few beats of others, and beside a prompt agent for
/// no more cycles than is stated.
pub fn no_plain_host_hangs()
    ensures moves { (responses : Responses) (plan : PlainPlan) (outside : Outside) (end : ℕ)
        → let run = ports_run responses plan outside (registers_of responses plan outside) in
        IsMemoryPlan (plain_system plan) → HaveOneShape plan → AreViews (plain_system plan) run (end + 2) → AreQuietPast plan outside → IsLegalRun (plain_system plan) run (end + 2)
        → IsTrue plan.agent.has_readdatavalid → NoHostHangs (wired_window (plain_system plan)) (plain_system plan) run end }
    ensures standing { (responses : Responses) (plan : PlainPlan) (outside : Outside) (end agent host : ℕ)
        → let run = ports_run responses plan outside (registers_of responses plan outside) in
        IsMemoryPlan (plain_system plan) → HaveOneShape plan → AreViews (plain_system plan) run (end + 2) → AreQuietPast plan outside → IsLegalRun (plain_system plan) run (end + 2)
        → agent < plan.agents → host < plan.hosts → IsTrue (is_joined (plain_system plan) agent host)
        → StandsFor (standing_window (plain_system plan) agent host) (beats_before (plain_system plan) agent host)
        (plain_system plan) run agent host end }
    ensures prompt { (responses : Responses) (plan : PlainPlan) (outside : Outside) (end agent host from size number late : ℕ)
        → let run = ports_run responses plan outside (registers_of responses plan outside) in
        IsMemoryPlan (plain_system plan) → HaveOneShape plan → AreViews (plain_system plan) run (end + 2) → AreQuietPast plan outside → IsLegalRun (plain_system plan) run (end + 2)
        → agent < plan.agents → host < plan.hosts → IsTrue (is_joined (plain_system plan) agent host) → 1 ≤ late
        → IsPrompt (plain_system plan) run agent late (end + 2)
        → from + size ≤ end → Throughout from size (IsStanding (plain_system plan) run agent host number)
        → size < prompt_window (plain_system plan) agent host late }
    ensures accepts { (responses : Responses) (plan : PlainPlan) (outside : Outside) (end agent host late : ℕ)
        → let run = ports_run responses plan outside (registers_of responses plan outside) in
        IsMemoryPlan (plain_system plan) → HaveOneShape plan → AreViews (plain_system plan) run (end + 2) → AreQuietPast plan outside → IsLegalRun (plain_system plan) run (end + 2)
        → agent < plan.agents → host < plan.hosts → IsTrue (is_joined (plain_system plan) agent host) → 1 ≤ late
        → IsPrompt (plain_system plan) run agent late (end + 2)
        → AcceptsWithin (prompt_window (plain_system plan) agent host late) (plain_system plan) run agent host end }
{
    wired_hosts_move_on();
    words_go_up();
    crate::plain::plain_systems_are_built()
}
