//! No host hangs, at any agent and behind any links and stages: a wanted command moves on itself, and plain ones go straight.
#![tactic(auto)]

pub mod hosts;
pub mod neighbours;
pub mod prompt;
pub mod straight;

ghost use Rattle.std.specs.Prelude.{ℕ, ◌+◌, ◌<◌, IsTrue};
ghost use Rattle.memory_runs.specs.Views.{System, Run, Responses};
ghost use Rattle.memory_runs.specs.Whole.{IsLegalRun};
ghost use Rattle.memory_runs.specs.Order.{is_joined};
ghost use Rattle.memory_runs.specs.Plan.{IsMemoryPlan, AreViews};
ghost use Rattle.memory_parts.specs.SystemRun.{PlainPlan, HaveOneShape, Outside, plain_system, registers_of, ports_run};
ghost use Rattle.memory_machines.specs.Link.{Port};
ghost use Rattle.memory_awake.specs.PlainSystem.{AreQuietPast};
ghost use Rattle.memory_awake.specs.Rows.{CutsBursts};
ghost use Rattle.memory_awake.specs.Wires.{IsWire};
ghost use Rattle.memory_awake.specs.Theorem.{Boundaries, States, LinkRanks, ArePlanned, AreMachines, IsBuilt};
ghost use Rattle.memory_awake.specs.RowSystem.{RowPorts, AreRows, boundaries_of};
ghost use Rattle.memory_runs.specs.Onward.{MovesWithin, NoHostHangs};
ghost use Rattle.memory_awake.specs.Onward.{round_by, is_good};
ghost use Rattle.memory_awake.specs.Steps.{HasStepsLeft};
ghost use Rattle.memory_machines.specs.Lines.{target_of};
ghost use Rattle.memory_waits.specs.Watched.{LeadsBy, may_wait, waits_for_words};
ghost use Rattle.memory_waits.specs.Waits.{WordsComeSoon, LeadsDown, waits_by, waiting_window, cut_window, is_quiet};

/// Where an agent, with readdatavalid or at any fixed latency, owes nothing by the end of a cycle, all words that were asked
/// above the part next to it have come by the end of the next one.
pub fn words_come_soon()
    ensures { (responses : Responses) (system : System) (run : Run) (inside : Boundaries) (states : States) (ranks : LinkRanks)
        (end agent : ℕ)
        → IsBuilt responses system run inside states ranks end → IsLegalRun system run end → agent < system.agents
        → WordsComeSoon system run agent (inside.lower agent 0).port end }
{
    memory_awake::built::machines_keep_their_records();
    memory_awake::hosts::words_go_up()
}

/// In a system of machines, a host whose beats are shown before an agent's arbiter at once doesn't hang, for any agent and any
/// number of stages, whatever links its neighbours have, as long as the commands of each of these come to few steps there in good
/// cycles. Nor does one whose beats may wait for its words there, beside neighbours of which this holds in those good cycles in
/// which no word is owed behind the arbiter.
pub fn hosts_beside_links_move()
    ensures good { (responses : Responses) (system : System) (run : Run) (inside : Boundaries) (states : States)
        (ranks : LinkRanks) (end agent host most : ℕ) (held : ℕ → ℕ) (steps : ℕ → ℕ) (rest : ℕ → ℕ → ℕ)
        → IsBuilt responses system run inside states ranks (end + 2) → IsLegalRun system run (end + 2) → agent < system.agents
        → LeadsDown (target_of system agent) (inside.upper host agent (inside.links host agent))
        (inside.upper host agent 0) held most (end + 2)
        → ((other : ℕ)
        → HasStepsLeft (inside.upper other agent 0) (is_good system run agent) (steps other) (rest other) (end + 2))
        → IsTrue (is_joined system agent host) → host < system.hosts
        → MovesWithin (waits_by most (round_by steps system agent host) system agent) system run agent host end }
    ensures words { (responses : Responses) (system : System) (run : Run) (inside : Boundaries) (states : States)
        (ranks : LinkRanks) (end agent host most : ℕ) (left : ℕ → ℕ) (still : ℕ → ℕ → ℕ) (steps : ℕ → ℕ) (rest : ℕ → ℕ → ℕ)
        → IsBuilt responses system run inside states ranks (end + 2) → IsLegalRun system run (end + 2) → agent < system.agents
        → LeadsBy (target_of system agent) (inside.upper host agent (inside.links host agent)) (inside.upper host agent 0)
        (may_wait system run agent (inside.upper host agent 0)) left still most (end + 1)
        → ((other : ℕ)
        → HasStepsLeft (inside.upper other agent 0) (is_quiet system run agent (inside.lower agent system.stages).port)
        (steps other) (rest other) (end + 1))
        → IsTrue (is_joined system agent host) → host < system.hosts
        → MovesWithin (waits_for_words most (round_by steps system agent host) system agent) system run agent host end }
{
    words_come_soon();
    memory_awake::machines_are_awake();
    memory_awake::built::machines_keep_their_records();
    memory_awake::built::machines_settle();
    memory_awake::hosts::waits_are_short();
    memory_machines::machines::stage_is_later();
    memory_parts::steps::agent_machine_is_a_part()
}

/// So where all hosts of an agent are wired to its arbiter none of them hangs, and beside hosts whose bursts alone are cut no
/// wired host does: for any agent and any number of stages, nothing else is asked.
pub fn wired_hosts_move()
    ensures wired { (responses : Responses) (system : System) (run : Run) (inside : Boundaries) (states : States)
        (ranks : LinkRanks) (end agent host : ℕ)
        → IsBuilt responses system run inside states ranks (end + 2) → IsLegalRun system run (end + 2) → agent < system.agents
        → ((other : ℕ) → IsTrue (is_joined system agent other)
        → IsWire (inside.upper other agent (inside.links other agent)) (inside.upper other agent 0))
        → IsTrue (is_joined system agent host) → host < system.hosts
        → MovesWithin (waiting_window system agent host) system run agent host end }
    ensures cut { (responses : Responses) (system : System) (run : Run) (inside : Boundaries) (states : States)
        (ranks : LinkRanks) (end agent host : ℕ) (middle : ℕ → Port)
        → IsBuilt responses system run inside states ranks (end + 2) → IsLegalRun system run (end + 2) → agent < system.agents
        → ((other : ℕ) → IsTrue (is_joined system agent other)
        → CutsBursts (inside.upper other agent (inside.links other agent)) (middle other))
        → ((other : ℕ) → IsTrue (is_joined system agent other) → IsWire (middle other) (inside.upper other agent 0))
        → IsWire (inside.upper host agent (inside.links host agent)) (inside.upper host agent 0)
        → IsTrue (is_joined system agent host) → host < system.hosts
        → MovesWithin (waiting_window system agent host) system run agent host end }
{
    hosts_beside_links_move();
    memory_awake::hosts::neighbours_take_few_steps()
}

/// And where bursts of hosts are cut before the arbiter, or not, and nothing else is done to them, none of these hosts hangs: an
/// agent of the hosts' words, whatever bursts it takes, whatever its latency and however many stages stand before it.
pub fn cut_hosts_move()
    ensures { (responses : Responses) (system : System) (run : Run) (inside : Boundaries) (states : States) (ranks : LinkRanks)
        (end agent host : ℕ) (middle : ℕ → Port)
        → IsBuilt responses system run inside states ranks (end + 2) → IsLegalRun system run (end + 2) → agent < system.agents
        → ((other : ℕ) → IsTrue (is_joined system agent other)
        → CutsBursts (inside.upper other agent (inside.links other agent)) (middle other))
        → ((other : ℕ) → IsTrue (is_joined system agent other) → IsWire (middle other) (inside.upper other agent 0))
        → IsTrue (is_joined system agent host) → host < system.hosts
        → MovesWithin (cut_window system agent host) system run agent host end }
{
    hosts_beside_links_move();
    memory_awake::hosts::routes_take_few_steps();
    memory_awake::hosts::neighbours_take_few_steps()
}

/// So in a system of machines whose links are machines too no host hangs, where below the cutters of its joined hosts, or without
/// any, there are wires.
pub fn no_cut_host_hangs()
    ensures { (responses : Responses) (system : System) (run : Run) (ports : RowPorts) (states : States) (end : ℕ)
        → ArePlanned system (boundaries_of ports) states → AreMachines responses system run (boundaries_of ports) states (end + 2)
        → AreRows system run ports (end + 2) → IsLegalRun system run (end + 2)
        → ((agent host : ℕ) → agent < system.agents → IsTrue (is_joined system agent host)
        → IsWire (ports.below_cutter host agent) (ports.before_arbiter host agent))
        → NoHostHangs (cut_window system) system run end }
{
    cut_hosts_move();
    memory_awake::rows::machines_with_links_are_built()
}

/// So in a plain system, run on whatever its legal hosts and agents give, no host hangs, at agents of any kind.
pub fn no_host_of_a_plain_system_hangs()
    ensures { (responses : Responses) (plan : PlainPlan) (outside : Outside) (end : ℕ)
        → let run = ports_run responses plan outside (registers_of responses plan outside) in
        IsMemoryPlan (plain_system plan) → HaveOneShape plan → AreViews (plain_system plan) run (end + 2) → AreQuietPast plan outside → IsLegalRun (plain_system plan) run (end + 2)
        → NoHostHangs (waiting_window (plain_system plan)) (plain_system plan) run end }
{
    wired_hosts_move();
    memory_awake::plain::plain_systems_are_built()
}
