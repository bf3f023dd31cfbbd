//! Fairness of whole systems: the turns that hosts take at an agent.

ghost use Rattle.std.specs.Prelude.{◌≡◌, ℕ, Bool, suc, List, length, ◌≤◌, ◌<◌, ◌+◌, ◌*◌, IsTrue, IsFalse};
ghost use Rattle.std.specs.List.{list_all};
ghost use Rattle.histories.specs.History.{IsPrefix};
ghost use Rattle.histories.specs.Turns.{AllShare};
ghost use Rattle.memory_runs.specs.Views.{System, Run, Responses};
ghost use Rattle.memory_runs.specs.Whole.{IsLegalRun};
ghost use Rattle.memory_runs.specs.Commands.{agent_accepts, shows};
ghost use Rattle.memory_runs.specs.Legal.{IsLegalHost};
ghost use Rattle.memory_runs.specs.Order.{Owner, ServesInGrantedOrder, is_joined, issued};
ghost use Rattle.memory_runs.specs.Awake.{are_finished_before, asks_only, begun, commands_begun, HasFullTurns, IsFair, IsPassedByFew, TakesTurns, turns_of, shows_plain_write, shares_of_others, Throughout};
ghost use Rattle.memory_machines.specs.Link.{Port, Target, takes, taken_at, operations_among};
ghost use Rattle.memory_machines.specs.Lines.{TaggedPort, target_of};
ghost use Rattle.memory_machines.specs.Straight.{IsShownPromptly};
ghost use Rattle.memory_machines.specs.Turns.{seats_of, others_begun, IsKeptAsking};
ghost use Rattle.memory_parts.specs.Steps.{IsArbiterPart, IsHostPart, IsRoutePart, has_room};
ghost use Rattle.memory_awake.specs.Ways.{count_in};
ghost use Rattle.memory_awake.specs.Wires.{IsWire};
ghost use Rattle.memory_awake.specs.Theorem.{Boundaries, States, LinkRanks, IsBuilt};
ghost use Rattle.memory_awake.specs.Fair.{are_apart, AllAskPlainly, AreAmong, AsksWithin, BeginsByTurns, IsPlainAt, HandsWritesOn, HandsPlainWrites, may_burst_to, LeadsFairly, WaitsAlone, WaitsBefore};

/// In a system of machines whose links hand plain writes on, where each host that is joined to an agent shows a plain write for
/// it in every cycle of a window, and has finished its earlier commands as the window begins, the commands that are taken behind
/// its arbiter stand in full turns.
pub fn plain_writers_take_full_turns()
    ensures { (responses : Responses) (system : System) (run : Run) (inside : Boundaries) (states : States) (ranks : LinkRanks)
        (end agent from size : ℕ) (owners : List Owner)
        → IsBuilt responses system run inside states ranks end → IsLegalRun system run end → agent < system.agents
        → HandsPlainWrites system run inside agent end
        → from + size ≤ end
        → Throughout from size (λ c. IsTrue (list_all (shows_plain_write system run agent c) (system.joined agent)))
        → IsTrue
        (list_all (λ host. are_finished_before system run host (commands_begun system run host (suc from)) from)
        (system.joined agent))
        → AreAmong owners (inside.lower agent system.stages).port from size
        → HasFullTurns system agent (turns_of owners) }
{
    asking_hosts_take_full_turns();
    plain_writes_go_on();
    crate::built::machines_keep_their_records()
}

/// A system of machines is fair, where its links hand plain writes on in their cycle and show a waiting host's operation at its
/// arbiter within 30 cycles: few others pass a waiting command, and hosts that write without gaps take turns by their shares.
pub fn machines_are_fair()
    ensures { (responses : Responses) (system : System) (run : Run) (inside : Boundaries) (states : States) (ranks : LinkRanks)
        (end : ℕ)
        → IsBuilt responses system run inside states ranks end → IsLegalRun system run end
        → ((agent : ℕ) → agent < system.agents → HandsPlainWrites system run inside agent end)
        → ((agent : ℕ) → agent < system.agents → AsksWithin 30 system run (λ h. inside.upper h agent 0) agent end)
        → IsFair system run end }
{
    commands_take_turns();
    waiting_commands_are_passed_by_few()
}

/// A system of machines is fair where plain commands go straight through its links, in step, and first beats are shown promptly,
/// and no host is joined to an agent twice.
pub fn straight_machines_are_fair()
    ensures { (responses : Responses) (system : System) (run : Run) (inside : Boundaries) (states : States) (ranks : LinkRanks)
        (end : ℕ) (ahead : ℕ → ℕ → Bool)
        → IsBuilt responses system run inside states ranks end → IsLegalRun system run end
        → ((agent : ℕ) → agent < system.agents → IsTrue (are_apart (system.joined agent)))
        → ((agent host : ℕ) → agent < system.agents → IsTrue (is_joined system agent host)
        → LeadsFairly system inside (ahead agent host) agent host end)
        → IsFair system run end }
{
    machines_are_fair();
    prompt_links_ask_within();
    straight_links_hand_on()
}

/// In a system of machines links through which plain commands go straight, in step, hand on the writes of hosts that write
/// plainly.
pub fn straight_links_hand_on()
    ensures { (responses : Responses) (system : System) (run : Run) (inside : Boundaries) (states : States) (ranks : LinkRanks)
        (end agent : ℕ) (ahead : ℕ → Bool)
        → IsBuilt responses system run inside states ranks end → IsLegalRun system run end → agent < system.agents
        → IsTrue (are_apart (system.joined agent))
        → ((host : ℕ) → IsTrue (is_joined system agent host) → LeadsFairly system inside (ahead host) agent host end)
        → HandsPlainWrites system run inside agent end }
{
    commands_begin_by_turns();
    plain_writes_go_on();
    crate::built::machines_keep_their_records()
}

/// In a system of machines plain commands of a host that is wired to an arbiter go straight there, in step, and its first beats
/// are shown at once.
pub fn wires_lead_fairly()
    ensures { (responses : Responses) (system : System) (run : Run) (inside : Boundaries) (states : States) (ranks : LinkRanks)
        (end agent host : ℕ) (ahead : Bool)
        → IsBuilt responses system run inside states ranks end → IsLegalRun system run end → agent < system.agents
        → host < system.hosts
        → IsWire (inside.upper host agent (inside.links host agent)) (inside.upper host agent 0)
        → LeadsFairly system inside ahead agent host end }
{
    memory_links::rows::pass_is_a_link();
    memory_links::rows::pass_goes_in_step();
    crate::built::machines_keep_their_records()
}

/// A system of machines is fair where each host is wired to the arbiters of its agents, and is joined to none twice.
pub fn wired_machines_are_fair()
    ensures { (responses : Responses) (system : System) (run : Run) (inside : Boundaries) (states : States) (ranks : LinkRanks)
        (end : ℕ)
        → IsBuilt responses system run inside states ranks end → IsLegalRun system run end
        → ((agent : ℕ) → agent < system.agents → IsTrue (are_apart (system.joined agent)))
        → ((agent host : ℕ) → agent < system.agents → IsTrue (is_joined system agent host)
        → IsWire (inside.upper host agent (inside.links host agent)) (inside.upper host agent 0))
        → IsFair system run end }
{
    machines_are_fair();
    wired_hosts_ask_while_waiting()
}

/// In a system of machines a host that is wired to an agent's arbiter shows an operation there in each cycle in which it waits.
pub fn wired_hosts_ask_while_waiting()
    ensures wired { (responses : Responses) (system : System) (run : Run) (inside : Boundaries) (states : States)
        (ranks : LinkRanks) (end agent : ℕ)
        → IsBuilt responses system run inside states ranks end → IsLegalRun system run end → agent < system.agents
        → ((host : ℕ) → IsTrue (is_joined system agent host)
        → IsWire (inside.upper host agent (inside.links host agent)) (inside.upper host agent 0))
        → AsksWithin 0 system run (λ h. inside.upper h agent 0) agent end }
    ensures later { (late more : ℕ) (system : System) (run : Run) (up : ℕ → Port) (agent end : ℕ) → late ≤ more
        → AsksWithin late system run up agent end → AsksWithin more system run up agent end }
{
    waiting_hosts_ask();
    crate::built::machines_keep_their_records()
}

/// In a system of machines, where the links of each host that is joined to an agent show first beats promptly, an operation of a
/// host that waits stands before the arbiter within a few cycles.
pub fn prompt_links_ask_within()
    ensures { (responses : Responses) (system : System) (run : Run) (inside : Boundaries) (states : States) (ranks : LinkRanks)
        (end agent few : ℕ)
        → IsBuilt responses system run inside states ranks end → IsLegalRun system run end → agent < system.agents
        → ((host : ℕ) → IsTrue (is_joined system agent host)
        → IsShownPromptly few (may_burst_to system host agent) (target_of system agent)
        (inside.upper host agent (inside.links host agent)) (inside.upper host agent 0) end)
        → AsksWithin few system run (λ h. inside.upper h agent 0) agent end }
{
    commands_begin_by_turns();
    waiting_hosts_ask();
    crate::built::machines_keep_their_records()
}

/// In a system of machines, where a waiting host's operation stands before its arbiter within a few cycles, at most as many
/// commands of others begin at the agent before its own as they have shares, as there are such cycles, and as stand in the pipe.
pub fn waiting_commands_are_passed_by_few()
    ensures { (responses : Responses) (system : System) (run : Run) (inside : Boundaries) (states : States) (ranks : LinkRanks)
        (end agent late : ℕ)
        → IsBuilt responses system run inside states ranks end → IsLegalRun system run end → agent < system.agents
        → AsksWithin late system run (λ h. inside.upper h agent 0) agent end
        → IsPassedByFew (late + (2 * system.stages + 2)) system run agent end }
{
    askers_are_passed_by_few();
    commands_begin_by_turns();
    crate::built::machines_keep_their_records();
    histories::ranks::turns_keep_seats()
}

/// In a system of machines whose links hand plain writes on, hosts that write without gaps take turns at their agent by their
/// shares: a turn between others is of exactly its host's shares, and the next host in the order follows.
pub fn commands_take_turns()
    ensures { (responses : Responses) (system : System) (run : Run) (inside : Boundaries) (states : States) (ranks : LinkRanks)
        (end agent : ℕ)
        → IsBuilt responses system run inside states ranks end → IsLegalRun system run end → agent < system.agents
        → HandsPlainWrites system run inside agent end
        → TakesTurns system run agent end }
{
    plain_writers_take_full_turns();
    commands_begin_by_turns();
    plain_writes_go_on();
    crate::built::machines_keep_their_records()
}

/// In a system of machines a host that asks at an agent's arbiter throughout a window, and none of whose commands begins there,
/// is passed by at most as many commands of the others as they have shares together.
pub fn askers_are_passed_by_few()
    ensures { (responses : Responses) (system : System) (run : Run) (inside : Boundaries) (states : States) (ranks : LinkRanks)
        (end agent host from size : ℕ)
        → IsBuilt responses system run inside states ranks end → IsLegalRun system run end → agent < system.agents
        → from + size ≤ end
        → IsKeptAsking (seats_of system agent) (λ h. inside.upper h agent 0)
        (inside.lower agent system.stages).port host from size
        → others_begun (seats_of system agent) (λ h. inside.upper h agent 0)
        (inside.lower agent system.stages).port host from size
        ≤ shares_of_others system agent host }
{
    memory_machines::progress::turn_rule_is_fair();
    crate::built::machines_keep_their_records()
}

/// In a system of machines a host that is wired to an agent's arbiter, and that waits there for its last command alone throughout
/// a window, is passed by at most as many commands of the others as they have shares together.
pub fn waiting_hosts_are_passed_by_few()
    ensures { (responses : Responses) (system : System) (run : Run) (inside : Boundaries) (states : States) (ranks : LinkRanks)
        (end agent host from size : ℕ)
        → IsBuilt responses system run inside states ranks end → IsLegalRun system run end → agent < system.agents
        → host < system.hosts → from + size ≤ end
        → IsWire (inside.upper host agent (inside.links host agent)) (inside.upper host agent 0)
        → Throughout from size (WaitsBefore system run inside agent host)
        → others_begun (seats_of system agent) (λ h. inside.upper h agent 0)
        (inside.lower agent system.stages).port host from size
        ≤ shares_of_others system agent host }
{
    waiting_hosts_ask();
    askers_are_passed_by_few()
}

/// In a system of machines a host that waits for its last command alone, which is for an agent, asks behind its route, or all
/// that it has presented for the agent was taken there.
pub fn waiting_hosts_ask()
    ensures only { (system : System) (run : Run) (agent host c : ℕ) → WaitsAlone system run agent host c
        → IsTrue (asks_only system run host agent c) }
    ensures room { (system : System) (run : Run) (host end c : ℕ) → IsLegalHost (system.host host) (run.at_host host) end
        → c < end
        → IsTrue (are_finished_before system run host (commands_begun system run host (suc c)) c)
        → IsTrue (has_room system run host c) }
    ensures asks { (responses : Responses) (system : System) (run : Run) (inside : Boundaries) (states : States)
        (ranks : LinkRanks) (end agent host c : ℕ)
        → IsBuilt responses system run inside states ranks end → IsLegalRun system run end → agent < system.agents
        → host < system.hosts → c < end
        → WaitsAlone system run agent host c
        → IsFalse (shows (inside.upper host agent (inside.links host agent)).commands.signals c)
        → length (issued system run host agent (suc c))
        ≤ length
        (operations_among (target_of system agent) (inside.upper host agent (inside.links host agent)).shape
        (taken_at (inside.upper host agent (inside.links host agent)) c)) }
{
    crate::asked_words_are_owed();
    crate::host_and_route_keep_nothing_back();
    crate::built::machines_keep_their_records()
}

/// In a system of machines, in each stretch of cycles an agent's arbiter hands on at most two beats for each stage more than the
/// agent accepts.
pub fn few_stand_in_the_pipe()
    ensures { (responses : Responses) (system : System) (run : Run) (inside : Boundaries) (states : States) (ranks : LinkRanks)
        (end agent from size : ℕ)
        → IsBuilt responses system run inside states ranks end → IsLegalRun system run end → agent < system.agents
        → from + size ≤ end
        → count_in (takes (inside.lower agent system.stages).port) from size
        ≤ count_in (agent_accepts (system.agent agent) (run.at_agent agent)) from size + 2 * system.stages }
{
    crate::built::machines_keep_their_records()
}

/// A plain write that a host shows for an agent stands behind its route in the same cycle, with an operation, and ends its
/// command there. A wire hands it on, and so do links in a row that do.
pub fn plain_writes_go_on()
    ensures route { (system : System) (run : Run) (host agent : ℕ) (middle : Port) (down : ℕ → Port) (end : ℕ)
        → agent < system.agents
        → IsHostPart system run host middle end → IsRoutePart system host middle down end
        → (c : ℕ) → c < end → IsTrue (shows_plain_write system run agent c host)
        → IsPlainAt (target_of system agent) (down agent) c }
    ensures wire { (target : Target) (port : Port) (end : ℕ) → HandsWritesOn target port port end }
    ensures row { (target : Target) (port : ℕ → Port) (links end : ℕ)
        → ((i : ℕ) → i < links → HandsWritesOn target (port (suc i)) (port i) end)
        → HandsWritesOn target (port links) (port 0) end }
{}

/// Where each host that is joined to an agent asks at its arbiter in every cycle of a window, with beats that end their commands,
/// the commands that are taken there stand in full turns, wherever a row of them begins and ends: a turn between others is of
/// exactly its host's shares, and the next host in the order follows.
pub fn asking_hosts_take_full_turns()
    ensures { (system : System) (agent : ℕ) (up : ℕ → Port) (down : TaggedPort) (end from size : ℕ) (owners : List Owner)
        → AllShare (seats_of system agent) → IsTrue (are_apart (system.joined agent)) → IsArbiterPart system agent up down end
        → from + size ≤ end → AllAskPlainly system agent up from size → AreAmong owners down.port from size
        → HasFullTurns system agent (turns_of owners) }
{
    histories::ranks::turns_keep_seats()
}

/// Where an agent serves in granted order, what has begun there stays begun, in its order.
pub fn begun_grows()
    ensures { (system : System) (run : Run) (agent end : ℕ) → ServesInGrantedOrder system run agent end
        → ((h : ℕ) → IsTrue (is_joined system agent h) → h < system.hosts)
        → (c d : ℕ) → c ≤ d → d ≤ end → IsPrefix (begun system run agent c) (begun system run agent d) }
{
    memory_runs::histories_grow()
}

/// In a system of machines the hosts of the commands begun at an agent are, in order, those of what is taken before it, each
/// command once, and that is the front of what is taken behind its arbiter.
pub fn commands_begin_by_turns()
    ensures { (responses : Responses) (system : System) (run : Run) (inside : Boundaries) (states : States) (ranks : LinkRanks)
        (end agent : ℕ)
        → IsBuilt responses system run inside states ranks end → IsLegalRun system run end → agent < system.agents
        → BeginsByTurns system run agent (inside.lower agent 0) (inside.lower agent system.stages) end }
{
    crate::machines_are_awake();
    crate::built::machines_keep_their_lines();
    crate::built::machines_settle();
    memory_machines::settled::agents_take_by_turns();
    memory_parts::steps::agent_machine_is_a_part()
}
