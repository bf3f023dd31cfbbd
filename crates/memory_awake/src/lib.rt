//! Whole memory-mapped systems never idle, and read words once: a wanted agent is served, from what each part promises of its
//! ports.
#![tactic(auto)]

pub mod built;
pub mod fair;
pub mod hosts;
pub mod links;
pub mod packed;
pub mod plain;
pub mod rows;
pub mod wired;

ghost use Rattle.std.specs.Prelude.{◌≡◌, ℕ, suc, ◌≤◌, ◌<◌, ◌+◌, ◌-◌, IsTrue, Some};
ghost use Rattle.histories.specs.History.{IsPrefix};
ghost use Rattle.histories.specs.Turns.{AllShare};
ghost use Rattle.memory_runs.specs.Views.{System, Run, Responses, Kind};
ghost use Rattle.memory_runs.specs.Whole.{IsLegalRun, IsSafe};
ghost use Rattle.std.specs.List.{list_all};
ghost use Rattle.memory_runs.specs.Commands.{agent_accepts, shows};
ghost use Rattle.memory_runs.specs.Order.{is_joined};
ghost use Rattle.memory_runs.specs.Legal.{IsLegalHost, IsProperAtHost};
ghost use Rattle.memory_runs.specs.Awake.{NeverIdles, ReadsAheadWithin, asks_only, is_alike, longest_wait, Throughout, Sometime, ServesWithin, ServesDefaultWithin, MovesAtDefaultWithin, agent_window};
ghost use Rattle.memory_machines.specs.Link.{Port, Target, AreLegalAt, items};
ghost use Rattle.memory_machines.specs.Machines.{Stage, above, below, RunsAsStage, WaitsOnlyWhenFull, owing_rank};
ghost use Rattle.memory_machines.specs.Rank.{AnswersPromptly};
ghost use Rattle.memory_machines.specs.Turns.{seats_of};
ghost use Rattle.memory_parts.specs.Steps.{IsHostPart, IsRoutePart};
ghost use Rattle.memory_awake.specs.Theorem.{Boundaries, States, LinkRanks, IsBuilt};
ghost use Rattle.memory_awake.specs.Front.{KeepsWhole, IsWantedAt, IsServedIn, IsFront, IsDefaultFront, WantsDefault, IsDefaultServedIn};
ghost use Rattle.memory_awake.specs.Front.{owes_alone, GivesAtOnce, AreLegalHosts, AllowLessThan, IsUnserved};
ghost use Rattle.memory_links.specs.Going.{GivesWhatHasCome, KeepsGoing};
ghost use Rattle.memory_awake.specs.Slack.{Slack, Slacks, PassesOn, PassesWhileStill, AllPassOn, CostsAtMost, AreModest, HasModestLinks, host_allows, toll, all_allow};
ghost use Rattle.memory_awake.specs.Approach.{Approach, IsAwake, ServesWanted};
ghost use Rattle.memory_awake.specs.Ahead.{KeepsNothingBack, LeavesNothingOpen, LeadsAhead, CanTakeMore};
ghost use Rattle.memory_awake.specs.Ways.{Ways, Standings, KeepsAwake, IsAtWork, longest};

/// Where every part of a system is its machine, its links and pipes keep their lines, its links keep going, and the components
/// are legal, the whole is safe and never idles: a wanted agent, and the default agent, are served within their windows, no host
/// hangs at the default agent, and reads travel while others are owed.
pub fn machines_are_awake()
    ensures safe { (responses : Responses) (system : System) (run : Run) (inside : Boundaries) (states : States)
        (ranks : LinkRanks) (end : ℕ)
        → IsBuilt responses system run inside states ranks end → IsLegalRun system run end
        → IsSafe responses system run end }
    ensures awake { (responses : Responses) (system : System) (run : Run) (inside : Boundaries) (states : States)
        (ranks : LinkRanks) (end : ℕ)
        → IsBuilt responses system run inside states ranks (end + 2) → IsLegalRun system run (end + 2)
        → NeverIdles system run end }
{
    systems_are_awake();
    systems_read_ahead();
    wanted_default_moves_on();
    memory_machines::lines::the_lines_give_the_headline();
    built::machines_keep_their_lines();
    built::machines_keep_their_records()
}

/// Where every part of a system keeps its record and the components are legal, a wanted agent, and the default agent, are served
/// within their windows.
pub fn systems_are_awake()
    ensures { (system : System) (run : Run) (approach : ℕ → Approach) (end : ℕ)
        → IsAwake system run approach (end + 2) → ServesWanted system run end }
{
    agents_are_served();
    default_agent_serves();
    moves_are_few();
    modest_parts_fit()
}

/// Where every part keeps its record and the hosts are legal, a wanted agent is served within one more than each number of cycles
/// that ranks and moves can't fill.
pub fn agents_are_served()
    ensures { (system : System) (run : Run) (agent : ℕ) (ways : Ways) (standings : Standings) (size end longer : ℕ)
        → end + 2 ≤ longer → AllShare (seats_of system agent) → KeepsWhole system run agent ways standings longer
        → AreLegalHosts system run longer → AllowLessThan size system run agent ways standings end
        → ServesWithin (suc size) system run agent end }
{
    wanted_agent_is_served()
}

/// A wanted agent is served in a window longer than ranks and moves of the parts allow.
pub fn wanted_agent_is_served()
    ensures { (system : System) (run : Run) (agent : ℕ) (ways : Ways) (standings : Standings) (host from size end : ℕ)
        → from + size + 2 ≤ end → host < system.hosts → AllShare (seats_of system agent)
        → KeepsWhole system run agent ways standings end → longest system run agent ways standings from size < size
        → Throughout from size (IsWantedAt system run agent host) → IsServedIn system run agent from size }
{
    work_is_short()
}

/// A window in which a wanted agent has work on its way and is stuck is no longer than ranks and moves of the parts allow.
pub fn work_is_short()
    ensures { (system : System) (run : Run) (agent : ℕ) (ways : Ways) (standings : Standings) (host from size end : ℕ)
        → from + size + 2 ≤ end → AllShare (seats_of system agent) → KeepsAwake system run agent ways standings end
        → IsAtWork system run agent ways standings host from size
        → size ≤ longest system run agent ways standings from size }
{
    histories::ranks::stuck_is_short();
    histories::ranks::turns_keep_seats();
    memory_machines::progress::work_lasts()
}

/// Where the links and stages hold back few beats and words, the parts allow in a window, in which and in whose next cycle
/// nothing is served, no more than their sum.
pub fn moves_are_few()
    ensures { (system : System) (run : Run) (agent : ℕ) (ways : Ways) (standings : Standings) (slacks : Slacks)
        (from size most end : ℕ)
        → from + size + 2 ≤ end → KeepsWhole system run agent ways standings end → AllPassOn system ways slacks end
        → CostsAtMost most system ways standings → IsUnserved system run agent from (suc size)
        → longest system run agent ways standings from size ≤ all_allow system ways standings slacks most }
{}

/// Modest ranks and slacks fit in an agent's window.
pub fn modest_parts_fit()
    ensures { (system : System) (agent : ℕ) (ways : Ways) (standings : Standings) (slacks : Slacks)
        → AreModest system agent ways standings slacks
        → all_allow system ways standings slacks 5 + 1 < agent_window system agent }
{}

/// Three links fit, of which the lowest holds a beat, gives a word of its own and has a rank of 1, and the next has a rank of 1.
pub fn modest_links_fit()
    ensures { (system : System) (ways : Ways) (standings : Standings) (slacks : Slacks) (h : ℕ)
        → HasModestLinks ways standings slacks h
        → (host_allows system ways standings slacks h ≤ 15) × (toll ways standings h ≤ 5) }
{}

/// Where the hosts are legal and each front keeps what is asked for the default agent, the default agent serves within two
/// cycles.
pub fn default_agent_serves()
    ensures { (system : System) (run : Run) (size end longer : ℕ) → 2 ≤ size → end + 2 ≤ longer
        → AreLegalHosts system run longer → ((h : ℕ) → h < system.hosts → IsDefaultFront system run h longer)
        → ServesDefaultWithin size system run end }
{
    wanted_default_is_served()
}

/// A host that wants the default agent is served in two cycles.
pub fn wanted_default_is_served()
    ensures { (system : System) (run : Run) (host from size end : ℕ) → from + size ≤ end → 2 ≤ size
        → IsDefaultFront system run host end → Throughout from size (WantsDefault system run host)
        → IsDefaultServedIn system run host from size }
{}

/// A command of a legal host that is wanted at the default agent moves on itself in two cycles, where words come to the host only
/// for reads that it has shown.
pub fn wanted_default_moves_on()
    ensures { (system : System) (run : Run) (host size end : ℕ) → 2 ≤ size
        → IsLegalHost (system.host host) (run.at_host host) end → IsProperAtHost (system.host host) (run.at_host host) end
        → IsDefaultFront system run host end → MovesAtDefaultWithin size system run host end }
{}

/// The part next to a host and the route keep what is asked of the front for each agent, with and without readdatavalid.
pub fn host_and_route_are_a_front()
    ensures { (system : System) (run : Run) (host agent : ℕ) (middle : Port) (down : ℕ → Port) (end : ℕ) → agent < system.agents
        → IsHostPart system run host middle end → IsRoutePart system host middle down end
        → IsFront system run host agent (down agent) end }
{}

/// The part next to a host and the route give a word in the cycle in which it comes.
pub fn words_reach_the_host()
    ensures { (system : System) (run : Run) (host agent : ℕ) (middle : Port) (down : ℕ → Port) (end : ℕ) → agent < system.agents
        → IsHostPart system run host middle end → IsRoutePart system host middle down end
        → GivesAtOnce system run host agent (down agent) end }
{}

/// The part next to a host and the route serve the default agent.
pub fn host_and_route_serve_default()
    ensures { (system : System) (run : Run) (host : ℕ) (middle : Port) (down : ℕ → Port) (end : ℕ)
        → IsHostPart system run host middle end → IsRoutePart system host middle down end
        → IsDefaultFront system run host end }
{}

/// A link whose operations stand in order and that answers promptly gives what has come.
pub fn prompt_links_give()
    ensures { (target : Target) (up down : Port) (end : ℕ) → AreLegalAt up end → AreLegalAt down end
        → ((c : ℕ) → c ≤ end → IsPrefix (items target down c) (items target up c)) → AnswersPromptly target up down end
        → GivesWhatHasCome target up down end }
{
    memory_machines::progress::owed_words_flow()
}

/// A wire keeps going, with a rank that is always 0.
pub fn wires_keep_going()
    ensures { (target : Target) (port : Port) (end : ℕ) → AreLegalAt port end → KeepsGoing target port port (λ c. 0) 0 end }
{
    memory_machines::wires::wire_falls()
}

/// A stage holds back no more beats than its queue holds, and one word. A wire holds nothing back.
pub fn stages_pass_on()
    ensures stage { (stage : Stage) → RunsAsStage stage → (end : ℕ)
        → PassesOn (record { hold = stage.depth; kept = 1 }) (above stage) (below stage) end }
    ensures wire { (port : Port) (end : ℕ) → PassesOn (record { hold = 0; kept = 0 }) port port end }
{}

/// Where fewer than 16 reads of a host are under way and one agent alone owes it words, the part next to the host and the route
/// keep back nothing that it presents for the agent. Of a host without bursts nothing is left open behind the route. Only what is
/// for an agent is shown there.
pub fn host_and_route_keep_nothing_back()
    ensures back { (system : System) (run : Run) (host agent : ℕ) (middle : Port) (down : ℕ → Port) (end : ℕ)
        → agent < system.agents
        → IsHostPart system run host middle end → IsRoutePart system host middle down end
        → KeepsNothingBack system run host agent (down agent) end }
    ensures left_open { (system : System) (run : Run) (host agent : ℕ) (middle : Port) (down : ℕ → Port) (end : ℕ)
        → agent < system.agents
        → IsHostPart system run host middle end → IsRoutePart system host middle down end
        → (system.host host).burst_bits ≡ 1 → LeavesNothingOpen (down agent) (end - 1) }
    ensures joined { (system : System) (run : Run) (host agent : ℕ) (middle : Port) (down : ℕ → Port) (end : ℕ)
        → agent < system.agents
        → IsHostPart system run host middle end → IsRoutePart system host middle down end
        → ((kind : Kind) (address : ℕ) → system.place host kind address ≡ Some agent → IsTrue (is_joined system agent host))
        → (c : ℕ) → c < end → IsTrue (shows (down agent).commands.signals c) → IsTrue (is_joined system agent host) }
{}

/// A host whose unfinished commands are all for one agent is owed words by it alone.
pub fn asked_words_are_owed()
    ensures { (system : System) (run : Run) (host end : ℕ) → IsLegalHost (system.host host) (run.at_host host) end
        → (agent c : ℕ) → c < end → IsTrue (asks_only system run host agent c) → IsTrue (owes_alone system run host agent c) }
{}

/// An agent with readdatavalid whose joined hosts are alike to it accepts in a window longer than its pipe and its wait states,
/// where it is asked throughout and waits for nothing, also while it owes words.
pub fn asked_agent_accepts()
    ensures { (system : System) (run : Run) (agent : ℕ) (ways : Ways) (standings : Standings) (host from size end : ℕ)
        → from + size + 2 ≤ end → host < system.hosts → ways.stages + longest_wait (system.agent agent) + 2 ≤ size
        → AllShare (seats_of system agent) → KeepsWhole system run agent ways standings end → LeadsAhead system run agent ways end
        → IsTrue (system.agent agent).has_readdatavalid
        → IsTrue (list_all (λ host. is_alike (system.host host) (system.agent agent)) (system.joined agent))
        → Throughout from size (CanTakeMore system run agent host)
        → Sometime from size (λ c. IsTrue (agent_accepts (system.agent agent) (run.at_agent agent) c)) }
{
    histories::ranks::turns_keep_seats()
}

/// Where every part of a system keeps its record, and the parts that lead to the agents with readdatavalid hand on what they are
/// asked, reads travel while others are owed.
pub fn systems_read_ahead()
    ensures { (system : System) (run : Run) (approach : ℕ → Approach) (end : ℕ) → IsAwake system run approach (end + 2)
        → ((a : ℕ) → a < system.agents → IsTrue (system.agent a).has_readdatavalid
        → LeadsAhead system run a (approach a).ways (end + 2))
        → (a : ℕ) → a < system.agents → ReadsAheadWithin (agent_window system a) system run a end }
{
    asked_words_are_owed();
    asked_agent_accepts()
}
