//! What each machine does in a cycle, told by its two sides alone: never idling and fairness rest on it.

ghost use Rattle.std.specs.Prelude.{◌≡◌, ◌<◌, ◌≤◌, ◌+◌, ℕ, IsTrue, IsFalse};
ghost use Rattle.memory_runs.specs.Views.{Responses, System, Run};
ghost use Rattle.memory_runs.specs.Commands.{shows};
ghost use Rattle.memory_runs.specs.Legal.{IsLegalHost, IsLegalAgent};
ghost use Rattle.memory_runs.specs.Order.{is_joined, taken};
ghost use Rattle.memory_runs.specs.Awake.{longest_wait};
ghost use Rattle.memory_machines.specs.Link.{Port, taken_at, AreLegalAt, AnswersAreOwed};
ghost use Rattle.memory_machines.specs.Lines.{TaggedPort, target_of, groups_of, tagged_operations, AreFitToAsk, AreTaggedInOrder, AreSingle, OwesBelow, IsFit};
ghost use Rattle.memory_machines.specs.Turns.{Grant, seats_of};
ghost use Rattle.memory_parts.specs.Agent.{AgentState, IsAgentMachine, IsAgentPlan};
ghost use Rattle.memory_parts.specs.Arbiter.{IsArbiterMachine};
ghost use Rattle.memory_parts.specs.Host.{HostState, IsHostMachine, ReadsWords};
ghost use Rattle.memory_parts.specs.Route.{RouteState, IsRoutePlan, IsRouteMachine};
ghost use Rattle.memory_parts.specs.Ahead.{AcceptsAhead};
ghost use Rattle.memory_parts.specs.Steps.{IsArbiterPart, IsHostPart, IsRoutePart, IsAgentPart, AreSilentPast, agent_rank};

/// The arbiter machine passes the beats of the chosen host and sends words back by their tags.
pub fn arbiter_machine_is_a_part()
    ensures { (system : System) (agent : ℕ) (up : ℕ → Port) (down : TaggedPort) (grant : ℕ → Grant) (end : ℕ)
        → ((h : ℕ) → IsTrue (is_joined system agent h) → h < system.hosts) → AreSilentPast system.hosts up end
        → AreFitToAsk system agent up end → AreTaggedInOrder down end
        → IsArbiterMachine (seats_of system agent) system.hosts up down grant end → IsArbiterPart system agent up down end }
{
    crate::lines::arbiter_machine_takes_turns()
}

/// The machine next to a host passes its beats but for reads while 16 are unanswered, or one without readdatavalid, and gives
/// each word in its cycle. Without readdatavalid a read is accepted with its word.
pub fn host_machine_is_a_part()
    ensures { (responses : Responses) (system : System) (run : Run) (host : ℕ) (down : Port) (state : HostState) (end : ℕ)
        → ReadsWords (system.host host) (run.at_host host) end → IsLegalHost (system.host host) (run.at_host host) end
        → AnswersAreOwed down end → IsHostMachine responses (system.host host) (run.at_host host) down state end
        → IsHostPart system run host down end }
{}

/// The route machine sends each beat to its place while no word is owed by another one, and gives the words of the place that
/// owes them, each in its cycle.
pub fn route_machine_is_a_part()
    ensures { (responses : Responses) (system : System) (host room : ℕ) (up : Port) (down : ℕ → Port) (state : RouteState)
        (end : ℕ)
        → IsRoutePlan system host up.shape → AreLegalAt up end → AreSingle up end → OwesBelow room up end
        → ((a : ℕ) → a < system.agents → AnswersAreOwed (down a) end)
        → IsRouteMachine responses system host room up down state end → IsRoutePart system host up down end }
{
    memory_runs::base_is_free();
    crate::lines::route_machine_keeps_its_line()
}

/// The machine next to an agent accepts exactly when the agent does, has a rank of at most the longest wait time and 1, sends
/// words up in their cycle, or at latency 0 in the next, under the tags of their reads, and the agent has taken the operations of
/// what is taken above it.
pub fn agent_machine_is_a_part()
    ensures part { (responses : Responses) (system : System) (run : Run) (agent : ℕ) (up : TaggedPort) (state : AgentState)
        (end : ℕ)
        → IsAgentPlan (system.agent agent) → IsFit system agent up.port end
        → IsLegalAgent (system.agent agent) (run.at_agent agent) end
        → IsAgentMachine responses (system.agent agent) (run.at_agent agent) up state end
        → IsAgentPart system run agent up (agent_rank system run agent) (longest_wait (system.agent agent) + 1) end }
    ensures tags { (responses : Responses) (system : System) (run : Run) (agent : ℕ) (up : TaggedPort) (state : AgentState)
        (end : ℕ)
        → IsAgentPlan (system.agent agent) → IsFit system agent up.port end
        → IsLegalAgent (system.agent agent) (run.at_agent agent) end
        → IsAgentMachine responses (system.agent agent) (run.at_agent agent) up state end → AreTaggedInOrder up end }
    ensures operations { (responses : Responses) (system : System) (run : Run) (agent : ℕ) (up : TaggedPort) (state : AgentState)
        (end : ℕ)
        → IsAgentPlan (system.agent agent) → IsFit system agent up.port end
        → IsLegalAgent (system.agent agent) (run.at_agent agent) end
        → IsAgentMachine responses (system.agent agent) (run.at_agent agent) up state end
        → (c : ℕ) → c ≤ end
        → taken system run agent c ≡ tagged_operations (groups_of (target_of system agent) up.shape (taken_at up.port c)) }
{
    crate::lines::agent_machine_keeps_its_line()
}

/// The machine next to an agent with readdatavalid hands on what stands before it while the agent bears more reads, also while
/// words are owed.
pub fn agent_machine_accepts_ahead()
    ensures { (responses : Responses) (system : System) (run : Run) (agent : ℕ) (up : TaggedPort) (state : AgentState) (end : ℕ)
        → IsAgentPlan (system.agent agent) → IsFit system agent up.port end
        → IsLegalAgent (system.agent agent) (run.at_agent agent) end
        → IsAgentMachine responses (system.agent agent) (run.at_agent agent) up state end → AcceptsAhead system run agent up end }
{}
