//! Each machine keeps the whole of its line and holds nothing.

ghost use Rattle.std.specs.Prelude.{◌<◌, ◌*◌, ℕ, IsTrue, List, [], ◌∷◌};
ghost use Rattle.memory_runs.specs.Views.{Responses, System, Run};
ghost use Rattle.memory_runs.specs.Commands.{longest_burst};
ghost use Rattle.memory_runs.specs.Order.{is_joined};
ghost use Rattle.memory_machines.specs.Link.{Port};
ghost use Rattle.memory_machines.specs.Turns.{Grant, seats_of, TakesTurnsByRule};
ghost use Rattle.histories.specs.Turns.{Seat};
ghost use Rattle.memory_machines.specs.Lines.{TaggedPort, IsHostLine, IsRouteLine, IsArbiterLine, IsAgentLine};
ghost use Rattle.memory_parts.specs.Host.{HostState, IsHostMachine, ReadsWords};
ghost use Rattle.memory_parts.specs.Route.{RouteState, IsRoutePlan, IsRouteMachine};
ghost use Rattle.memory_parts.specs.Arbiter.{IsArbiterMachine};
ghost use Rattle.memory_parts.specs.Lone.{IsLoneWire};
ghost use Rattle.memory_parts.specs.Agent.{AgentState, IsAgentPlan, IsAgentMachine};

/// The part next to an agent keeps its line, for every timing of the agent.
pub fn agent_machine_keeps_its_line()
    ensures { (responses : Responses) (system : System) (run : Run) (agent : ℕ) (up : TaggedPort) (state : AgentState) (end : ℕ)
        → IsAgentPlan (system.agent agent) → IsAgentMachine responses (system.agent agent) (run.at_agent agent) up state end
        → IsAgentLine responses system run agent 0 up end }
{
    memory_machines::lines::tags_in_order()
}

/// The arbiter keeps its line, over bursts and joined commands.
pub fn arbiter_machine_keeps_its_line()
    ensures { (responses : Responses) (system : System) (agent : ℕ) (up : ℕ → Port) (down : TaggedPort) (grant : ℕ → Grant)
        (end : ℕ)
        → ((h : ℕ) → IsTrue (is_joined system agent h) → h < system.hosts)
        → IsArbiterMachine (seats_of system agent) system.hosts up down grant end
        → IsArbiterLine responses system agent 0 up down end }
{}

/// The arbiter takes turns by the rule, whatever seats it has.
pub fn arbiter_machine_takes_turns()
    ensures { (seats : List Seat) (hosts : ℕ) (up : ℕ → Port) (down : TaggedPort) (grant : ℕ → Grant) (end : ℕ)
        → IsArbiterMachine seats hosts up down grant end → TakesTurnsByRule seats up down.port end }
{}

/// Where one host alone is joined to an agent, a wire is the machine of its arbiter.
pub fn lone_arbiter_is_a_wire()
    ensures { (seat : Seat) (hosts : ℕ) (up : ℕ → Port) (down : TaggedPort) (end : ℕ)
        → IsLoneWire seat.host hosts up down end → (grant : ℕ → Grant) × IsArbiterMachine (seat ∷ []) hosts up down grant end }
{}

/// The route keeps its line: decoder, limiter, default agent and collector.
pub fn route_machine_keeps_its_line()
    ensures { (responses : Responses) (system : System) (host room : ℕ) (up : Port) (down : ℕ → Port) (state : RouteState)
        (end : ℕ)
        → IsRoutePlan system host up.shape → IsRouteMachine responses system host room up down state end
        → IsRouteLine responses system host 0 room up down end }
{
    memory_runs::base_is_free()
}

/// The part next to a host keeps its line, with and without readdatavalid. It owes no more words than 16 longest bursts.
pub fn host_machine_keeps_its_line()
    ensures { (responses : Responses) (system : System) (run : Run) (host room : ℕ) (down : Port) (state : HostState) (end : ℕ)
        → 16 * longest_burst down.shape.burst_bits < room → ReadsWords (system.host host) (run.at_host host) end
        → IsHostMachine responses (system.host host) (run.at_host host) down state end
        → IsHostLine responses system run host 0 room down end }
{}
