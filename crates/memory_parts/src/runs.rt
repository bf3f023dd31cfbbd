//! Each machine has a run for all inputs: whatever its sides give it in each of endlessly many cycles.

ghost use Rattle.std.specs.Prelude.{ℕ, List};
ghost use Rattle.histories.specs.Turns.{Seat};
ghost use Rattle.memory_runs.specs.Views.{Responses, System, AgentSide, HostSide};
ghost use Rattle.memory_parts.specs.Agent.{IsAgentMachine};
ghost use Rattle.memory_parts.specs.AgentRun.{AgentInputs, SuitsAgent, agent_registers, agent_state, agent_view, agent_upper};
ghost use Rattle.memory_parts.specs.Arbiter.{IsArbiterMachine};
ghost use Rattle.memory_parts.specs.ArbiterRun.{ArbiterInputs, arbiter_grant, arbiter_upper, arbiter_lower};
ghost use Rattle.memory_parts.specs.Route.{IsRouteMachine};
ghost use Rattle.memory_parts.specs.RouteRun.{RouteInputs, route_registers, route_state, route_upper, route_lower};
ghost use Rattle.memory_parts.specs.Host.{IsHostMachine};
ghost use Rattle.memory_parts.specs.HostRun.{HostInputs, host_registers, host_state, host_view, host_lower};

/// The part next to an agent has a run for any commands above and any levels that the agent gives.
pub fn agent_machine_runs()
    ensures { (responses : Responses) (side : AgentSide) (inputs : AgentInputs) (end : ℕ) → SuitsAgent side inputs.shape
        → let state = agent_state (agent_registers responses side inputs) in
        IsAgentMachine responses side (agent_view side inputs state) (agent_upper responses side inputs state) state end }
{}

/// The arbiter has a run for any commands of the askers, and any wait and answers below.
pub fn arbiter_machine_runs()
    ensures { (seats : List Seat) (hosts : ℕ) (inputs : ArbiterInputs) (end : ℕ)
        → let grant = arbiter_grant seats inputs in
        IsArbiterMachine seats hosts (arbiter_upper inputs grant) (arbiter_lower inputs grant) grant end }
{}

/// The route has a run for any commands above, and any waits and answers of the places.
pub fn route_machine_runs()
    ensures { (responses : Responses) (system : System) (host room : ℕ) (inputs : RouteInputs) (end : ℕ)
        → let state = route_state (route_registers responses system host inputs) in
        IsRouteMachine responses system host room (route_upper responses system host inputs state) (route_lower system host inputs state) state end }
{}

/// The part next to a host has a run for any commands of the host, and any wait and answers below.
pub fn host_machine_runs()
    ensures { (responses : Responses) (side : HostSide) (inputs : HostInputs) (end : ℕ)
        → let state = host_state (host_registers responses side inputs) in
        let view = host_view responses side inputs state in
        IsHostMachine responses side view (host_lower side inputs view state) state end }
{}
