//! What a route shows behind a legal host, whatever its places accept and answer.

ghost use Rattle.std.specs.Prelude.{ℕ, ◌<◌};
ghost use Rattle.memory_runs.specs.Views.{Responses, System, Run};
ghost use Rattle.memory_runs.specs.Legal.{IsLegalHost};
ghost use Rattle.memory_machines.specs.Link.{Port};
ghost use Rattle.memory_machines.specs.Machines.{ShowsFitBeats};
ghost use Rattle.memory_parts.specs.Host.{HostState, IsHostMachine};
ghost use Rattle.memory_parts.specs.Route.{RouteState, IsRouteMachine};
ghost use Rattle.memory_parts.specs.Joins.{KeepsBeats};

/// What a route shows to each place fits where its bursts stand, behind a legal host.
pub fn routes_show_fit_beats()
    ensures { (responses : Responses) (system : System) (run : Run) (host room : ℕ) (middle : Port) (down : ℕ → Port)
        (host_state : HostState) (route_state : RouteState) (end : ℕ)
        → IsLegalHost (system.host host) (run.at_host host) end
        → IsHostMachine responses (system.host host) (run.at_host host) middle host_state end
        → IsRouteMachine responses system host room middle down route_state end
        → (a : ℕ) → a < system.agents → ShowsFitBeats (down a) end }
{}

/// A beat that a route shows to a place is the one that the part next to a legal host shows in that cycle.
pub fn routes_keep_beats()
    ensures { (responses : Responses) (system : System) (run : Run) (host room : ℕ) (middle : Port) (down : ℕ → Port)
        (host_state : HostState) (route_state : RouteState) (end : ℕ)
        → IsLegalHost (system.host host) (run.at_host host) end
        → IsHostMachine responses (system.host host) (run.at_host host) middle host_state end
        → IsRouteMachine responses system host room middle down route_state end
        → (a : ℕ) → a < system.agents → KeepsBeats middle (down a) end }
{}
