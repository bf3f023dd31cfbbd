//! The part next to an agent: what it shows to the agent, and when.

ghost use Rattle.std.specs.Prelude.{ℕ};
ghost use Rattle.memory_runs.specs.Views.{Responses, System, Run};
ghost use Rattle.memory_runs.specs.Legal.{IsLegalAgent};
ghost use Rattle.memory_machines.specs.Lines.{TaggedPort, IsFit};
ghost use Rattle.memory_machines.specs.Straight.{ShowsWhatItIsAsked};
ghost use Rattle.memory_parts.specs.Agent.{AgentState, IsAgentMachine, IsAgentPlan};

/// An agent with readdatavalid is shown the command that its part is asked with in each cycle in which that is a write, or in
/// which fewer reads are unanswered than it bears.
pub fn agent_shows_what_it_is_asked()
    ensures { (responses : Responses) (system : System) (run : Run) (agent : ℕ) (up : TaggedPort) (state : AgentState) (end : ℕ)
        → IsAgentPlan (system.agent agent) → IsFit system agent up.port end
        → IsLegalAgent (system.agent agent) (run.at_agent agent) end
        → IsAgentMachine responses (system.agent agent) (run.at_agent agent) up state end
        → ShowsWhatItIsAsked system run agent up end }
{}
