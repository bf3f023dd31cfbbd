//! A plan gives all that the machines rest on.

ghost use Rattle.std.specs.Prelude.{◌≡◌, ◌<◌, ℕ};
ghost use Rattle.memory_runs.specs.Views.{Shape, System, Run};
ghost use Rattle.memory_runs.specs.Plan.{IsMemoryPlan, AreViews};
ghost use Rattle.memory_parts.specs.Agent.{IsAgentPlan};
ghost use Rattle.memory_parts.specs.AgentRun.{SuitsAgent};
ghost use Rattle.memory_parts.specs.Route.{IsRoutePlan};
ghost use Rattle.memory_parts.specs.Host.{ReadsWords};

/// What the lines of agent, route and host ask beside the machine follows from the plan and the ports.
pub fn plans_suit_machines()
    ensures agents { (system : System) → IsMemoryPlan system → (a : ℕ) → a < system.agents → IsAgentPlan (system.agent a) }
    ensures sides { (system : System) → IsMemoryPlan system → (a : ℕ) (shape : Shape) → a < system.agents
        → shape.word_bytes ≡ (system.agent a).word_bytes → shape.burst_bits ≡ (system.agent a).burst_bits
        → SuitsAgent (system.agent a) shape }
    ensures routes { (system : System) → IsMemoryPlan system → (h : ℕ) (shape : Shape) → h < system.hosts
        → shape.word_bytes ≡ (system.host h).word_bytes → IsRoutePlan system h shape }
    ensures hosts { (system : System) (run : Run) (h end : ℕ) → AreViews system run end → h < system.hosts
        → ReadsWords (system.host h) (run.at_host h) end }
{}
