//! Systems of machines whose links are machines too: where to start. They are safe, never idle, and are fair where no beats are
//! dropped below a host with bursts and without byte enables.

ghost use Rattle.std.specs.Prelude.{◌≡◌, ℕ, ◌<◌, ◌≤◌, ◌+◌, IsTrue, IsFalse};
ghost use Rattle.memory_runs.specs.Views.{Responses, System, Run};
ghost use Rattle.memory_runs.specs.Plan.{IsMemoryPlan, AreViews};
ghost use Rattle.memory_runs.specs.Whole.{IsLegalRun, IsSafe};
ghost use Rattle.memory_runs.specs.Awake.{NeverIdles, IsFair};
ghost use Rattle.memory_runs.specs.Order.{is_joined};
ghost use Rattle.memory_machines.specs.Link.{Target, AreLegalAt, AnswersAreOwed};
ghost use Rattle.memory_machines.specs.Lines.{target_of};
ghost use Rattle.memory_machines.specs.PartRanks.{JoinsAlike};
ghost use Rattle.memory_links.specs.Driven.{Inputs};
ghost use Rattle.memory_links.specs.Selects.{EnablesFit};
ghost use Rattle.memory_awake.specs.Fair.{are_apart};
ghost use Rattle.memory_awake.specs.Rows.{CutsBursts, FitsWords, DropsBeats, GathersBelowCut};
ghost use Rattle.memory_awake.specs.RowRun.{RowPlan, SuitsRow, row_registers, row_top, row_middle, row_low, row_bottom};
ghost use Rattle.memory_awake.specs.LinkSystem.{LinkPlan, SuitsLinks, AreFitHosts, links_for, linked_registers, linked_run, linked_ports, linked_states};
ghost use Rattle.memory_awake.specs.PlainSystem.{AreQuietPast, wired_ports, wired_states};
ghost use Rattle.memory_parts.specs.SystemRun.{PlainPlan, HaveOneShape, Outside, plain_system, registers_of, ports_run};
ghost use Rattle.memory_parts.specs.Agent.{AgentState};
ghost use Rattle.memory_awake.specs.RowFront.{IsRowFront, ServeWhatFits, with_agents};
ghost use Rattle.memory_awake.specs.RowSystem.{RowPorts, AreRows, IsFairRow, boundaries_of};
ghost use Rattle.memory_awake.specs.Theorem.{States, LinkRanks, ArePlanned, AreMachines, IsBuilt};

/// Where every part and every link is its machine and the components are legal, the links keep their lines, keep going and hold
/// little back: the system is built as `IsBuilt` asks. Behind the routes commands are legal, joined ones are alike and byte
/// enables fit, and before the arbiters answers are owed.
pub fn machines_with_links_are_built()
    ensures built { (responses : Responses) (system : System) (run : Run) (ports : RowPorts) (states : States) (end : ℕ)
        → ArePlanned system (boundaries_of ports) states → AreMachines responses system run (boundaries_of ports) states end
        → AreRows system run ports end → IsLegalRun system run end
        → (ranks : LinkRanks) × IsBuilt responses system run (boundaries_of ports) states ranks end }
    ensures settled { (responses : Responses) (system : System) (run : Run) (ports : RowPorts) (states : States) (end : ℕ)
        → ArePlanned system (boundaries_of ports) states → AreMachines responses system run (boundaries_of ports) states end
        → AreRows system run ports end → IsLegalRun system run end
        → (h a : ℕ) → h < system.hosts → a < system.agents
        → AreLegalAt (ports.after_route h a) end × AnswersAreOwed (ports.before_arbiter h a) end
        × JoinsAlike (target_of system a) (ports.after_route h a) end × EnablesFit (ports.after_route h a) end }
{
    crate::links::rows_keep_their_lines();
    crate::links::rows_are_modest();
    memory_machines::progress::joins_are_alike();
    memory_machines::lines::tags_in_order();
    memory_machines::lines::registers_are_a_pipe();
    crate::built::machines_keep_their_lines();
    memory_machines::settled::lines_settle();
    memory_machines::machines::stage_is_a_link();
    memory_machines::machines::stage_is_later();
    memory_parts::steps::route_machine_is_a_part();
    memory_parts::steps::agent_machine_is_a_part();
    memory_links::pipes::stage_keeps_its_line()
}

/// So such a system is safe and never idles.
pub fn machines_with_links_are_awake()
    ensures safe { (responses : Responses) (system : System) (run : Run) (ports : RowPorts) (states : States) (end : ℕ)
        → ArePlanned system (boundaries_of ports) states → AreMachines responses system run (boundaries_of ports) states end
        → AreRows system run ports end → IsLegalRun system run end
        → IsSafe responses system run end }
    ensures awake { (responses : Responses) (system : System) (run : Run) (ports : RowPorts) (states : States) (end : ℕ)
        → ArePlanned system (boundaries_of ports) states → AreMachines responses system run (boundaries_of ports) states (end + 2)
        → AreRows system run ports (end + 2) → IsLegalRun system run (end + 2)
        → NeverIdles system run end }
{
    machines_with_links_are_built();
    crate::machines_are_awake()
}

/// And it is fair where no host is joined to an agent twice, and no beats are dropped below a host with bursts and without byte
/// enables.
pub fn machines_with_links_are_fair()
    ensures { (responses : Responses) (system : System) (run : Run) (ports : RowPorts) (states : States) (end : ℕ)
        → ArePlanned system (boundaries_of ports) states → AreMachines responses system run (boundaries_of ports) states end
        → AreRows system run ports end → IsLegalRun system run end
        → ((agent : ℕ) → agent < system.agents → IsTrue (are_apart (system.joined agent)))
        → ((agent host : ℕ) → agent < system.agents → IsTrue (is_joined system agent host) → IsFairRow system ports agent host)
        → IsFair system run end }
{
    machines_with_links_are_built();
    crate::links::rows_are_straight();
    crate::built::machines_keep_their_records();
    crate::fair::straight_machines_are_fair();
    memory_links::begins::single_writes_begin()
}

/// The part next to an agent need be its machine only for as long as what it is given fits the agent: behind machines and links
/// whose hosts and agents are legal all of it does.
pub fn what_rows_carry_fits()
    ensures { (responses : Responses) (system : System) (run : Run) (ports : RowPorts) (states : States) (end : ℕ)
        → IsMemoryPlan system → AreViews system run end → IsRowFront responses system run ports states end
        → ServeWhatFits responses system run ports.lower end → IsLegalRun system run end
        → (agent : ℕ → AgentState)
        × ArePlanned system (boundaries_of ports) (with_agents states agent)
        × AreMachines responses system run (boundaries_of ports) (with_agents states agent) end
        × AreRows system run ports end }
{
    crate::built::memory_plans_are_planned();
    memory_parts::plans::plans_suit_machines();
    memory_parts::lines::host_machine_keeps_its_line();
    memory_parts::lines::route_machine_keeps_its_line();
    memory_parts::lines::arbiter_machine_keeps_its_line();
    memory_parts::lines::agent_machine_keeps_its_line();
    crate::links::rows_keep_their_lines();
    memory_machines::progress::joins_are_alike();
    memory_machines::lines::registers_are_a_pipe();
    memory_machines::settled::lines_settle();
    memory_parts::steps::route_machine_is_a_part();
    memory_links::pipes::stage_keeps_its_line()
}

/// Such systems exist: a plain system of machines is one, with wires for links, whatever its hosts and agents give, as long as
/// they are legal.
pub fn plain_systems_have_rows()
    ensures { (responses : Responses) (plan : PlainPlan) (outside : Outside) (end : ℕ)
        → let registers = registers_of responses plan outside in
        let run = ports_run responses plan outside registers in
        let ports = wired_ports responses plan outside registers in
        IsMemoryPlan (plain_system plan) → HaveOneShape plan → AreViews (plain_system plan) run end → AreQuietPast plan outside → IsLegalRun (plain_system plan) run end
        → (room : ℕ → ℕ)
        × ArePlanned (plain_system plan) (boundaries_of ports) (wired_states responses plan outside registers room)
        × AreMachines responses (plain_system plan) run (boundaries_of ports)
        (wired_states responses plan outside registers room) end
        × AreRows (plain_system plan) run ports end }
{
    crate::plain::plain_systems_are_built();
    crate::built::memory_plans_are_planned()
}

/// A row of links has a run for all commands from above, and all waits and answers from below, whatever stands in it: a cutter of
/// bursts, a lane selector, a splitter or what gathers, what drops beats, and wires.
pub fn rows_run()
    ensures { (plan : RowPlan) (inputs : Inputs) (target : Target)
        → let registers = row_registers plan inputs in
        SuitsRow target plan
        → (cuts : CutsBursts (row_top plan inputs registers) (row_middle plan inputs registers))
        × (fits : FitsWords target (row_middle plan inputs registers) (row_low plan inputs registers))
        × DropsBeats target (row_low plan inputs registers) (row_bottom plan inputs registers)
        × GathersBelowCut cuts fits }
{
    memory_links::runs::cut_runs();
    memory_links::runs::select_runs();
    memory_links::runs::gather_runs();
    memory_links::runs::split_runs();
    memory_links::runs::drop_runs()
}

/// Systems with such rows run: whatever hosts and agents give, for each choice of links that suits the plan, every part is its
/// machine and every link too.
pub fn linked_systems_run()
    ensures { (responses : Responses) (plan : LinkPlan) (outside : Outside) (end : ℕ)
        → let registers = linked_registers responses plan outside in
        let run = linked_run responses plan outside registers in
        let ports = linked_ports responses plan outside registers in
        IsMemoryPlan plan.system → SuitsLinks plan → AreFitHosts plan.system outside end
        → ArePlanned plan.system (boundaries_of ports) (linked_states responses plan outside registers)
        × AreMachines responses plan.system run (boundaries_of ports) (linked_states responses plan outside registers) end
        × AreRows plan.system run ports end }
{
    memory_links::runs::cut_runs();
    memory_links::runs::select_runs();
    memory_links::runs::gather_runs();
    memory_links::runs::split_runs();
    memory_links::runs::drop_runs();
    memory_parts::runs::host_machine_runs();
    memory_parts::runs::route_machine_runs();
    memory_parts::runs::arbiter_machine_runs();
    memory_parts::runs::agent_machine_runs();
    memory_parts::plans::plans_suit_machines();
    crate::built::memory_plans_are_planned()
}

/// So each such system is safe and never idles, for each number of cycles, as long as its hosts and agents are legal.
pub fn linked_systems_are_awake()
    ensures safe { (responses : Responses) (plan : LinkPlan) (outside : Outside) (end : ℕ)
        → let run = linked_run responses plan outside (linked_registers responses plan outside) in
        IsMemoryPlan plan.system → SuitsLinks plan → AreFitHosts plan.system outside end → IsLegalRun plan.system run end
        → IsSafe responses plan.system run end }
    ensures awake { (responses : Responses) (plan : LinkPlan) (outside : Outside) (end : ℕ)
        → let run = linked_run responses plan outside (linked_registers responses plan outside) in
        IsMemoryPlan plan.system → SuitsLinks plan → AreFitHosts plan.system outside (end + 2) → IsLegalRun plan.system run (end + 2)
        → NeverIdles plan.system run end }
{
    linked_systems_run();
    machines_with_links_are_awake()
}

/// And it is fair where no host is joined to an agent twice, and no beats are dropped below a host with bursts and without byte
/// enables.
pub fn linked_systems_are_fair()
    ensures { (responses : Responses) (plan : LinkPlan) (outside : Outside) (end : ℕ)
        → let run = linked_run responses plan outside (linked_registers responses plan outside) in
        IsMemoryPlan plan.system → SuitsLinks plan → AreFitHosts plan.system outside end → IsLegalRun plan.system run end
        → ((agent : ℕ) → agent < plan.system.agents → IsTrue (are_apart (plan.system.joined agent)))
        → ((h a : ℕ) → a < plan.system.agents → IsTrue (is_joined plan.system a h) → IsFalse (plan.system.host h).has_enables
        → IsTrue (plan.system.host h).has_burst → IsFalse (plan.drops h a))
        → IsFair plan.system run end }
{
    linked_systems_run();
    machines_with_links_are_fair()
}

/// For each plan without stages that keeps the rules on connections and maps there are links that suit it: nothing that these
/// rules accept is left out.
pub fn plans_have_links()
    ensures { (system : System) → IsMemoryPlan system → system.stages ≡ 0 → SuitsLinks (links_for system) }
{}

/// So for each such plan there is a system of machines that is safe, never idles, and is fair where no host is joined to an agent
/// twice, whatever its hosts and agents give, as long as they are legal.
pub fn plans_are_served()
    ensures safe { (responses : Responses) (system : System) (outside : Outside) (end : ℕ)
        → let run = linked_run responses (links_for system) outside (linked_registers responses (links_for system) outside) in
        IsMemoryPlan system → system.stages ≡ 0 → AreFitHosts system outside end → IsLegalRun system run end
        → IsSafe responses system run end }
    ensures awake { (responses : Responses) (system : System) (outside : Outside) (end : ℕ)
        → let run = linked_run responses (links_for system) outside (linked_registers responses (links_for system) outside) in
        IsMemoryPlan system → system.stages ≡ 0 → AreFitHosts system outside (end + 2) → IsLegalRun system run (end + 2)
        → NeverIdles system run end }
    ensures fair { (responses : Responses) (system : System) (outside : Outside) (end : ℕ)
        → let run = linked_run responses (links_for system) outside (linked_registers responses (links_for system) outside) in
        IsMemoryPlan system → system.stages ≡ 0 → AreFitHosts system outside end → IsLegalRun system run end
        → ((agent : ℕ) → agent < system.agents → IsTrue (are_apart (system.joined agent)))
        → IsFair system run end }
{
    plans_have_links();
    linked_systems_are_awake();
    linked_systems_are_fair()
}
