//! The parts as machines make a safe system.

ghost use Rattle.std.specs.Prelude.{ℕ};
ghost use Rattle.memory_runs.specs.Views.{Responses, System, Run};
ghost use Rattle.memory_runs.specs.Whole.{IsLegalRun, IsSafe};
ghost use Rattle.memory_machines.specs.Lines.{Inside};
ghost use Rattle.memory_runs.specs.Plan.{IsMemoryPlan, AreViews};
ghost use Rattle.memory_parts.specs.System.{States, Held, RunsAsMachines};
ghost use Rattle.memory_parts.specs.SystemRun.{PlainPlan, HaveOneShape, Outside, plain_system, registers_of, ports_run, inside_run, states_run};

/// Where every part is its machine and the components are legal, all that is promised at the ports holds, for any number of
/// hosts, agents and stages.
pub fn machines_are_safe()
    ensures { (responses : Responses) (system : System) (run : Run) (inside : Inside) (states : States) (held : Held) (end : ℕ)
        → RunsAsMachines responses system run inside states held end → IsLegalRun system run end
        → IsSafe responses system run end }
{
    memory_machines::lines::the_lines_give_the_headline();
    memory_machines::lines::tags_in_order();
    memory_runs::base_is_free()
}

/// A plain system of machines has a run, whatever its hosts and agents give in each of endlessly many cycles.
pub fn systems_of_machines_run()
    ensures { (responses : Responses) (plan : PlainPlan) (outside : Outside) (end : ℕ)
        → let registers = registers_of responses plan outside in
        let run = ports_run responses plan outside registers in
        IsMemoryPlan (plain_system plan) → HaveOneShape plan → AreViews (plain_system plan) run end
        → RunsAsMachines responses (plain_system plan) run (inside_run responses plan outside registers)
        (states_run responses plan outside registers) (record { links = 0; pipe = 0 }) end }
{
    memory_machines::wires::wire_is_a_row();
    memory_machines::lines::registers_are_a_pipe()
}
