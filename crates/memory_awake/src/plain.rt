//! Plain systems, run on whatever their hosts and agents give: they are built as the theorem asks, so they never idle.

ghost use Rattle.std.specs.Prelude.{ℕ, ◌+◌};
ghost use Rattle.memory_runs.specs.Views.{Responses};
ghost use Rattle.memory_runs.specs.Plan.{IsMemoryPlan, AreViews};
ghost use Rattle.memory_runs.specs.Whole.{IsLegalRun, IsSafe};
ghost use Rattle.memory_runs.specs.Awake.{NeverIdles};
ghost use Rattle.memory_parts.specs.SystemRun.{PlainPlan, HaveOneShape, Outside, plain_system, registers_of, ports_run};
ghost use Rattle.memory_awake.specs.Theorem.{IsBuilt};
ghost use Rattle.memory_awake.specs.PlainSystem.{AreQuietPast, wire_ranks, wired_inside, wired_states};

/// A plain system of machines that are wired to one another is built as `IsBuilt` asks, whatever its hosts and agents give, as
/// long as they are legal.
pub fn plain_systems_are_built()
    ensures { (responses : Responses) (plan : PlainPlan) (outside : Outside) (end : ℕ)
        → let registers = registers_of responses plan outside in
        let run = ports_run responses plan outside registers in
        IsMemoryPlan (plain_system plan) → HaveOneShape plan → AreViews (plain_system plan) run end → AreQuietPast plan outside → IsLegalRun (plain_system plan) run end
        → (room : ℕ → ℕ)
        × IsBuilt responses (plain_system plan) run (wired_inside responses plan outside registers)
        (wired_states responses plan outside registers room) wire_ranks end }
{
    memory_parts::system::systems_of_machines_run();
    memory_parts::plans::plans_suit_machines();
    crate::built::memory_plans_are_planned();
    crate::built::machines_settle();
    crate::wires_keep_going();
    crate::stages_pass_on()
}

/// Such a system is safe and never idles, for each number of cycles.
pub fn plain_systems_are_awake()
    ensures safe { (responses : Responses) (plan : PlainPlan) (outside : Outside) (end : ℕ)
        → let run = ports_run responses plan outside (registers_of responses plan outside) in
        IsMemoryPlan (plain_system plan) → HaveOneShape plan → AreViews (plain_system plan) run end → AreQuietPast plan outside → IsLegalRun (plain_system plan) run end
        → IsSafe responses (plain_system plan) run end }
    ensures awake { (responses : Responses) (plan : PlainPlan) (outside : Outside) (end : ℕ)
        → let run = ports_run responses plan outside (registers_of responses plan outside) in
        IsMemoryPlan (plain_system plan) → HaveOneShape plan → AreViews (plain_system plan) run (end + 2) → AreQuietPast plan outside → IsLegalRun (plain_system plan) run (end + 2)
        → NeverIdles (plain_system plan) run end }
{
    plain_systems_are_built();
    crate::machines_are_awake()
}
