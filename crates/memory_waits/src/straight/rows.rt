//! Rows of links that are but wires.

ghost use Rattle.std.specs.Prelude.{ℕ, Bool};
ghost use Rattle.memory_machines.specs.Link.{Port, Target};
ghost use Rattle.memory_machines.specs.Straight.{GoesStraightThrough, IsShownPromptly};
ghost use Rattle.memory_awake.specs.Rows.{IsWired};

/// Through a row of wires, as it leads from a host to an agent that is alike, plain commands go straight also while words are
/// owed, and first beats are shown in their own cycle.
pub fn wired_rows_are_straight()
    ensures straight { (ahead : ℕ → Bool) (target : Target) (top middle low down : Port) (end : ℕ) → IsWired top middle
        → IsWired middle low → IsWired low down
        → GoesStraightThrough ahead target top down end }
    ensures prompt { (few : ℕ) (may_burst : Bool) (target : Target) (top middle low down : Port) (end : ℕ) → IsWired top middle
        → IsWired middle low → IsWired low down
        → IsShownPromptly few may_burst target top down end }
{
    memory_machines::wires::wire_is_straight()
}
