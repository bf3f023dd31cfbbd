//! Machines that keep the law of a link: a stage, an expander and a lane selector.

ghost use Rattle.std.specs.Prelude.{suc, ◌≡◌, ◌<◌, ◌≤◌, ℕ, Bool, List};
ghost use Rattle.histories.specs.History.{IsPrefix};
ghost use Rattle.memory_runs.specs.Commands.{Burst};
ghost use Rattle.memory_runs.specs.Operations.{Beat, operations_of};
ghost use Rattle.memory_runs.specs.Views.{Shape};
ghost use Rattle.memory_machines.specs.Link.{Target, Port, KeepsLinkLaw, AreLegalAt, shown_at, taken_at};
ghost use Rattle.memory_machines.specs.Machines.{Raw, raws, marked, idle, Stage, above, below, RunsAsStage, WaitsOnlyWhenFull, owing_rank, Expands};
ghost use Rattle.memory_machines.specs.Machines.{ExpandsWhile, PartsCarryCommands, MaySplit, split_parts, operations_of_pieces, MaySelect, LiesInOneWord};
ghost use Rattle.memory_machines.specs.Machines.{select_of, MaySelectBeat, select_parts};
ghost use Rattle.memory_machines.specs.Rank.{LinkRankFalls};

/// A stage with a queue and an answer register is a link that holds what its queue holds.
pub fn stage_is_a_link()
    ensures { (stage : Stage) → RunsAsStage stage → (target : Target) (end : ℕ) → 0 < stage.shape.word_bytes
        → KeepsLinkLaw target stage.depth (above stage) (below stage) end }
{}

/// The transfers of a side are told by the list of beats that it has taken.
pub fn transfers_of_beats()
    ensures { (port : Port) (c : ℕ) → taken_at port c ≡ marked port.shape idle (raws port c) }
{}

/// A stage's commands go on no less than one cycle later.
pub fn stage_is_later()
    ensures { (stage : Stage) → RunsAsStage stage → (end : ℕ) → AreLegalAt (above stage) end → (c : ℕ)
        → c < end → IsPrefix (shown_at (below stage) (suc c)) (taken_at (above stage) c) }
{}

/// A stage that takes a command whenever there is room has a rank of at most 1.
pub fn stage_has_rank()
    ensures { (stage : Stage) → RunsAsStage stage → 0 < stage.depth → WaitsOnlyWhenFull stage
        → (target : Target) (end : ℕ) → AreLegalAt (above stage) end
        → LinkRankFalls target (above stage) (below stage) (owing_rank (below stage)) 1 end }
{}

/// A machine that sends each beat in parts carries commands and holds nothing, where the parts of a beat keep what `Expands`
/// says.
pub fn expander_carries()
    ensures { (target : Target) (wide narrow : Shape) (parts : Burst → Raw → List Raw) (stands : Burst → Bool)
        → ExpandsWhile target wide narrow parts stands → PartsCarryCommands target wide narrow parts }
{}

/// A wide beat has the operations of its pieces, in order.
pub fn beat_is_pieces()
    ensures { (wide narrow target : Shape) (span : ℕ) → 0 < target.word_bytes
        → narrow.word_bytes ≡ target.word_bytes → target.word_bytes ≤ wide.word_bytes → (beat : Beat)
        → operations_of wide target span beat ≡ operations_of_pieces wide narrow target span beat }
{}

/// A splitter of commands of one beat, from a wide host to narrow words with byte enables, carries commands and holds nothing.
pub fn split_carries()
    ensures { (target : Target) (wide narrow : Shape) (count : ℕ) → MaySplit target wide narrow count
        → PartsCarryCommands target wide narrow (split_parts wide narrow) }
{}

/// A narrow beat has the operations of the wide beat that holds its lanes.
pub fn beat_is_selected()
    ensures { (narrow wide target : Shape) (span : ℕ) → MaySelect narrow wide target → (beat : Beat)
        → LiesInOneWord narrow target beat.address beat.enables
        → operations_of narrow target span beat ≡ operations_of wide target span (select_of target.word_bytes beat) }
{}

/// What a lane selector sends for a command of one beat keeps what an expander needs, where the lanes lie in one wide word and
/// the byte enables fit their port.
pub fn select_expands()
    ensures { (target : Target) (narrow wide : Shape) (burst : Burst) (raw : Raw) (below : Burst)
        → MaySelectBeat target narrow wide burst raw below
        → Expands target narrow wide (select_parts narrow wide) burst raw below }
{}
