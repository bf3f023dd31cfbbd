//! A pipe of any number of stages.

ghost use Rattle.std.specs.Prelude.{◌≡◌, suc, ◌<◌, ◌*◌, ℕ, replicate};
ghost use Rattle.memory_runs.specs.Views.{System};
ghost use Rattle.memory_machines.specs.Link.{Target, AreLegalAt};
ghost use Rattle.memory_machines.specs.Lines.{IsPipeLine};
ghost use Rattle.memory_machines.specs.Straight.{KeepsShowing};
ghost use Rattle.memory_machines.specs.Machines.{Stage, above, below, RunsAsStage, WaitsOnlyWhenFull, owing_rank};
ghost use Rattle.memory_links.specs.Going.{KeepsGoing, RowGoesOn};
ghost use Rattle.memory_links.specs.Links.{IsLink};
ghost use Rattle.memory_links.specs.Pipes.{PipeSides, RunsAsPipe, side_of, tagged_side, stage_pace, stage_form, HoldsFewBeats};

/// Each stage of a pipe goes on with a rank of at most 1, and two beats wait in it at most.
pub fn stages_go_on()
    ensures { (stages : ℕ) (pipe : PipeSides) → RunsAsPipe stages pipe → (target : Target) (end : ℕ) → 0 < pipe.shape.word_bytes
        → AreLegalAt (side_of pipe 0) end
        → RowGoesOn target end (replicate stages stage_pace) (side_of pipe 0) (side_of pipe stages) }
{
    memory_machines::machines::stage_is_a_link();
    memory_machines::machines::stage_has_rank();
    memory_machines::machines::stage_is_later();
    memory_machines::machines::transfers_of_beats()
}

/// A stage of any depth keeps going, with a rank of at most 1.
pub fn stage_keeps_going()
    ensures { (stage : Stage) → RunsAsStage stage → 0 < stage.depth → WaitsOnlyWhenFull stage → (target : Target) (end : ℕ)
        → AreLegalAt (above stage) end → AreLegalAt (below stage) end
        → KeepsGoing target (above stage) (below stage) (owing_rank (below stage)) 1 end }
{
    memory_machines::machines::stage_is_a_link();
    memory_machines::machines::stage_has_rank();
    memory_machines::machines::stage_is_later();
    memory_machines::machines::transfers_of_beats()
}

/// A stage is a link by itself.
pub fn stage_is_a_link()
    ensures { (pipe : PipeSides) → RunsAsPipe 1 pipe → (target : Target) (end : ℕ) → 0 < pipe.shape.word_bytes
        → IsLink (stage_form target) (side_of pipe 0) (side_of pipe 1) end }
{
    memory_machines::links::link_is_a_row();
    memory_machines::machines::stage_is_a_link();
    memory_machines::machines::stage_has_rank();
    memory_machines::machines::stage_is_later();
    memory_machines::machines::transfers_of_beats()
}

/// A stage of any depth keeps the line of a pipe of one stage, and holds as many beats as it has places.
pub fn stage_keeps_its_line()
    ensures { (stage : Stage) (above_tag below_tag : ℕ → ℕ) → RunsAsStage stage → ((c : ℕ) → above_tag (suc c) ≡ below_tag c)
        → 0 < stage.shape.word_bytes
        → (system : System) (agent end : ℕ)
        → IsPipeLine system agent stage.depth 1 (record { port = above stage; answer_tag = above_tag })
        (record { port = below stage; answer_tag = below_tag }) end }
{
    memory_machines::machines::stage_is_a_link();
    memory_machines::machines::stage_has_rank();
    memory_machines::machines::stage_is_later();
    memory_machines::machines::transfers_of_beats()
}

/// A pipe keeps its line, holds two beats for each stage, and shows a beat soon while some beat isn't taken below.
pub fn pipe_keeps_its_line()
    ensures line { (stages : ℕ) (pipe : PipeSides) → RunsAsPipe stages pipe → 0 < pipe.shape.word_bytes
        → (system : System) (agent end : ℕ)
        → IsPipeLine system agent (2 * stages) stages (tagged_side pipe 0) (tagged_side pipe stages) end }
    ensures showing { (stages : ℕ) (pipe : PipeSides) → RunsAsPipe stages pipe → (end : ℕ) → AreLegalAt (side_of pipe 0) end
        → KeepsShowing stages (side_of pipe 0) (side_of pipe stages) end }
    ensures few { (stages : ℕ) (pipe : PipeSides) → RunsAsPipe stages pipe
        → HoldsFewBeats stages (side_of pipe 0) (side_of pipe stages) }
{
    memory_machines::lines::registers_are_a_pipe();
    memory_machines::machines::stage_is_a_link();
    memory_machines::machines::stage_has_rank();
    memory_machines::machines::stage_is_later();
    memory_machines::machines::transfers_of_beats()
}
