//! The stages of a pipe, as systems of machines number them: boundary 0 is the lowest, stage 0 stands above it.

ghost use Rattle.std.specs.Prelude.{◌≡◌, ℕ, suc, ◌<◌};
ghost use Rattle.memory_links.specs.Pipes.{PipeSides, RunsAsPipe, tagged_side};
ghost use Rattle.memory_awake.specs.PipeStages.{lower_of, stage_of};
ghost use Rattle.memory_awake.specs.Theorem.{IsStageBetween};

/// The stages of a pipe stand between its boundaries, as a system of machines asks.
pub fn pipes_have_stages()
    ensures stages { (stages : ℕ) (pipe : PipeSides) → RunsAsPipe stages pipe
        → (i : ℕ) → i < stages → IsStageBetween (stage_of stages pipe i) (lower_of stages pipe (suc i)) (lower_of stages pipe i) }
    ensures highest { (stages : ℕ) (pipe : PipeSides) → lower_of stages pipe stages ≡ tagged_side pipe 0 }
    ensures lowest { (stages : ℕ) (pipe : PipeSides) → lower_of stages pipe 0 ≡ tagged_side pipe stages }
{}
