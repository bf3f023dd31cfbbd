//! What a stage does of a beat that it is asked, whether or not words are owed.

ghost use Rattle.std.specs.Prelude.{◌<◌};
ghost use Rattle.memory_machines.specs.Machines.{Stage, above, below, RunsAsStage, WaitsOnlyWhenFull};
ghost use Rattle.memory_links.specs.Soon.{ShowsSoon};

/// A stage that takes a beat whenever there is room shows it below in the next cycle at the latest, and keeps nothing where it
/// shows nothing.
pub fn stage_shows_soon()
    ensures { (stage : Stage) → RunsAsStage stage → 0 < stage.depth → WaitsOnlyWhenFull stage
        → ShowsSoon (above stage) (below stage) }
{
    memory_machines::machines::stage_is_a_link();
    memory_machines::machines::stage_has_rank();
    memory_machines::machines::stage_is_later();
    memory_machines::machines::transfers_of_beats()
}
