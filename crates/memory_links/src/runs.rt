//! Runs of the machines exist for all that is shown to them.

ghost use Rattle.memory_links.specs.Driven.{SelectInputs, PipeInputs, SplitInputs, select_above, select_below, select_queue, pipe_run, split_above, split_below, split_state};
ghost use Rattle.memory_links.specs.Driven.{CutInputs, cut_above, cut_below, cut_state};
ghost use Rattle.memory_links.specs.Driven.{DropInputs, drop_above, drop_below, drop_state};
ghost use Rattle.memory_links.specs.DrivenGather.{GatherInputs, gather_above, gather_below, gather_state};
ghost use Rattle.memory_links.specs.Cutters.{RunsAsCutter};
ghost use Rattle.memory_links.specs.Drops.{RunsAsDrop};
ghost use Rattle.memory_links.specs.Gathers.{RunsAsGather};
ghost use Rattle.memory_links.specs.Pipes.{RunsAsPipe};
ghost use Rattle.memory_links.specs.Selects.{RunsAsSelect};
ghost use Rattle.memory_links.specs.Splits.{RunsAsSplit};

/// There is a run of a lane selector for all commands, waits and answers.
pub fn select_runs()
    ensures { (given : SelectInputs) → RunsAsSelect given.room (select_above given) (select_below given) (select_queue given) }
{}

/// There is a run of a pipe of any number of stages for all commands, waits and answers.
pub fn pipe_runs()
    ensures { (given : PipeInputs) → RunsAsPipe given.stages (pipe_run given) }
{}

/// There is a run of a splitter for all commands, waits and answers.
pub fn split_runs()
    ensures { (given : SplitInputs) → RunsAsSplit given.room (split_above given) (split_below given) (split_state given) }
{}

/// There is a run of what keeps beats without a lane from an agent, for all commands, waits and answers.
pub fn drop_runs()
    ensures { (given : DropInputs) → RunsAsDrop given.room (drop_above given) (drop_below given) (drop_state given) }
{}

/// There is a run of a cutter of bursts for all commands, waits and answers.
pub fn cut_runs()
    ensures { (given : CutInputs) → RunsAsCutter given.reach given.longest (cut_above given) (cut_below given) (cut_state given) }
{}

/// There is a run of what gathers for all commands, waits and answers.
pub fn gather_runs()
    ensures { (given : GatherInputs) → RunsAsGather given.room (gather_above given) (gather_below given) (gather_state given) }
{}
