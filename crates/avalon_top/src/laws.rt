//! What holds of every list of files.

ghost use Rattle.std.specs.Prelude.{ℕ, List, length};
ghost use Rattle.answer_lines.specs.declared.exit.Exit.{Exit as Answer};
ghost use Rattle.task_words.specs.declared.Task.{Task as Asked};
ghost use Rattle.task_words.specs.Words.{AreItsFiles};
ghost use Rattle.avalon_top.specs.Run.{IsOnlyAnswer};

use replays::texts_are_replayed_or_refused;
use scenario_runs::bridges::bridged_or_refused;
use scenario_runs::simulated_or_refused;
use system_plan::accepted_or_refused;
use vcd_reader::undumps::dumps_are_written_or_refused;

/// The files of a task call for one answer and for no other.
pub fn files_call_for_one_answer()
    ensures { (task : Asked) (files : List (List ℕ)) → AreItsFiles task (length files)
        → (answer : Answer) × IsOnlyAnswer task files answer }
{
    accepted_or_refused();
    texts_are_replayed_or_refused();
    simulated_or_refused();
    bridged_or_refused();
    dumps_are_written_or_refused();
}
