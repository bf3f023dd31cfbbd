//! The files of a system among those of a task, and the words that name them.

ghost use Rattle.std.specs.Prelude.{◌≡◌, ◌≤◌};
ghost use Rattle.avalon_top.specs.Systems.{words_before, word_of_file, by_words, answer_of_system};

use answer_lines::Exit;
use av_base::Place;
use system_plan::Refusal;
use task_words::Task;

/// The place among the files of a task, from 0, of the one that is no file of its system.
pub(crate) const SECOND: usize = 1;

/// How many words stand before this file of a task's system that are none of its words.
fn words_before(task: Task, file: u32) -> u32
    ensures { result ≡ words_before task file }
{
    match task {
        Task::Simulate if file < 2 => 0,
        Task::Simulate => 1,
        Task::Campaign { .. } => 1,
        Task::Bridge { .. } if file < 2 => 1,
        Task::Bridge { .. } => 2,
        _ => 0,
    }
}

/// The word that names this file of a task's system.
fn word_of_file(task: Task, file: u32) -> u32
    ensures { result ≡ word_of_file task file }
{
    file.saturating_add(words_before(task, file))
}

/// What refuses the system of a task, at the word that names the file.
fn by_words(task: Task, refusal: Refusal) -> Refusal
    ensures { result ≡ by_words task refusal }
{
    match refusal {
        Refusal::Script { place, rule } => {
            let file = word_of_file(task, place.file);
            Refusal::Script {
                place: Place { file, ..place },
                rule,
            }
        }
        _ => refusal,
    }
}

/// The answer to a task whose system is refused.
pub(crate) fn answer_of_system(task: Task, refusal: Refusal) -> Exit
    ensures { result ≡ answer_of_system task refusal }
{
    Exit::from(by_words(task, refusal))
}
