//! The words of a command line, and the task that they ask for.
#![tactic(auto)]

pub mod routed;

ghost use Rattle.std.specs.Prelude.{◌≡◌, ◌↔◌, ℕ, ◌≤◌, map, string_bytes, MatchOption, IsTrue, All};
ghost use Rattle.task_words.specs.declared.Task.{Task as Asked};
ghost use Rattle.task_words.specs.declared.Task.TheVariants.{Bridge};
ghost use Rattle.task_words.specs.Words.{IsPlainWord, AsksFor, AsksForNothing, Names, NamesNothing, IsBare, HasNumber, IsWordOf, StatesNumber, AreBridgeCycles, AreEnough, BeginsWithModule, file_words, named_by};

use crate::routed::{are_words_of, is_module_word, number_of, read_routed};
use routed_modules::Routed;

/// The most cycles of a bridge.
const MOST_CYCLES: u32 = 65_536;

/// What the words ask for. A file is named by the place of its word, from 0: word 1 is the system file, each further word a
/// component file, where word 2 of a simulation is its scenario. Of a replay, and where it is dumped, word 1 is the Verilog text
/// and word 2 the waves. Word 1 of a campaign and of a bridge is its number, so its files begin with word 2, and word 3 of a
/// bridge is its transactions.
#[derive(Clone, Copy, Debug, PartialEq, Eq)]
pub enum Task {
    /// Write the Verilog text of the system's interconnect.
    Generate,
    /// Write the maps of the system.
    Check,
    /// Write what is done at the interfaces of the system where a scenario is run on its interconnect.
    Simulate,
    /// Write what stands at the outputs of a module in each cycle of waves.
    Replay,
    /// Write what stands at all ports of a module in each cycle of waves, as a value change dump.
    Dump,
    /// Write the rows of a value change dump.
    Undump,
    /// Write what is counted in eight lanes of the system, each on the scenario that is drawn for it and this number.
    Campaign { number: u32 },
    /// Write the replies to the transactions of a file, which host 0 of the system makes in so many cycles.
    Bridge { cycles: u32 },
    /// Write what is counted of the workload of this number.
    Workload { number: u32 },
    /// Write the Verilog text of a module that leads beats by their channels.
    Module { wanted: Routed },
}

/// Reads the words after the program's name.
pub fn read_words(words: &[String]) -> Option<Task>
    ensures { MatchOption result (AsksForNothing (map string_bytes words.now)) (AsksFor (map string_bytes words.now)) }
{
    let Some(task) = task_of(words) else {
        return None;
    };
    if are_enough(task, words.len()) && are_plain(words) {
        Some(task)
    } else {
        None
    }
}

/// The task whose word stands first, with its numbers.
fn task_of(words: &[String]) -> Option<Task>
    ensures { MatchOption result (NamesNothing (map string_bytes words.now)) (Names (map string_bytes words.now)) }
{
    let [first, ..] = words else {
        return None;
    };
    let word = first.as_str();
    if is_module_word(word) {
        return module_of(words);
    }
    if let Some(task) = bare_task(word) {
        return Some(task);
    }
    let Some(number) = number_behind(words) else {
        return None;
    };
    numbered_task(word, number)
}

/// The module that words ask for.
fn module_of(words: &[String]) -> Option<Task>
    requires { BeginsWithModule (map string_bytes words.now) }
    ensures { MatchOption result (NamesNothing (map string_bytes words.now)) (Names (map string_bytes words.now)) }
{
    let Some(wanted) = read_routed(words) else {
        return None;
    };
    Some(Task::Module { wanted })
}

/// The task of a word, where no numbers stand behind it.
fn bare_task(word: &str) -> Option<Task>
    ensures { MatchOption result ((task : Asked) → ¬ IsWordOf IsBare word.now task) (IsWordOf IsBare word.now) }
{
    if word == "generate" {
        Some(Task::Generate)
    } else if word == "check" {
        Some(Task::Check)
    } else if word == "simulate" {
        Some(Task::Simulate)
    } else if word == "replay" {
        Some(Task::Replay)
    } else if word == "dump" {
        Some(Task::Dump)
    } else if word == "undump" {
        Some(Task::Undump)
    } else {
        None
    }
}

/// The number behind the first word.
fn number_behind(words: &[String]) -> Option<u32>
    ensures { MatchOption result ((n : ℕ) → ¬ StatesNumber (map string_bytes words.now) n)
        (StatesNumber (map string_bytes words.now)) }
{
    let [_, number, ..] = words else {
        return None;
    };
    number_of(number.as_str())
}

/// The task of a word with one number.
fn numbered_task(word: &str, number: u32) -> Option<Task>
    ensures { MatchOption result ((task : Asked) → ¬ IsWordOf (HasNumber number) word.now task)
        (IsWordOf (HasNumber number) word.now) }
{
    if word == "campaign" {
        Some(Task::Campaign { number })
    } else if word == "bridge" {
        bridge_of(number)
    } else if word == "workload" {
        Some(Task::Workload { number })
    } else {
        None
    }
}

/// The bridge of so many cycles.
fn bridge_of(cycles: u32) -> Option<Task>
    ensures { MatchOption result (¬ AreBridgeCycles cycles) (λ task. (task ≡ Bridge cycles) × AreBridgeCycles cycles) }
{
    if 1 <= cycles && cycles <= MOST_CYCLES {
        Some(Task::Bridge { cycles })
    } else {
        None
    }
}

/// Whether a task has so many words.
fn are_enough(task: Task, words: usize) -> bool
    ensures { IsTrue result ↔ AreEnough task words }
{
    match task {
        Task::Generate | Task::Check => words >= 2,
        Task::Simulate => words >= 3,
        Task::Replay | Task::Dump => words == 3,
        Task::Campaign { .. } => words >= 3,
        Task::Bridge { .. } => words >= 4,
        Task::Undump | Task::Workload { .. } => words == 2,
        Task::Module { wanted } => are_words_of(wanted, words),
    }
}

/// How many of so many words of a task are its word and the names of files.
pub fn file_words(task: Task, words: usize) -> usize
    requires { AreEnough task words }
    ensures same { result ≡ file_words task words }
    ensures some { 1 ≤ result }
    ensures few { result ≤ words }
{
    match task {
        Task::Campaign { .. } | Task::Bridge { .. } => words - 1,
        Task::Workload { .. } | Task::Module { .. } => 1,
        _ => words,
    }
}

/// The word that names this file of a task, where files are counted from 1.
pub fn named_by(task: Task, file: u32) -> u32
    requires { file ≤ 65 }
    ensures { result ≡ named_by task file }
{
    match task {
        Task::Campaign { .. } | Task::Bridge { .. } => file + 1,
        _ => file,
    }
}

fn are_plain(words: &[String]) -> bool
    ensures { IsTrue result ↔ All (λ word. IsPlainWord (string_bytes word)) words.now }
{
    words.iter().all(|word| is_plain_word(word.as_str()))
}

fn is_plain_word(word: &str) -> bool
    ensures { IsTrue result ↔ IsPlainWord word.now }
{
    match word.as_bytes() {
        [] => false,
        [first, ..] => *first != b'-',
    }
}
