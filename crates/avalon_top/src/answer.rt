ghost use Rattle.std.specs.Prelude.{◌≡◌, ℕ, ◌^◌, ◌<◌, ◌≤◌, [], ◌∷◌, ◌++◌, length, map, string_bytes, All, OnOk, IfOk, IfErr};
ghost use Rattle.av_files.specs.Outside.{WhereTold};
ghost use Rattle.answer_lines.specs.Lines.{line_of};
ghost use Rattle.task_words.specs.Words.{AreItsFiles, named_by};
ghost use Rattle.avalon_top.specs.Bridge.{HasBridgeCycles};
ghost use Rattle.avalon_top.specs.Run.{reads_by, writes_by, Reads, Writes, most_bytes, AreFiles, Answers, IsComplete, IsRefusal, WritesLine, IsResult, answer_of};
ghost use Rattle.avalon_top.specs.Loading.{StopsAtFile, StopsFiles, StopsLoading, Stops};
ghost use Rattle.avalon_top.specs.Outcome.{IsOutcome, IsOutcomeOf};

use crate::bridge::replies_of;
use crate::campaign::campaign;
use crate::dumped::{dump_files, undump_file};
use crate::made::{interconnect_text, module_text};
use crate::outcome::{Outcome, refuse, write_outcome};
use crate::simulate::simulation;
use answer_lines::{Exit, StepRule};
use av_base::{Bytes, NoMemory};
use av_files::{LoadFault, Shelf, Sink, load_all};
use map_text::map_text;
use replays::{ReplayFault, replay, texts_are_replayed_or_refused};
use scenario_runs::workload_text;
use std::alloc::Global;
use system_plan::{accepted_or_refused, plan_of};
use task_words::{Task, file_words, named_by, read_words};

/// The most bytes of a Verilog text.
const TEXT_LIMIT: u64 = 268_435_456;

/// The most bytes of a value change dump.
const DUMP_LIMIT: u64 = 16_777_216;

/// The most bytes of a script, and of waves.
const FILE_LIMIT: u64 = 1_048_576;

/// The most files of a run.
const MOST_FILES: usize = 64;

/// The most nets of a text that is replayed.
const MOST_NETS: u64 = 1_048_576;

/// The most bytes that are read of this file of a task.
fn most_bytes(task: Task, file: u32) -> u64
    ensures limit { result ≡ most_bytes task file }
    ensures small { result ≤ 268435456 }
{
    match task {
        Task::Replay | Task::Dump if file == 1 => TEXT_LIMIT,
        Task::Undump => DUMP_LIMIT,
        _ => FILE_LIMIT,
    }
}

/// Loads this file of a task, counted from 1.
fn load<S: Shelf>(alloc: Global, shelf: &mut S, task: Task, file: u32) -> Result<Bytes, Exit>
    requires { file ≤ 65 }
    ensures stops { IfErr result (StopsAtFile task file (reads_by S.told S.faults S.failed shelf.old shelf.new)) }
    ensures loaded { IfOk result (λ bytes. WhereTold (S.told shelf.old (named_by task file)) (λ told. bytes ≡ told)) }
    ensures short { IfOk result (λ bytes. length bytes ≤ most_bytes task file) }
    ensures grows { S.faults shelf.old ≤ S.faults shelf.new }
    ensures below { S.faults shelf.new < 2 ^ 64 }
    ensures told { (k : ℕ) → S.told shelf.new k ≡ S.told shelf.old k }
{
    let limit = most_bytes(task, file);
    let word = named_by(task, file);
    match load_all(alloc, shelf, word, limit) {
        Ok(bytes) => Ok(bytes),
        Err(LoadFault::ReadFault) => Err(Exit::ReadFault { file: word }),
        Err(LoadFault::TooLong) => Err(Exit::Limit {
            which: 5,
            count: limit + 1,
        }),
        Err(LoadFault::NoMemory) => Err(Exit::NoMemory),
    }
}

fn push_file(files: &mut Vec<Bytes>, bytes: Bytes) -> Result<(), NoMemory>
    ensures { OnOk result (files.new.items ≡ files.old.items ++ bytes ∷ []) }
{
    files.push(bytes)?;
    Ok(())
}

/// Loads the files of so many words of a task, in their order.
fn load_files<S: Shelf>(
    alloc: Global,
    shelf: &mut S,
    task: Task,
    words: usize,
) -> Result<Vec<Bytes>, Exit>
    requires some { 1 ≤ words }
    requires few { words ≤ 65 }
    ensures stops { IfErr result (StopsLoading task words (reads_by S.told S.faults S.failed shelf.old shelf.new)) }
    ensures loaded { IfOk result (λ files. AreFiles task (S.told shelf.old) words files.items) }
    ensures grows { S.faults shelf.old ≤ S.faults shelf.new }
    ensures below { S.faults shelf.old < 2 ^ 64 → S.faults shelf.new < 2 ^ 64 }
    ensures told { (k : ℕ) → S.told shelf.new k ≡ S.told shelf.old k }
{
    let mut files = Vec::new(alloc);
    for file in 1..words {
        let bytes = load(alloc, shelf, task, file as u32)?;
        push_file(&mut files, bytes)?;
    }
    Ok(files)
}

/// The text of the interconnect of the system that files state, or the answer that they call for.
fn generate(alloc: Global, files: &[Bytes]) -> Result<Bytes, Exit>
    requires some { 1 ≤ length files.now }
    requires few { length files.now ≤ 64 }
    requires short { All (λ bytes. length bytes < 2 ^ 31) files.now }
    ensures stops { IfErr result (StopsFiles Task.Generate files.now) }
    ensures result { IfOk result (IsResult Task.Generate files.now) }
{
    accepted_or_refused();
    let plan = plan_of(alloc, files)?;
    Ok(interconnect_text(alloc, &plan)?)
}

/// The text of its maps, or the answer that the files call for.
fn check(alloc: Global, files: &[Bytes]) -> Result<Bytes, Exit>
    requires some { 1 ≤ length files.now }
    requires few { length files.now ≤ 64 }
    requires short { All (λ bytes. length bytes < 2 ^ 31) files.now }
    ensures stops { IfErr result (StopsFiles Task.Check files.now) }
    ensures result { IfOk result (IsResult Task.Check files.now) }
{
    accepted_or_refused();
    let plan = plan_of(alloc, files)?;
    Ok(map_text(alloc, &plan)?)
}

/// The answer to a replay that is refused.
pub(crate) fn answer_of(fault: ReplayFault) -> Exit
    ensures { result ≡ answer_of fault }
{
    match fault {
        ReplayFault::TextRefused { byte, rule } => Exit::VerilogRefused { byte, rule },
        ReplayFault::TooManyNets => Exit::Limit {
            which: 4,
            count: MOST_NETS + 1,
        },
        ReplayFault::WavesRefused { line, rule } => Exit::ScenarioRefused {
            file: 2,
            line,
            rule: StepRule::Waves(rule.number()),
        },
        ReplayFault::TooManyValues { count } => Exit::Limit { which: 6, count },
        ReplayFault::NoMemory => Exit::NoMemory,
    }
}

/// What stands at the outputs of the module of a text in each cycle of waves, or the answer that the two files call for.
fn replay_files(alloc: Global, files: &[Bytes]) -> Result<Bytes, Exit>
    requires { length files.now ≡ 2 }
    ensures stops { IfErr result (StopsFiles Task.Replay files.now) }
    ensures result { IfOk result (IsResult Task.Replay files.now) }
{
    texts_are_replayed_or_refused();
    match replay(alloc, files[0].as_slice(), files[1].as_slice()) {
        Ok(text) => Ok(text),
        Err(fault) => Err(answer_of(fault)),
    }
}

/// The line of a workload.
fn workload(alloc: Global, number: u32) -> Result<Bytes, Exit>
    ensures stops { IfErr result (StopsFiles (Task.Workload number) []) }
    ensures result { IfOk result (IsResult (Task.Workload number) []) }
{
    Ok(workload_text(alloc, number)?)
}

/// What a task is to write of files, or the answer that they call for.
fn outcome_of(alloc: Global, task: Task, files: Vec<Bytes>) -> Result<Outcome, Exit>
    requires enough { AreItsFiles task (length files.items) }
    requires cycles { HasBridgeCycles task }
    requires few { length files.items ≤ 64 }
    requires short { All (λ bytes. length bytes < 2 ^ 31) files.items }
    ensures stops { IfErr result (StopsFiles task files.items) }
    ensures outcome { IfOk result (IsOutcome task files.items) }
{
    let text = match task {
        Task::Simulate => return Ok(Outcome::Trace(simulation(alloc, files)?)),
        Task::Campaign { number } => {
            return Ok(Outcome::Counted(campaign(alloc, files.as_slice(), number)?));
        }
        Task::Bridge { cycles } => {
            return Ok(Outcome::Replies(replies_of(alloc, files, cycles)?));
        }
        Task::Generate => generate(alloc, files.as_slice())?,
        Task::Check => check(alloc, files.as_slice())?,
        Task::Replay => replay_files(alloc, files.as_slice())?,
        Task::Dump => dump_files(alloc, files.as_slice())?,
        Task::Undump => undump_file(alloc, files.as_slice())?,
        Task::Workload { number } => workload(alloc, number)?,
        Task::Module { wanted } => module_text(alloc, wanted)?,
    };
    Ok(Outcome::Text(text))
}

/// All that comes before a result is written: what is to be written, or the refusal.
fn decide<S: Shelf>(alloc: Global, words: &[String], shelf: &mut S) -> Result<Outcome, Exit>
    ensures stops { IfErr result (Stops (map string_bytes words.now) (reads_by S.told S.faults S.failed shelf.old shelf.new)) }
    ensures outcome { IfOk result
        (IsOutcomeOf (map string_bytes words.now) (reads_by S.told S.faults S.failed shelf.old shelf.new)) }
    ensures grows { S.faults shelf.old ≤ S.faults shelf.new }
    ensures below { S.faults shelf.old < 2 ^ 64 → S.faults shelf.new < 2 ^ 64 }
    ensures told { (k : ℕ) → S.told shelf.new k ≡ S.told shelf.old k }
{
    let Some(task) = read_words(words) else {
        return Err(Exit::Usage);
    };
    let named = file_words(task, words.len());
    let files = named - 1;
    if files > MOST_FILES {
        return Err(Exit::Limit {
            which: 7,
            count: files as u64,
        });
    }
    let files = load_files(alloc, shelf, task, named)?;
    outcome_of(alloc, task, files)
}

/// Runs the words after the program's name over the files of a shelf, and writes to a sink the result, or the line of a refusal.
///
/// The number of a file is the place of its word, counted from 0.
pub fn run<S: Shelf, K: Sink>(alloc: Global, words: &[String], shelf: &mut S, sink: &mut K) -> Exit
    // When each answer comes. At `Done` of `generate` the text of a module, and of no other, is written that serves each stream
    // of the plan, and its hosts and agents, in every run. At `Done` of `replay` what is written stands at the outputs of the
    // module of the text, in each cycle of the waves, and at `Done` of `dump` it is the dump of what stands at all of its ports.
    // At `Done` of `undump` it is the rows of the one dump whose text the file is. At `Done` of `simulate` it is the trace of a
    // run of such a module with what the scenario states; at `Done` of `campaign` it tells what is counted in eight such runs,
    // each with what is drawn for its lane; at `Done` of `workload` what is counted in one of the workload system of the number.
    // At `Done` of `bridge` it is the replies to the transactions whose beats were accepted and words given in such a run, with
    // these words. At `Done` of `mux`, `demux` and `gather` the text of a module is written that does so in every run.
    ensures answers { Answers (map string_bytes words.now)
        (record { told = S.told shelf.old; before = S.faults shelf.old; after = S.faults shelf.new; failed = S.failed shelf.new })
        (record
        { held = K.held sink.old; holds = K.held sink.new; before = K.faults sink.old; after = K.faults sink.new }) result }

    // A refusal writes its line and nothing of a result.
    ensures line { IsRefusal result → WritesLine (line_of result)
        (record { held = K.held sink.old; holds = K.held sink.new; before = K.faults sink.old; after = K.faults sink.new }) }

    // Where nothing fails, the answer is the one that the files call for, or memory was wanted.
    ensures complete { IsComplete (map string_bytes words.now)
        (record { told = S.told shelf.old; before = S.faults shelf.old; after = S.faults shelf.new; failed = S.failed shelf.new })
        (record
        { held = K.held sink.old; holds = K.held sink.new; before = K.faults sink.old; after = K.faults sink.new }) result }

    // What the shelf tells stays as it is. No count falls, or goes past its last value.
    ensures told { (k : ℕ) → S.told shelf.new k ≡ S.told shelf.old k }
    ensures reads_grow { S.faults shelf.old ≤ S.faults shelf.new }
    ensures reads_below { S.faults shelf.old < 2 ^ 64 → S.faults shelf.new < 2 ^ 64 }
    ensures writes_grow { K.faults sink.old ≤ K.faults sink.new }
    ensures writes_below { K.faults sink.old < 2 ^ 64 → K.faults sink.new < 2 ^ 64 }
{
    match decide(alloc, words, shelf) {
        Ok(outcome) => write_outcome(alloc, outcome, sink),
        Err(exit) => {
            refuse(sink, &exit);
            exit
        }
    }
}
