//! From the files of a simulation to one that is ready to run.

ghost use Rattle.std.specs.Prelude.{◌≡◌, ◌^◌, ◌<◌, ◌≤◌, All, length, IfOk, IfErr};
ghost use Rattle.task_words.specs.declared.Task.TheVariants.{Simulate};
ghost use Rattle.avalon_top.specs.Simulate.{answer_of_simulation};
ghost use Rattle.avalon_top.specs.Loading.{StopsFiles};
ghost use Rattle.avalon_top.specs.Outcome.{IsSimulation};

use crate::systems::{SECOND, answer_of_system};
use answer_lines::{Exit, StepRule};
use av_base::Bytes;
use scenario_runs::{Prepared, SimulateFault, prepare, simulated_or_refused};
use std::alloc::Global;
use task_words::Task;

/// The answer to a simulation that is refused.
fn answer_of(fault: SimulateFault) -> Exit
    ensures { result ≡ answer_of_simulation fault }
{
    match fault {
        SimulateFault::SystemRefused { refusal } => answer_of_system(Task::Simulate, refusal),
        SimulateFault::ScenarioRefused { line, rule } => Exit::ScenarioRefused {
            file: 2,
            line,
            rule: StepRule::Scenario(rule.number()),
        },
        SimulateFault::TooManyValues { count } => Exit::Limit { which: 6, count },
        SimulateFault::NoMemory => Exit::NoMemory,
    }
}

/// A simulation of the scenario among files on the system of the others, or the answer that the files call for.
pub(crate) fn simulation(alloc: Global, mut files: Vec<Bytes>) -> Result<Prepared, Exit>
    requires some { 2 ≤ length files.items }
    requires few { length files.items ≤ 64 }
    requires short { All (λ bytes. length bytes < 2 ^ 31) files.items }
    ensures stops { IfErr result (StopsFiles Simulate files.items) }
    ensures prepared { IfOk result (IsSimulation Simulate files.items) }
{
    simulated_or_refused();
    let scenario = files.remove(SECOND);
    match prepare(alloc, files.as_slice(), scenario.as_slice()) {
        Ok(prepared) => Ok(prepared),
        Err(fault) => Err(answer_of(fault)),
    }
}
