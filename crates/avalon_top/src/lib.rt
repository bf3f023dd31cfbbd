//! The commands of the program: words, files, refusals, and the results that they write.
#![tactic(auto)]

mod answer;
mod bridge;
mod campaign;
mod dumped;
mod laws;
mod made;
mod outcome;
mod process;
mod simulate;
mod systems;

pub use answer::run;
pub use answer_lines::{Exit, StepRule};
pub use av_base::lines::Line;
pub use laws::files_call_for_one_answer;
pub use link_rules::LinkRule;
pub use process::status_of_process;
pub use scenario_runs::campaign_module;
pub use script_words::ScriptRule;
pub use task_words::{Task, read_words};
