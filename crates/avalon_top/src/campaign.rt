//! From the files of a campaign to one that is ready to run.

ghost use Rattle.std.specs.Prelude.{◌≡◌, ◌^◌, ◌<◌, ◌≤◌, All, length, IfOk, IfErr};
ghost use Rattle.task_words.specs.declared.Task.TheVariants.{Campaign as CampaignOf};
ghost use Rattle.avalon_top.specs.Loading.{StopsFiles};
ghost use Rattle.avalon_top.specs.Outcome.{IsReadyCampaign};

use crate::systems::answer_of_system;
use answer_lines::Exit;
use av_base::Bytes;
use scenario_runs::{Campaign, prepare_campaign};
use std::alloc::Global;
use system_plan::accepted_or_refused;
use task_words::Task;

/// The campaign of a number on the system of files, or the answer that the files call for.
pub(crate) fn campaign(alloc: Global, files: &[Bytes], number: u32) -> Result<Campaign, Exit>
    requires some { 1 ≤ length files.now }
    requires few { length files.now ≤ 64 }
    requires short { All (λ bytes. length bytes < 2 ^ 31) files.now }
    ensures stops { IfErr result (StopsFiles (CampaignOf number) files.now) }
    ensures campaign { IfOk result (IsReadyCampaign (CampaignOf number) files.now) }
{
    accepted_or_refused();
    match prepare_campaign(alloc, files, number) {
        Ok(campaign) => Ok(campaign),
        Err(refusal) => Err(answer_of_system(Task::Campaign { number }, refusal)),
    }
}
