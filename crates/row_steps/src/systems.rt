//! From the files of a row to its module.

ghost use Rattle.std.specs.Prelude.{◌^◌, ◌<◌, length, All, IsTrue};

use av_base::{Bytes, NoMemory};
use interconnect::{Built, build};
use link_rules::Plan;
use std::alloc::Global;
use system_plan::plan_of;

/// The system of a row.
#[derive(Drop)]
pub struct System {
    pub plan: Plan,
    pub built: Built,
}

/// Whether the texts are as short as a row's are.
fn are_short(files: &[Bytes]) -> bool
    ensures { IsTrue result → All (λ bytes. length bytes < 2 ^ 31) files.now }
{
    files.iter().all(|bytes| bytes.len() < 4096)
}

/// The plan of files; None where they are refused.
fn planned(alloc: Global, files: &[Bytes]) -> Option<Plan> {
    if files.is_empty() || files.len() > 64 || !are_short(files) {
        return None;
    }
    plan_of(alloc, files).ok()
}

/// The system of files, the first of which is the system's script; None where they are refused.
pub fn system_of(alloc: Global, files: &[Bytes]) -> Result<Option<System>, NoMemory> {
    let Some(plan) = planned(alloc, files) else {
        return Ok(None);
    };
    let built = build(alloc, &plan)?;
    Ok(Some(System { plan, built }))
}
