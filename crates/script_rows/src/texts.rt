//! The text of what a simulation runs on.

ghost use Rattle.std.specs.Prelude.{◌≡◌, ◌^◌, ◌<◌, ◌≤◌, All, length, IsTrue};

use av_base::{Bytes, NoMemory};
use scenario_runs::prepare;
use std::alloc::Global;
use verilog_writer::write_module;

/// Whether there are so many files as a system may have, none of them too long.
fn may_be_read(files: &[Bytes]) -> bool
    ensures some { IsTrue result → 1 ≤ length files.now }
    ensures few { IsTrue result → length files.now ≤ 64 }
    ensures short { IsTrue result → All (λ bytes. length bytes < 2 ^ 31) files.now }
{
    !files.is_empty() && files.len() <= 64 && files.iter().all(|file| file.len() < 1 << 31)
}

/// Whether a simulation of the system of these files under this scenario runs on a module of this text.
pub fn is_text_of_simulation(
    alloc: Global,
    files: &[Bytes],
    scenario: &[u8],
    text: &[u8],
) -> Result<bool, NoMemory> {
    if !may_be_read(files) || scenario.len() >= 1 << 31 {
        return Ok(false);
    }
    match prepare(alloc, files, scenario) {
        Ok(prepared) => Ok(write_module(alloc, &prepared.module)?.as_slice() == text),
        Err(_) => Ok(false),
    }
}
