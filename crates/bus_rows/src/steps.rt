//! From a row to its module, and the module stepped.

use crate::bench::Ends;
use crate::ends::{Row, Tally, files_of};
use av_base::NoMemory;
use row_steps::{System, run_cycles, system_of};
use std::alloc::Global;

/// Steps the module of a row. None where levels don't fit their ports.
fn stepped(alloc: Global, system: System, row: &Row) -> Result<Option<Tally>, NoMemory> {
    let mut ends = Ends::new(alloc, row, &system)?;
    if run_cycles(alloc, system.built, &mut ends, row.cycles)? {
        Ok(Some(ends.tally()))
    } else {
        Ok(None)
    }
}

/// Builds the module of a row and steps it. None where the row is refused.
pub fn run_row(alloc: Global, row: &Row) -> Result<Option<Tally>, NoMemory> {
    let files = files_of(alloc, row)?;
    match system_of(alloc, files.as_slice())? {
        Some(system) => stepped(alloc, system, row),
        None => Ok(None),
    }
}
