//! From a row to its module, and the module stepped.

use crate::beat::Beat;
use crate::bench::{Ends, Seen, Tally};
use crate::row::Row;
use crate::scripts::files_of;
use av_base::NoMemory;
use iface_roles::Role;
use row_steps::{Bench, Inputs, Outputs, System, port_that_ends, run_cycles, system_of};
use std::alloc::{AllocError, Global};
use system_tables::EndId;

/// The ends of a row at the ports of its module.
#[derive(Drop)]
struct Joined<'a> {
    row: &'a Row,
    source: EndId,
    sink: EndId,
    /// The port that shows dropped beats.
    dropped: Option<u32>,
    ends: Ends,
}

/// Sets a beat that the source shows.
fn set_beat(inputs: &mut Inputs, source: EndId, beat: &Beat) -> Result<(), AllocError> {
    let levels = [
        (Role::Valid, 1),
        (Role::Data, beat.word),
        (Role::Channel, u128::from(beat.channel)),
        (Role::Error, u128::from(beat.error)),
        (Role::StartOfPacket, u128::from(beat.first)),
        (Role::EndOfPacket, u128::from(beat.last)),
        (Role::Empty, u128::from(beat.empty)),
    ];
    for (role, bits) in levels {
        inputs.set(source, role, bits)?;
    }
    Ok(())
}

/// What stands at a port of an end, without the bits above 32.
fn number_at(outputs: &Outputs, end: EndId, role: Role) -> u32 {
    (outputs.level(end, role) & 0xffff_ffff) as u32
}

/// The beat at the sink.
fn beat_at(outputs: &Outputs, sink: EndId) -> Option<Beat> {
    if !outputs.is_high(sink, Role::Valid) {
        return None;
    }
    Some(Beat {
        word: outputs.level(sink, Role::Data),
        first: outputs.is_high(sink, Role::StartOfPacket),
        last: outputs.is_high(sink, Role::EndOfPacket),
        empty: (outputs.level(sink, Role::Empty) & 0xff) as u8,
        channel: number_at(outputs, sink, Role::Channel),
        error: number_at(outputs, sink, Role::Error),
    })
}

impl Bench for Joined<'_> {
    fn shows(&self, inputs: &mut Inputs, cycle: u32) -> Result<(), AllocError> {
        let shown = self.ends.shows(self.row, cycle);
        inputs.set(self.sink, Role::Ready, u128::from(shown.ready))?;
        match &shown.beat {
            Some(beat) => set_beat(inputs, self.source, beat),
            None => Ok(()),
        }
    }

    /// A source without `ready` may always send.
    fn sees(&mut self, outputs: &Outputs, cycle: u32) -> Result<(), AllocError> {
        let has_ready = self.row.source.latency.is_some();
        let seen = Seen {
            ready: !has_ready || outputs.is_high(self.source, Role::Ready),
            beat: beat_at(outputs, self.sink),
            dropped: outputs.level_at(self.dropped) == 1,
        };
        self.ends.sees(self.row, seen, cycle)
    }
}

/// What comes of a row whose module is built; None where its inputs are not those of a row.
fn stepped(alloc: Global, system: System, row: &Row) -> Result<Option<Tally>, NoMemory> {
    let System { plan, built } = system;
    let Some(stream) = plan.connections().first() else {
        return Ok(None);
    };
    let mut joined = Joined {
        row,
        source: stream.start,
        sink: stream.end,
        dropped: port_that_ends(&built.module, "$dropped", 0),
        ends: Ends::new(alloc),
    };
    if run_cycles(alloc, built, &mut joined, row.cycles)? {
        Ok(Some(joined.ends.tally))
    } else {
        Ok(None)
    }
}

/// Builds the module of a row and steps it. None where the system is refused.
pub fn run_row(alloc: Global, row: &Row) -> Result<Option<Tally>, NoMemory> {
    let files = files_of(alloc, row)?;
    match system_of(alloc, &files)? {
        Some(system) => stepped(alloc, system, row),
        None => Ok(None),
    }
}
