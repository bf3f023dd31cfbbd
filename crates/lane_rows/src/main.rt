//! Reads rows from the standard input, each the number of a workload system and the lines that write a scenario for each of eight
//! lanes, runs the eight at once on the system's module, and prints what is counted of each.
#![tactic(auto)]

mod counted;
mod row;

use counted::{RowFault, counts_of};
use row::Row;
use std::io;
use trace_lines::Counts;

fn tell_lane(rt: &HostRuntime, lane: usize, counts: &Counts) -> io::Result<()> {
    println!(rt;
        "  lane {lane} taken {} answered {} delivered {} dropped {}",
        counts.taken, counts.answered, counts.delivered, counts.dropped
    )
}

fn tell_row(rt: &HostRuntime, row: &Row) -> io::Result<()> {
    println!(rt; "{} {} {}", row.number, row.cycles, row.title)?;
    match counts_of(rt.alloc(), row) {
        Ok(counts) => {
            for (lane, counts) in counts.iter().enumerate() {
                tell_lane(rt, lane, counts)?;
            }
            Ok(())
        }
        Err(RowFault::Refused) => println!(rt; "  refused"),
        Err(RowFault::NoMemory) => Err(io::ErrorKind::OutOfMemory.into()),
    }
}

fn main(rt: HostRuntime) -> io::Result<()> {
    let text = io::read_to_string(rt.alloc(), rt.reader())?;
    for row in text.split(":row ").skip(1) {
        tell_row(&rt, &Row::of(row))?;
    }
    Ok(())
}
