//! Makes what stands between ends, as the rows of the standard input name it, counts its nets and prints some of its lines.
#![tactic(auto)]

mod builders;
mod channels;
mod formats;
mod lines;
mod paths;
mod stages;
mod timings;

use channels::push_channels;
use formats::push_format;
use netlist::NetFault;
use paths::push_path;
use stages::push_named_stage;
use std::alloc::Global;
use std::io;
use timings::push_timing;

/// Appends what is said of a row.
fn push_answer(alloc: Global, text: &mut String, row: &str) -> Result<(), NetFault> {
    let (kind, words) = row.split_once(' ').unwrap_or((row, ""));
    match kind {
        "stage" => push_named_stage(alloc, text, words),
        "timing" => push_timing(alloc, text, words),
        "format" => push_format(alloc, text, words),
        "channels" => push_channels(alloc, text, words),
        _ => push_path(alloc, text, words),
    }
}

fn answer_of(alloc: Global, row: &str) -> Result<String, NetFault> {
    let mut text = String::new(alloc);
    push_answer(alloc, &mut text, row)?;
    Ok(text)
}

fn main(rt: HostRuntime) -> io::Result<()> {
    let alloc = rt.alloc();
    for row in rt.lines(alloc) {
        let row = row?;
        let Ok(answer) = answer_of(alloc, row.as_str()) else {
            return Err(io::ErrorKind::OutOfMemory.into());
        };
        println!(rt; "{row}:{answer}")?;
    }
    Ok(())
}
