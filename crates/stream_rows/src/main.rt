//! Builds the module of each row of the standard input, a source and a sink with what they declare and a queue, steps it with two
//! ends that keep to what they declare, and prints what the sink was given, and at the end how long streams stood still.
#![tactic(auto)]

mod beat;
mod bench;
mod end;
mod row;
mod scripts;
mod steps;
mod still;

use av_base::NoMemory;
use beat::{Beat, Symbol, push_beat, symbols_of};
use bench::Tally;
use row::Row;
use row_words::{Answers, answer_lines};
use std::alloc::{AllocError, Global};
use std::io;
use steps::run_row;
use still::Records;

/// Appends when the beats came, how many didn't reach the sink, and whether the source was held back.
fn push_pace(text: &mut String, tally: &Tally) -> Result<(), AllocError> {
    if !tally.in_time {
        text.push_str(", out of time")?;
    }
    if !tally.beats.is_empty() {
        write!(text, ", in cycles {} to {}", tally.first, tally.last)?;
    }
    if tally.dropped > 0 {
        write!(text, ", {} dropped", tally.dropped)?;
    }
    match tally.held_back {
        None => text.push_str(", the source never held back"),
        Some(cycle) => write!(text, ", the source held back in cycle {cycle}"),
    }
}

/// Appends the beats that came.
fn push_beats(text: &mut String, beats: &[Beat]) -> Result<(), AllocError> {
    text.push_str(if beats.is_empty() {
        " got nothing"
    } else {
        " got"
    })?;
    for beat in beats {
        push_beat(text, beat)?;
    }
    Ok(())
}

/// Appends whether what came is the beginning of what was sent.
fn push_order(
    text: &mut String,
    sent: &[Symbol],
    came: &[Symbol],
    beats: usize,
) -> Result<(), AllocError> {
    let order = if sent.starts_with(came) {
        "each once and in order"
    } else {
        "lost, doubled or out of order"
    };
    write!(
        text,
        " {} of {} symbols in {beats} beats, {order}",
        came.len(),
        sent.len()
    )
}

fn push_symbols(
    alloc: Global,
    text: &mut String,
    row: &Row,
    beats: &[Beat],
) -> Result<(), AllocError> {
    let sent = symbols_of(alloc, &row.source, row.beats.as_slice())?;
    let came = symbols_of(alloc, &row.sink, beats)?;
    push_order(text, sent.as_slice(), came.as_slice(), beats.len())
}

/// Appends what is said of a row's run.
fn push_run(alloc: Global, text: &mut String, row: &Row, tally: &Tally) -> Result<(), AllocError> {
    if row.counted {
        push_symbols(alloc, text, row, tally.beats.as_slice())?;
    } else {
        push_beats(text, tally.beats.as_slice())?;
    }
    push_pace(text, tally)
}

/// What is said of rows.
#[derive(Drop)]
struct Rows {
    records: Records,
}

impl Rows {
    /// Appends what is said of a row.
    fn push_row(&mut self, alloc: Global, text: &mut String, row: &Row) -> Result<(), NoMemory> {
        match run_row(alloc, row)? {
            Some(tally) => {
                self.records.count(&tally.still, row.window());
                push_run(alloc, text, row, &tally)?
            }
            None => text.push_str(" not built")?,
        }
        Ok(())
    }
}

impl Answers for Rows {
    fn push_answer(
        &mut self,
        alloc: Global,
        text: &mut String,
        line: &str,
    ) -> Result<(), NoMemory> {
        self.records.begin_row();
        let Some(row) = Row::read(alloc, line)? else {
            return Ok(text.push_str(": not a row")?);
        };
        text.push(':')?;
        self.push_row(alloc, text, &row)
    }
}

fn main(rt: HostRuntime) -> io::Result<()> {
    let mut rows = Rows {
        records: Records::new(),
    };
    answer_lines(&rt, &mut rows)?;
    rows.records.print(&rt)
}
