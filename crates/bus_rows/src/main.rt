//! Builds the module of each row of the standard input, hosts and agents with what they declare, steps it with hosts and agents
//! that keep to that, and prints what the agents accept and what the hosts are given.
#![tactic(auto)]

mod bench;
pub mod ends;
mod steps;

use crate::ends::{Row, push_tally};
use av_base::NoMemory;
use row_words::{Answers, answer_lines};
use std::alloc::Global;
use std::io;
use steps::run_row;

/// Appends what is said of a row.
fn push_row(alloc: Global, text: &mut String, row: &Row) -> Result<(), NoMemory> {
    match run_row(alloc, row)? {
        Some(tally) => push_tally(text, &tally)?,
        None => text.push_str("\n  refused")?,
    }
    Ok(())
}

/// What is said of rows; nothing of a line that tells what rows are for.
#[derive(Drop)]
struct Rows;

impl Answers for Rows {
    fn push_answer(
        &mut self,
        alloc: Global,
        text: &mut String,
        line: &str,
    ) -> Result<(), NoMemory> {
        if line.starts_with('#') {
            return Ok(());
        }
        match Row::read(alloc, line)? {
            Some(row) => push_row(alloc, text, &row),
            None => Ok(text.push_str("\n  not a row")?),
        }
    }
}

fn main(rt: HostRuntime) -> io::Result<()> {
    answer_lines(&rt, &mut Rows)
}
