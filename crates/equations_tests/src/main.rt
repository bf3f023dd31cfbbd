//! Reads the modules whose texts the rows of the standard input have, steps or replays some of them, and prints their lines and
//! values; then reads the texts behind the rows as modules, whole, cut and changed.
#![tactic(auto)]

mod files;
mod lines;
mod no_answer;
mod replayed;
mod steps;
mod tally;
mod texts;
mod values;

use lines::push_module;
use no_answer::NoAnswer;
use replayed::{push_pruned, push_replayed};
use std::alloc::Global;
use std::io;
use steps::{push_joined, push_operators, push_stepped};
use texts::tell_texts;

/// Appends what is said of a row.
fn push_answer(alloc: Global, text: &mut String, row: &str) -> Result<(), NoAnswer> {
    let (name, words) = row.split_once(' ').unwrap_or((row, ""));
    match name {
        "operators" => push_operators(alloc, text, words),
        "joined" => push_joined(alloc, text, words),
        "stepped" => push_stepped(alloc, text, words),
        "pruned" => push_pruned(alloc, text, words),
        "replayed" => push_replayed(alloc, text, words),
        _ => push_module(alloc, text, words),
    }
}

fn answer_of(alloc: Global, row: &str) -> Result<String, NoAnswer> {
    let mut text = String::new(alloc);
    push_answer(alloc, &mut text, row)?;
    Ok(text)
}

fn tell_row(rt: &HostRuntime, row: &str) -> io::Result<()> {
    let Ok(answer) = answer_of(rt.alloc(), row) else {
        return Err(io::ErrorKind::OutOfMemory.into());
    };
    println!(rt; "{row}:{answer}")
}

fn main(rt: HostRuntime) -> io::Result<()> {
    let text = io::read_to_string(rt.alloc(), rt.reader())?;
    let (rows, texts) = text.split_once(":text ").unwrap_or((text.as_str(), ""));
    for row in rows.lines() {
        tell_row(&rt, row)?;
    }
    tell_texts(&rt, texts)
}
