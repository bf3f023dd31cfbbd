//! Reads rows of scripts, scenarios, texts and waves from the standard input, runs the command that it names, `check` where it
//! names none, over each row's files, and prints each answer beside what the row says of it. Of some rows it compares the text of
//! what is simulated with that of `generate`.
#![tactic(auto)]

mod each;
mod judge;
mod row;
mod texts;

use judge::judge;
use row::Row;
use std::io;

/// Tells what is answered to a row, and gives whether it is what the row says.
fn tell_row(rt: &HostRuntime, row: &Row) -> io::Result<bool> {
    let Ok(verdict) = judge(rt.alloc(), row) else {
        return Err(io::ErrorKind::OutOfMemory.into());
    };
    println!(rt; "{}: {}", row.title, verdict.written)?;
    Ok(verdict.is_as_said)
}

fn tell_rows(rt: &HostRuntime, text: &str) -> io::Result<()> {
    let (parts, rows) = text.split_once("\n:row ").unwrap_or((text, ""));
    let mut count: u32 = 0;
    let mut others: u32 = 0;
    for row in rows.split("\n:row ") {
        count = count.saturating_add(1);
        if !tell_row(rt, &Row::of(parts, row))? {
            others = others.saturating_add(1);
            println!(rt; "  and not as the row says")?;
        }
    }
    println!(rt; "{count} rows, {others} not as they say")
}

fn main(rt: HostRuntime) -> io::Result<()> {
    let text = io::read_to_string(rt.alloc(), rt.reader())?;
    tell_rows(&rt, text.as_str())
}
