use crate::each::{judge_any_cut, judge_any_read};
use crate::row::{Change, Mark, Row, files_of, words_of};
use crate::texts::is_text_of_simulation;
use av_base::{Bytes, List, NoMemory};
use av_files::{MemShelf, MemSink};
use avalon_top::{Exit, run};
use std::alloc::{AllocError, Global};

/// What was written, or the last line of it, and whether the answer is the one that the row says.
#[derive(Drop)]
pub struct Verdict {
    pub written: String,
    pub is_as_said: bool,
}

/// The room for an answer.
pub const ROOM: usize = 100_000;

/// The writes that fail: the second one, where a row asks what part is written.
fn failing_of(alloc: Global, title: &str) -> Result<List<u64>, NoMemory> {
    let mut failing = List::new(alloc);
    if title.starts_with("part ") {
        failing.push(1)?;
    }
    Ok(failing)
}

/// What is answered to these words over these files, where the calls of these numbers fail.
pub fn answer(
    alloc: Global,
    words: &[String],
    files: List<Bytes>,
    failing: List<u64>,
    sink: &mut MemSink,
) -> Exit {
    let mut shelf = MemShelf::new(files, failing);
    run(alloc, words, &mut shelf, sink)
}

/// What is answered to the row, and its mark.
fn answer_row(
    alloc: Global,
    row: &Row,
    change: Option<Change>,
    sink: &mut MemSink,
) -> Result<(Exit, Option<Mark>), NoMemory> {
    let words = words_of(alloc, row)?;
    let (files, mark) = files_of(alloc, row, change)?;
    let exit = answer(alloc, words.as_slice(), files, List::new(alloc), sink);
    Ok((exit, mark))
}

/// Whether the answer to the row with a byte changed is a result or one line that refuses.
fn is_whole(alloc: Global, row: &Row, change: Change) -> Result<bool, NoMemory> {
    let mut sink = MemSink::new(alloc, ROOM, List::new(alloc))?;
    let (exit, _) = answer_row(alloc, row, Some(change), &mut sink)?;
    let written = sink.bytes();
    Ok(matches!(exit.status(), 0 | 5 | 6) && written.ends_with(b"\n") && written.len() < ROOM)
}

/// How many bytes the last file has.
fn last_length(alloc: Global, row: &Row) -> Result<usize, NoMemory> {
    let (files, _) = files_of(alloc, row, None)?;
    Ok(files.as_slice().last().map_or(0, |file| file.len()))
}

/// How many texts there are with one byte of the last file changed, and whether each gets a whole answer.
fn judge_any_byte(alloc: Global, row: &Row) -> Result<Verdict, NoMemory> {
    let length = last_length(alloc, row)?;
    let mut count: u64 = 0;
    let mut is_as_said = true;
    for place in 0..length {
        for byte in 0..=255 {
            is_as_said &= is_whole(alloc, row, Change { place, byte })?;
            count = count.saturating_add(1);
        }
    }
    Ok(Verdict {
        written: format!(in alloc; "{count} texts")?,
        is_as_said,
    })
}

/// Whether what a simulation runs on has the text that `generate` writes. The last file is the scenario.
fn judge_same(alloc: Global, row: &Row) -> Result<Verdict, NoMemory> {
    let mut sink = MemSink::new(alloc, ROOM, List::new(alloc))?;
    let (exit, _) = answer_row(alloc, &row.generating(), None, &mut sink)?;
    let (files, _) = files_of(alloc, row, None)?;
    let is_same = match files.as_slice() {
        [_, system @ .., scenario] => {
            is_text_of_simulation(alloc, system, scenario.as_slice(), sink.bytes())?
        }
        _ => false,
    };
    let text = if is_same {
        "the text of `generate`"
    } else {
        "another text"
    };
    Ok(Verdict {
        written: String::from_str(alloc, text)?,
        is_as_said: is_same && exit == Exit::Done,
    })
}

/// The status that a row calls for by the first word of its title.
fn status_said(rule: &str) -> u8 {
    match rule {
        "ok" | "text" | "bytes" => 0,
        "usage" => 2,
        "part" => 4,
        "link" => 6,
        "limit:" => 7,
        "verilog" => 8,
        "scenario" => 9,
        "dump" => 11,
        "packet" => 12,
        _ => 5,
    }
}

/// The refusal of a script by this rule at the mark, where there is one.
fn refusal_at(alloc: Global, rule: &str, mark: Option<Mark>) -> Result<String, AllocError> {
    match mark {
        Some(Mark { file, line, byte }) => {
            format!(in alloc; "script refused: file {file} line {line} byte {byte} rule {rule}")
        }
        None => Ok(String::new(alloc)),
    }
}

/// Whether an answer of this status and last line is the one that the row calls for.
fn is_said(
    alloc: Global,
    title: &str,
    mark: Option<Mark>,
    status: u8,
    line: &str,
) -> Result<bool, AllocError> {
    let (rule, _) = title.split_once(' ').unwrap_or((title, ""));
    let is_line = match status_said(rule) {
        0 | 4 => true,
        2 => line.starts_with("usage: "),
        5 => line == refusal_at(alloc, rule, mark)?.as_str(),
        _ => line == title,
    };
    Ok(is_line && status == status_said(rule))
}

fn last_line(text: &str) -> &str {
    let text = text.trim_end();
    text.rsplit_once('\n').map_or(text, |parts| parts.1)
}

/// Bytes in hexadecimal, two digits each.
fn hexadecimal(alloc: Global, bytes: &[u8]) -> Result<String, AllocError> {
    let mut text = String::new(alloc);
    for byte in bytes {
        write!(text, "{byte:02x}")?;
    }
    Ok(text)
}

/// What is told of an answer. Where the row asks for the text, or a part of it, all of it is given, from a line of its own on;
/// where it asks for the bytes, these.
fn told(
    alloc: Global,
    title: &str,
    written: &[u8],
    text: &str,
    line: &str,
) -> Result<String, AllocError> {
    if title.starts_with("bytes ") {
        hexadecimal(alloc, written)
    } else if title.starts_with("text ") || title.starts_with("part ") {
        format!(in alloc; "\n{text}")
    } else {
        String::from_str(alloc, line)
    }
}

fn verdict_on(
    alloc: Global,
    title: &str,
    mark: Option<Mark>,
    exit: Exit,
    written: &[u8],
) -> Result<Verdict, NoMemory> {
    let text = str::from_utf8(written).unwrap_or("");
    let line = last_line(text);
    let is_as_said = is_said(alloc, title, mark, exit.status(), line)?;
    Ok(Verdict {
        written: told(alloc, title, written, text, line)?,
        is_as_said,
    })
}

/// Judges what is answered to the row.
pub fn judge(alloc: Global, row: &Row) -> Result<Verdict, NoMemory> {
    if row.title.starts_with("any byte ") {
        return judge_any_byte(alloc, row);
    }
    if row.title.starts_with("any read ") {
        return judge_any_read(alloc, row);
    }
    if row.title.starts_with("any cut ") {
        return judge_any_cut(alloc, row);
    }
    if row.title.starts_with("same text ") {
        return judge_same(alloc, row);
    }
    let mut sink = MemSink::new(alloc, ROOM, failing_of(alloc, row.title)?)?;
    let (exit, mark) = answer_row(alloc, row, None, &mut sink)?;
    verdict_on(alloc, row.title, mark, exit, sink.bytes())
}
