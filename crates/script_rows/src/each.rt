//! Rows of which a part is lost at each place in turn: a call that reads, or the end of the first file.

use crate::judge::{ROOM, Verdict, answer};
use crate::row::{Row, files_of, words_of};
use av_base::{Bytes, List, NoMemory};
use av_files::MemSink;
use avalon_top::Exit;
use std::alloc::Global;

/// More calls than the files of a row take.
const CALLS: u64 = 1000;

/// Whether a result is written, or just the line of what refuses it.
fn is_told(exit: &Exit, written: &[u8]) -> bool {
    match exit {
        Exit::Done => written.ends_with(b"\n"),
        _ => written == exit.line().as_slice(),
    }
}

/// What is answered to the row over these files, where the calls of these numbers fail, and whether it is told.
fn answer_over(
    alloc: Global,
    row: &Row,
    files: List<Bytes>,
    failing: List<u64>,
) -> Result<(Exit, bool), NoMemory> {
    let words = words_of(alloc, row)?;
    let mut sink = MemSink::new(alloc, ROOM, List::new(alloc))?;
    let exit = answer(alloc, words.as_slice(), files, failing, &mut sink);
    let is_told = is_told(&exit, sink.bytes());
    Ok((exit, is_told))
}

/// What is answered where this call of the shelf fails, and whether it is told.
fn answer_without(alloc: Global, row: &Row, call: u64) -> Result<(Exit, bool), NoMemory> {
    let (files, _) = files_of(alloc, row, None)?;
    let mut failing = List::new(alloc);
    failing.push(call)?;
    answer_over(alloc, row, files, failing)
}

/// The files that are told where each call of the shelf fails, in turn, until none does.
pub fn judge_any_read(alloc: Global, row: &Row) -> Result<Verdict, NoMemory> {
    let mut written = String::from_str(alloc, "read faults of files")?;
    for call in 0..CALLS {
        let (exit, is_told) = answer_without(alloc, row, call)?;
        let Exit::ReadFault { file } = exit else {
            return Ok(Verdict {
                written,
                is_as_said: is_told && exit == Exit::Done,
            });
        };
        if !is_told || exit.status() != 3 {
            break;
        }
        write!(written, " {file}")?;
    }
    Ok(Verdict {
        written,
        is_as_said: false,
    })
}

/// These files, of which the first behind the command's is cut to so many bytes.
fn with_cut(alloc: Global, files: &[Bytes], cut: usize) -> Result<List<Bytes>, NoMemory> {
    let mut others = List::new(alloc);
    for (number, file) in files.iter().enumerate() {
        let whole = file.as_slice();
        let text = match number {
            1 => whole.get(..cut).unwrap_or(whole),
            _ => whole,
        };
        let mut bytes = Bytes::new(alloc);
        bytes.append(text)?;
        others.push(bytes)?;
    }
    Ok(others)
}

/// The byte of the first file at which it is refused.
fn byte_refused(exit: &Exit) -> Option<u64> {
    match exit {
        Exit::ScriptRefused { place, .. } if place.file == 1 => Some(place.byte),
        Exit::VerilogRefused { byte, .. } => Some(*byte),
        _ => None,
    }
}

/// How many beginnings the first file has that are shorter, how many of them get a result, and the sum of the bytes at which
/// the others are refused. None is refused behind its end.
pub fn judge_any_cut(alloc: Global, row: &Row) -> Result<Verdict, NoMemory> {
    let (files, _) = files_of(alloc, row, None)?;
    let length = files.as_slice().get(1).map_or(0, |file| file.len());
    let mut done: u64 = 0;
    let mut sum: u64 = 0;
    let mut is_as_said = true;
    for cut in 0..length {
        let beginning = with_cut(alloc, files.as_slice(), cut)?;
        let (exit, is_told) = answer_over(alloc, row, beginning, List::new(alloc))?;
        is_as_said &= is_told;
        if let Some(byte) = byte_refused(&exit) {
            sum = sum.saturating_add(byte);
            is_as_said &= byte <= cut as u64;
        } else {
            done = done.saturating_add(1);
            is_as_said &= exit == Exit::Done;
        }
    }
    Ok(Verdict {
        written: format!(in alloc; "{length} beginnings, done {done}, sum of bytes {sum}")?,
        is_as_said,
    })
}
