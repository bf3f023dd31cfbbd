//! Rows of files: each the number of a word, a place in the file of that name and how many bytes are wanted there, or `all` and
//! the most bytes that a whole file may have. One shelf of real files gives them, row by row, through a sink of the standard
//! output.

use av_base::NoMemory;
use av_files::{DirShelf, LoadFault, ReadStep, Shelf, StdSink, load_all, put_all};
use std::alloc::Global;
use std::rt::{Env, Files};
use std::{env, io};

/// The most bytes that a row reads.
const ROOM: usize = 256;

fn push_bytes(text: &mut String, bytes: &[u8]) -> Result<(), NoMemory> {
    write!(text, " {} bytes ", bytes.len())?;
    text.push_str(str::from_utf8(bytes).unwrap_or("that are no text"))?;
    Ok(())
}

/// Appends what the shelf gives of a file at a place.
fn push_part<S: Shelf>(
    text: &mut String,
    shelf: &mut S,
    file: u32,
    at: u64,
    count: usize,
) -> Result<(), NoMemory> {
    let mut room = [0; ROOM];
    let into = &mut room[..count.clamp(1, ROOM)];
    match shelf.read_at(file, at, into) {
        ReadStep::Bytes(n) => push_bytes(text, into.get(..n).unwrap_or(&[])),
        ReadStep::End => Ok(text.push_str(" end")?),
        ReadStep::Failed => Ok(text.push_str(" failed")?),
    }
}

/// Appends a whole file.
fn push_all<S: Shelf>(
    alloc: Global,
    text: &mut String,
    shelf: &mut S,
    file: u32,
    limit: u64,
) -> Result<(), NoMemory> {
    match load_all(alloc, shelf, file, limit) {
        Ok(bytes) => push_bytes(text, bytes.as_slice()),
        Err(LoadFault::ReadFault) => Ok(text.push_str(" failed")?),
        Err(LoadFault::TooLong) => Ok(text.push_str(" too long")?),
        Err(LoadFault::NoMemory) => Err(NoMemory),
    }
}

/// What is said of a row.
fn told<S: Shelf>(alloc: Global, shelf: &mut S, row: &str) -> Result<String, NoMemory> {
    let mut text = String::from_str(alloc, row)?;
    text.push_str(":")?;
    let mut words = row.split(' ');
    let (first, second, third) = (words.next(), words.next(), words.next());
    let file = first.and_then(|word| word.parse().ok()).unwrap_or(0);
    let number = third.and_then(|word| word.parse().ok()).unwrap_or(0);
    match second.and_then(|word| word.parse().ok()) {
        Some(at) => push_part(&mut text, shelf, file, at, number as usize)?,
        None => push_all(alloc, &mut text, shelf, file, number)?,
    }
    text.push_str("\n")?;
    Ok(text)
}

/// Whether each row is told.
fn are_told<R: Env + Files + Print + AllocGlobal>(rt: &R, rows: &str) -> io::Result<bool> {
    let words: Vec<String> = env::args(rt)?.collect(rt.alloc())?;
    let mut shelf = DirShelf::new(rt, words.as_slice());
    let mut sink = StdSink::new(io::writer(rt));
    let mut are_told = true;
    for row in rows.lines() {
        are_told &= match told(rt.alloc(), &mut shelf, row) {
            Ok(text) => put_all(&mut sink, text.as_bytes()),
            Err(_) => false,
        };
    }
    Ok(are_told)
}

/// Tells each row.
pub(crate) fn tell_files(rt: &HostRuntime, rows: &str) -> io::Result<()> {
    if are_told(rt, rows)? {
        Ok(())
    } else {
        Err(io::ErrorKind::Other.into())
    }
}
