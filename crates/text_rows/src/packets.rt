//! Rows of packets: the commands that they stand for and the replies to them, or their first fault.

use crate::row::{Row, word_size};
use av_base::{List, NoMemory, Val};
use av_files::MemSink;
use packet_bytes::{PacketFault, Replies, Transfers};
use row_words::hex_number;
use std::alloc::{AllocError, Global};
use std::io;

/// The room for the replies of a row.
const ROOM: usize = 100_000;

fn push_hex(text: &mut String, bytes: &[u8]) -> Result<(), AllocError> {
    for byte in bytes {
        write!(text, "{byte:02x}")?;
    }
    Ok(())
}

/// The most bytes of commands that are told.
const TOLD: usize = 4000;

/// Appends the scenario of the commands, its lines one behind the other, or how many bytes it has where they are many.
fn push_commands(alloc: Global, text: &mut String, transfers: &Transfers) -> Result<(), NoMemory> {
    let scenario = transfers.scenario(alloc, "h.m", 1)?;
    if scenario.len() > TOLD {
        return Ok(write!(text, "{} bytes; ", scenario.len())?);
    }
    for byte in scenario.as_slice() {
        if *byte == b'\n' {
            text.push_str("; ")?;
        } else {
            text.push(char::from(*byte))?;
        }
    }
    Ok(())
}

/// Appends the replies that the write beats and the words of a row are enough for.
fn push_replies(
    alloc: Global,
    text: &mut String,
    row: &Row,
    transfers: Transfers,
) -> Result<(), NoMemory> {
    let mut replies = Replies::new(alloc, transfers)?;
    for _ in 0..row.beats {
        replies.note(true, None);
    }
    for word in row.words.split(',') {
        if let Some(bits) = hex_number(word) {
            replies.note(false, Val::new(128, bits));
        }
    }
    let mut sink = MemSink::new(alloc, ROOM, List::new(alloc))?;
    if !replies.write(&mut sink) {
        text.push_str("too long ")?;
    }
    Ok(push_hex(text, sink.bytes())?)
}

/// Appends what is said of a row.
fn push_answer(alloc: Global, text: &mut String, line: &str) -> Result<(), NoMemory> {
    let row = Row::of(line);
    let Some(size) = word_size(row.word) else {
        return Ok(text.push_str(": no size of words")?);
    };
    let bytes = row.bytes(alloc)?;
    match Transfers::read(alloc, bytes.as_slice(), size, row.range) {
        Ok(transfers) => {
            text.push_str(": ")?;
            push_commands(alloc, text, &transfers)?;
            push_replies(alloc, text, &row, transfers)
        }
        Err(PacketFault::Refused { byte, rule }) => {
            Ok(write!(text, ": byte {byte} rule Y{rule}")?)
        }
        Err(PacketFault::NoMemory) => Err(NoMemory),
    }
}

fn answer_of(alloc: Global, line: &str) -> Result<String, NoMemory> {
    let mut text = String::new(alloc);
    push_answer(alloc, &mut text, line)?;
    Ok(text)
}

/// Tells each row, and what is said of it.
pub(crate) fn tell_packets(rt: &HostRuntime, rows: &str) -> io::Result<()> {
    for line in rows.lines() {
        let Ok(answer) = answer_of(rt.alloc(), line) else {
            return Err(io::ErrorKind::OutOfMemory.into());
        };
        println!(rt; "{line}{answer}")?;
    }
    Ok(())
}
