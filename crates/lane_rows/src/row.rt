//! A row, and the scenarios that it writes.

use av_base::{Bytes, NoMemory};
use std::alloc::Global;

/// A row: the number of a workload system, for how many cycles its scenarios are, what it tests, and the lines that write a
/// scenario for each lane.
#[derive(Clone, Copy)]
pub struct Row<'a> {
    pub number: u32,
    pub cycles: u32,
    pub title: &'a str,
    lines: &'a str,
}

/// A pattern of 64 cycles: it stalls in the first 8 for each lane below this one.
fn put_pattern(bytes: &mut Bytes, lane: u8) -> Result<(), NoMemory> {
    for cycle in 0..64 {
        bytes.push(if cycle / 8 < lane { b'1' } else { b'0' })?;
    }
    Ok(())
}

/// A line, with the lane's pattern in place of `*`.
fn put_line(bytes: &mut Bytes, text: &str, lane: u8) -> Result<(), NoMemory> {
    for byte in text.bytes() {
        match byte {
            b'*' => put_pattern(bytes, lane)?,
            _ => bytes.push(byte)?,
        }
    }
    bytes.push(b'\n')
}

/// What a line of a row stands for: `:times COUNT TEXT` is so many lines.
fn put(bytes: &mut Bytes, line: &str, lane: u8) -> Result<(), NoMemory> {
    let Some(times) = line.strip_prefix(":times ") else {
        return put_line(bytes, line, lane);
    };
    let (count, text) = times.split_once(' ').unwrap_or((times, ""));
    for _ in 0..count.parse::<u32>().unwrap_or(0) {
        put_line(bytes, text, lane)?;
    }
    Ok(())
}

impl<'a> Row<'a> {
    pub fn of(text: &'a str) -> Row<'a> {
        let (head, lines) = text.split_once('\n').unwrap_or((text, ""));
        let (number, rest) = head.split_once(' ').unwrap_or((head, ""));
        let (cycles, title) = rest.split_once(' ').unwrap_or((rest, ""));
        Row {
            number: number.parse().unwrap_or(0),
            cycles: cycles.parse().unwrap_or(0),
            title,
            lines,
        }
    }

    /// The bytes of a lane's scenario.
    pub fn scenario(&self, alloc: Global, lane: u8) -> Result<Bytes, NoMemory> {
        let mut bytes = Bytes::from(format!(in alloc; "cycles {}\n", self.cycles)?);
        for line in self.lines.lines() {
            put(&mut bytes, line, lane)?;
        }
        Ok(bytes)
    }
}
