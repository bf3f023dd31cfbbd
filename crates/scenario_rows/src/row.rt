//! A row, and the scenario that it writes.

use av_base::{Bytes, NoMemory};
use std::alloc::Global;

/// A row: the system that its scenario is for, what it tests, and the lines that write the scenario.
#[derive(Clone, Copy)]
pub struct Row<'a> {
    pub system: &'a str,
    pub title: &'a str,
    lines: &'a str,
}

fn digit_of(byte: u8) -> u8 {
    char::from(byte).to_digit(16).map_or(0, |digit| digit as u8)
}

/// Appends text, in which `%` and two hexadecimal digits write any byte.
fn put_text(bytes: &mut Bytes, text: &str) -> Result<(), NoMemory> {
    for (k, part) in text.split('%').enumerate() {
        let part = match part.as_bytes() {
            [high, low, rest @ ..] if k > 0 => {
                bytes.push(digit_of(*high) << 4 | digit_of(*low))?;
                rest
            }
            all => all,
        };
        for byte in part {
            bytes.push(*byte)?;
        }
    }
    Ok(())
}

fn put_line(bytes: &mut Bytes, text: &str) -> Result<(), NoMemory> {
    put_text(bytes, text)?;
    bytes.push(b'\n')
}

/// Appends what a line of a row stands for: `:times COUNT TEXT` is so many lines, and `:last TEXT` one without its end.
fn put(bytes: &mut Bytes, line: &str) -> Result<(), NoMemory> {
    if let Some(text) = line.strip_prefix(":last ") {
        return put_text(bytes, text);
    }
    let Some(times) = line.strip_prefix(":times ") else {
        return put_line(bytes, line);
    };
    let (count, text) = times.split_once(' ').unwrap_or((times, ""));
    for _ in 0..count.parse::<u32>().unwrap_or(0) {
        put_line(bytes, text)?;
    }
    Ok(())
}

impl<'a> Row<'a> {
    pub fn of(text: &'a str) -> Row<'a> {
        let (head, lines) = text.split_once('\n').unwrap_or((text, ""));
        let (system, title) = head.split_once(' ').unwrap_or((head, ""));
        Row {
            system,
            title,
            lines,
        }
    }

    /// The bytes of its scenario.
    pub fn scenario(&self, alloc: Global) -> Result<Bytes, NoMemory> {
        let mut bytes = Bytes::new(alloc);
        for line in self.lines.lines() {
            put(&mut bytes, line)?;
        }
        Ok(bytes)
    }
}
