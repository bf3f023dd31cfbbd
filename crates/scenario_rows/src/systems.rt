//! The systems that stand above the rows.

use av_base::{Bytes, List, NoMemory};
use row_steps::{System, system_of};
use std::alloc::Global;

/// The names of a system's parts, from its line.
fn parts_named<'a>(heads: &'a str, name: &str) -> &'a str {
    for line in heads.lines() {
        if let Some(system) = line.strip_prefix(":system ")
            && let Some((head, parts)) = system.split_once(' ')
            && head == name
        {
            return parts;
        }
    }
    ""
}

/// The lines of the part of this name.
fn part_named<'a>(heads: &'a str, name: &str) -> &'a str {
    for part in heads.split("\n:part ") {
        if let Some((head, lines)) = part.split_once('\n')
            && head == name
        {
            return lines;
        }
    }
    ""
}

fn file_of(alloc: Global, text: &str) -> Result<Bytes, NoMemory> {
    let mut bytes = Bytes::new(alloc);
    for byte in text.bytes() {
        bytes.push(byte)?;
    }
    Ok(bytes)
}

/// The system of this name. The first of its parts is its script, the others are its components.
pub fn system_named(alloc: Global, heads: &str, name: &str) -> Result<Option<System>, NoMemory> {
    let mut files = List::new(alloc);
    for part in parts_named(heads, name).split(' ') {
        files.push(file_of(alloc, part_named(heads, part))?)?;
    }
    system_of(alloc, files.as_slice())
}
