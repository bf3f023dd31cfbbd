//! Files that stand in a row, with a slash for each line feed: those of the text behind a `#`.

use crate::no_answer::NoAnswer;
use netlist::Module;
use std::alloc::{AllocError, Global};
use verilog_reader::read_module;

/// The bytes of a file.
pub(crate) fn file_of(alloc: Global, row: &str) -> Result<Vec<u8>, AllocError> {
    let mut bytes = Vec::new(alloc);
    for byte in row.as_bytes() {
        bytes.push(if *byte == b'/' { b'\n' } else { *byte })?;
    }
    Ok(bytes)
}

/// What stands before the text of a row, and the text.
pub(crate) fn parts_of(row: &str) -> (&str, &str) {
    row.split_once('#').unwrap_or((row, ""))
}

/// The module of a text.
pub(crate) fn module_of(alloc: Global, text: &str) -> Result<Module, NoAnswer> {
    let bytes = file_of(alloc, text)?;
    Ok(read_module(alloc, bytes.as_slice())?)
}
