//! Reads texts as modules, and each text that is one of them with one byte changed or cut short, and prints what is answered: of
//! each text by itself, and of those that are made of it how many answers there are of each kind.

use crate::tally::Tally;
use netlist::Module;
use std::alloc::Global;
use std::io;
use verilog_reader::{TextFault, read_module};
use verilog_writer::write_module;

/// Whether the text of the module is this one.
fn is_text_of(alloc: Global, module: &Module, bytes: &[u8]) -> bool {
    match write_module(alloc, module) {
        Ok(text) => text.as_slice() == bytes,
        Err(_) => false,
    }
}

fn tell_answer(rt: &HostRuntime, title: &str, bytes: &[u8]) -> io::Result<()> {
    let alloc = rt.alloc();
    match read_module(alloc, bytes) {
        Ok(module) => {
            let nets = module.net_count();
            let memories = module.memory_count();
            let again = if is_text_of(alloc, &module, bytes) {
                "written again"
            } else {
                "not written again"
            };
            println!(rt; "{title}: nets {nets} memories {memories}, {again}")
        }
        Err(TextFault::Refused { byte, rule }) => println!(rt; "{title}: byte {byte} rule V{rule}"),
        Err(TextFault::TooManyNets) => println!(rt; "{title}: too many nets"),
        Err(TextFault::NoMemory) => println!(rt; "{title}: no memory"),
    }
}

/// Tells what is answered to each beginning of a text.
fn tell_beginnings(rt: &HostRuntime, bytes: &[u8]) -> io::Result<()> {
    let mut tally = Tally::new();
    for len in 0..bytes.len() {
        tally.count(&read_module(rt.alloc(), &bytes[..len]));
    }
    println!(rt; "  beginnings: {tally}")
}

/// Tells what is answered to a text with each of its bytes replaced by each byte.
fn tell_changes(rt: &HostRuntime, bytes: &[u8]) -> io::Result<()> {
    let Ok(mut text) = Vec::from_slice(rt.alloc(), bytes) else {
        return Err(io::ErrorKind::OutOfMemory.into());
    };
    let mut tally = Tally::new();
    for at in 0..text.len() {
        let old = text[at];
        for byte in 0..=255u8 {
            text[at] = byte;
            tally.count(&read_module(rt.alloc(), text.as_slice()));
        }
        text[at] = old;
    }
    println!(rt; "  changes: {tally}")
}

fn tell_row(rt: &HostRuntime, row: &str) -> io::Result<()> {
    let (title, text) = row.split_once('\n').unwrap_or((row, ""));
    match title.strip_prefix("each ") {
        None => tell_answer(rt, title, text.as_bytes()),
        Some(title) => {
            tell_answer(rt, title, text.as_bytes())?;
            tell_beginnings(rt, text.as_bytes())?;
            tell_changes(rt, text.as_bytes())
        }
    }
}

/// Tells of texts, each behind a line of its title.
pub fn tell_texts(rt: &HostRuntime, texts: &str) -> io::Result<()> {
    for text in texts.split("\n:text ") {
        tell_row(rt, text)?;
    }
    Ok(())
}
