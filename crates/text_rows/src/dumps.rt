//! Rows of dumps, each behind a title `:row TITLE`: the rows that a dump has, or the first byte that breaks a rule.

use std::alloc::Global;
use std::io;
use vcd_reader::undumps::{UndumpFault, undump};

/// Tells why a dump isn't read.
fn tell_fault(rt: &HostRuntime, fault: UndumpFault) -> io::Result<()> {
    match fault {
        UndumpFault::Refused { byte, rule } => {
            println!(rt; "dump refused: byte {byte} rule G{}", rule.number())
        }
        UndumpFault::TooManyValues { count } => println!(rt; "limit: L6 count {count}"),
        UndumpFault::NoMemory => Err(io::ErrorKind::OutOfMemory.into()),
    }
}

/// Tells what is read of a dump.
fn tell_dump(rt: &HostRuntime, alloc: Global, dump: &str) -> io::Result<()> {
    if dump.len() > 16_777_216 {
        return println!(rt; "limit: L5 count 16777217");
    }
    match undump(alloc, dump.as_bytes()) {
        Ok(rows) => print!(rt; "{}", str::from_utf8(rows.as_slice()).unwrap_or("no text")),
        Err(fault) => tell_fault(rt, fault),
    }
}

/// Tells each title, and what is read of the dump behind it.
pub(crate) fn tell_dumps(rt: &HostRuntime, rows: &str) -> io::Result<()> {
    for row in rows.split(":row ") {
        if let Some((title, dump)) = row.split_once('\n') {
            println!(rt; "{title}:")?;
            tell_dump(rt, rt.alloc(), dump)?;
        }
    }
    Ok(())
}
