//! Reads rows of packets, of files and of dumps from the standard input, each kind behind a line `:rows KIND`, and prints the
//! line and what is read of each row.
#![tactic(auto)]

mod dumps;
mod files;
mod packets;
mod row;

use std::io;

/// Tells what is read of rows of a kind.
fn tell_rows(rt: &HostRuntime, kind: &str, rows: &str) -> io::Result<()> {
    println!(rt; ":rows {kind}")?;
    match kind {
        "packets" => packets::tell_packets(rt, rows),
        "files" => files::tell_files(rt, rows),
        "dumps" => dumps::tell_dumps(rt, rows),
        _ => Ok(()),
    }
}

fn main(rt: HostRuntime) -> io::Result<()> {
    let text = io::read_to_string(rt.alloc(), rt.reader())?;
    for part in text.split(":rows ") {
        if let Some((kind, rows)) = part.split_once('\n') {
            tell_rows(&rt, kind, rows)?;
        }
    }
    Ok(())
}
