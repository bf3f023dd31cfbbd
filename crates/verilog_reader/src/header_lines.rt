//! The header of a module: its name and its ports.

ghost use Rattle.std.specs.Prelude.{◌≡◌, ◌^◌, ◌-◌, ◌<◌, ◌&&◌, ℕ, List, [], ◌∷◌, ◌++◌, length, true, nat_lt, codes, All, IfOk, OnOk};
ghost use Rattle.std.specs.List.{list_all};
ghost use Rattle.netlist.specs.declared.line.PortLine.{PortLine};
ghost use Rattle.netlist.specs.Names.{begins_with_letter, is_name_byte};
ghost use Rattle.netlist.specs.Netlists.{started};
ghost use Rattle.verilog_forms.specs.Forms.{Form, is_hole_byte, next};
ghost use Rattle.verilog_forms.specs.Headers.{is_next, module_name_test, port_name_test, described_form, port_form, ports_form, header_form};
ghost use Rattle.verilog_reader.specs.Spots.{found, IsWithin, ahead_of, Judges};
ghost use Rattle.verilog_reader.specs.DeclaredLines.{nothing_told};
ghost use Rattle.verilog_reader.specs.PortNames.{AreNamed, HasWires};

use crate::declared_lines::next_is;
use crate::holes::range;
use crate::spot::{Spot, fixed, run_at, take};
use av_base::{List, NoMemory, Text};
use netlist::PortLine;
use std::alloc::Global;
use std::collections::HashSet;
use verilog_forms::Rule;

/// The most ports that a module may have.
const PORT_LIMIT: usize = u32::MAX as usize;

fn begins_with_letter(name: &[u8]) -> bool
    ensures { result ≡ begins_with_letter name.now }
{
    matches!(name, [first, ..] if first.is_ascii_alphabetic())
}

fn is_name_byte(byte: u8) -> bool
    ensures { result ≡ is_name_byte byte }
{
    byte.is_ascii_alphanumeric() || byte == b'_'
}

fn has_name_bytes(run: &[u8]) -> bool
    ensures { result ≡ list_all is_name_byte run.now }
{
    run.iter().all(|byte| is_name_byte(*byte))
}

/// Whether a hole is the name of a module.
fn module_name_in(run: &[u8]) -> Result<(), Rule>
    ensures { Judges module_name_test nothing_told run.now result }
{
    if !begins_with_letter(run) {
        return Err(Rule::Name);
    }
    if !has_name_bytes(run) {
        return Err(Rule::Name);
    }
    if !run.ends_with(b"_interconnect") {
        return Err(Rule::Name);
    }
    Ok(())
}

/// A hole as text, which its bytes are.
fn text_of(run: &[u8]) -> &str
    requires { list_all is_hole_byte run.now ≡ true }
    ensures { result.now ≡ run.now }
{
    match str::from_utf8(run) {
        Ok(text) => text,
        Err(_) => unreachable!(),
    }
}

/// Whether a hole is the name of a port behind those of these names.
fn port_name_in(run: &[u8], names: &HashSet<String>) -> Result<(), Rule>
    requires { list_all is_hole_byte run.now ≡ true }
    ensures { (ports : List PortLine) → AreNamed ports names.now → Judges (port_name_test ports) nothing_told run.now result }
{
    if !begins_with_letter(run) {
        return Err(Rule::Name);
    }
    if !run.contains(&b'$') {
        return Err(Rule::Name);
    }
    if names.contains(text_of(run)) {
        return Err(Rule::Name);
    }
    Ok(())
}

/// What stands behind the direction of a port.
fn described(
    alloc: Global,
    bytes: &[u8],
    spot: Spot,
    names: &HashSet<String>,
    output: bool,
) -> Result<(PortLine, Spot), NoMemory>
    requires { IsWithin bytes.now spot }
    ensures read { IfOk result (λ r. (ports : List PortLine) → AreNamed ports names.now
        → found (described_form ports output) bytes.now spot ≡ found (Form.whole r.0) bytes.now r.1) }
    ensures within { IfOk result (λ r. IsWithin bytes.now r.1) }
    ensures widths { IfOk result (λ r. HasWires r.0) }
{
    let begun = fixed(bytes, spot, b" wire ");
    let (width, ranged) = range(bytes, begun);
    let blank = fixed(bytes, ranged, b" ");
    let run = run_at(bytes, blank);
    let name = Text::copy(alloc, text_of(run))?;
    let (_, end) = take(bytes, blank, run, port_name_in(run, names), ());
    let port = PortLine {
        name,
        width,
        output,
    };
    Ok((port, end))
}

/// The line of a port behind those of these names.
fn port_line(
    alloc: Global,
    bytes: &[u8],
    spot: Spot,
    names: &HashSet<String>,
) -> Result<(PortLine, Spot), NoMemory>
    requires { IsWithin bytes.now spot }
    ensures read { IfOk result (λ r. (ports : List PortLine) → AreNamed ports names.now
        → found (port_form ports) bytes.now spot ≡ found (Form.whole r.0) bytes.now r.1) }
    ensures within { IfOk result (λ r. IsWithin bytes.now r.1) }
    ensures widths { IfOk result (λ r. HasWires r.0) }
{
    let begun = fixed(bytes, spot, b",\n  ");
    if next_is(bytes, begun, b'o') {
        let directed = fixed(bytes, begun, b"output");
        described(alloc, bytes, directed, names, true)
    } else {
        let directed = fixed(bytes, begun, b"input");
        described(alloc, bytes, directed, names, false)
    }
}

/// Adds the name of a port.
fn add_name(alloc: Global, names: &mut HashSet<String>, port: &PortLine) -> Result<(), NoMemory>
    ensures { OnOk result ((ports : List PortLine) → AreNamed ports names.old → AreNamed (ports ++ port.now ∷ []) names.new) }
{
    let name = String::from_str(alloc, port.name.as_str())?;
    names.insert(name)?;
    Ok(())
}

/// Whether another port comes next, for which there is room.
fn port_next(bytes: &[u8], spot: Spot, count: usize) -> bool
    requires { IsWithin bytes.now spot }
    ensures { result ≡ (nat_lt count (2 ^ 32 - 1) && is_next (codes ",") (next (ahead_of bytes.now spot))) }
{
    count < PORT_LIMIT && next_is(bytes, spot, b',')
}

/// The lines of the ports.
fn port_lines(alloc: Global, bytes: &[u8], spot: Spot) -> Result<(List<PortLine>, Spot), NoMemory>
    requires { IsWithin bytes.now spot }
    ensures read { IfOk result (λ r. (all : ℕ) → all ≡ 2 ^ 32 - 1
        → found (ports_form all []) bytes.now spot ≡ found (Form.whole r.0) bytes.now r.1) }
    ensures within { IfOk result (λ r. IsWithin bytes.now r.1) }
    ensures few { IfOk result (λ r. length r.0 < 2 ^ 32) }
    ensures widths { IfOk result (λ r. All HasWires r.0) }
{
    let mut ports = List::new(alloc);
    let mut names = HashSet::new(alloc);
    let mut at = spot;
    'ports: while port_next(bytes, at, ports.len()) {
        let (port, behind) = port_line(alloc, bytes, at, &names)?;
        add_name(alloc, &mut names, &port)?;
        ports.push(port)?;
        at = behind;
    }
    Ok((ports, at))
}

/// The name of a module and its ports.
#[derive(Drop)]
pub(crate) struct Header {
    pub(crate) name: Text,
    pub(crate) ports: List<PortLine>,
}

/// The header of a module.
pub(crate) fn header_lines(
    alloc: Global,
    bytes: &[u8],
    spot: Spot,
) -> Result<(Header, Spot), NoMemory>
    requires { IsWithin bytes.now spot }
    ensures read { IfOk result (λ r. found header_form bytes.now spot
        ≡ found (Form.whole (started r.0.name r.0.ports)) bytes.now r.1) }
    ensures within { IfOk result (λ r. IsWithin bytes.now r.1) }
    ensures few { IfOk result (λ r. length r.0.ports < 2 ^ 32) }
    ensures widths { IfOk result (λ r. All HasWires r.0.ports) }
{
    let begun = fixed(bytes, spot, b"module ");
    let run = run_at(bytes, begun);
    let name = Text::copy(alloc, text_of(run))?;
    let (_, named) = take(bytes, begun, run, module_name_in(run), ());
    let opened = fixed(bytes, named, b" (\n  input wire clk,\n  input wire reset");
    let (ports, listed) = port_lines(alloc, bytes, opened)?;
    let end = fixed(bytes, listed, b"\n);\n");
    Ok((Header { name, ports }, end))
}
