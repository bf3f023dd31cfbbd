//! The lines that declare a memory, a register, or the net of an input.

ghost use Rattle.std.specs.Prelude.{◌≡◌, ◌≤◌, ◌<◌, ◌^◌, ◌∷◌, [], ℕ, List};
ghost use Rattle.netlist.specs.declared.line.Line.{Line};
ghost use Rattle.netlist.specs.declared.line.Memory.{Memory};
ghost use Rattle.netlist.specs.declared.line.Equation.TheVariants.{Input};
ghost use Rattle.netlist.specs.Netlists.{line_of};
ghost use Rattle.verilog_forms.specs.Forms.{Form, next};
ghost use Rattle.verilog_forms.specs.Headers.{is_next};
ghost use Rattle.verilog_forms.specs.WireLines.{number_test};
ghost use Rattle.verilog_forms.specs.MemoryLines.{address_bits_of, last_test, memory_form};
ghost use Rattle.verilog_forms.specs.RegisterLines.{register_form};
ghost use Rattle.verilog_forms.specs.InputLines.{port_test, input_wire_form, no_input_form, input_form};
ghost use Rattle.verilog_forms.specs.RightSides.{same_bytes};
ghost use Rattle.verilog_forms.specs.WholeTexts.{late_memory_form};
ghost use Rattle.verilog_reader.specs.Spots.{found, IsWithin, ahead_of, hole_from, Judges};
ghost use Rattle.verilog_reader.specs.DeclaredLines.{last_told, nothing_told};

use crate::holes::{exactly, named, number, range};
use crate::spot::{Spot, fixed, next_byte, refuse, run_at, take};
use av_base::Val;
use netlist::{Equation, Line, Memory, PortLine};
use verilog_forms::Rule;

pub(crate) fn same_bytes(one: &[u8], other: &[u8]) -> bool
    ensures { result ≡ same_bytes one.now other.now }
{
    one == other
}

/// Whether this byte stands next.
pub(crate) fn next_is(bytes: &[u8], spot: Spot, byte: u8) -> bool
    requires { IsWithin bytes.now spot }
    ensures { result ≡ is_next (byte ∷ []) (next (ahead_of bytes.now spot)) }
{
    match next_byte(bytes, spot) {
        None => false,
        Some(other) => other == byte,
    }
}

/// The spot behind a hole that has to be this number.
fn numbered(bytes: &[u8], spot: Spot, number: usize) -> Spot
    requires within { IsWithin bytes.now spot }
    requires few { number < 2 ^ 32 }
    ensures read { result ≡ hole_from (number_test number) bytes.now spot }
    ensures within { IsWithin bytes.now result }
{
    let run = run_at(bytes, spot);
    let (_, behind) = take(bytes, spot, run, exactly(run, number), 0);
    behind
}

/// The line of a net that is a register, of which no more than its width is told.
pub(crate) fn register_line(bytes: &[u8], spot: Spot, net: usize) -> (Line, Spot)
    requires within { IsWithin bytes.now spot }
    requires few { net < 2 ^ 32 }
    ensures read { found (register_form net) bytes.now spot ≡ found (Form.whole result.0) bytes.now result.1 }
    ensures within { IsWithin bytes.now result.1 }
    ensures bits { (1 ≤ result.0.width) × (result.0.width ≤ 128) }
{
    let begun = fixed(bytes, spot, b"  reg ");
    let (width, ranged) = range(bytes, begun);
    let blank = fixed(bytes, ranged, b" ");
    let behind = named(bytes, blank, net);
    let line = Line {
        width,
        equation: Equation::Reg {
            reset: Val::new(width, 0).unwrap(),
            next: net as u32,
        },
        waits: true,
    };
    (line, fixed(bytes, behind, b";\n"))
}

/// The number of address bits with this last address, or 0.
fn address_bits_of(last: u64) -> u8
    ensures { result ≡ address_bits_of last }
{
    match last {
        1 => 1,
        3 => 2,
        7 => 3,
        15 => 4,
        31 => 5,
        63 => 6,
        127 => 7,
        255 => 8,
        511 => 9,
        1023 => 10,
        _ => 0,
    }
}

/// The address bits of a memory, by its last address.
fn last_in(run: &[u8]) -> Result<u8, Rule>
    ensures { Judges last_test last_told run.now result }
{
    let Some(last) = number(run) else {
        return Err(Rule::Spelling);
    };
    let address_bits = address_bits_of(last);
    if address_bits == 0 {
        return Err(Rule::Depth);
    }
    Ok(address_bits)
}

/// The line of a memory.
pub(crate) fn memory_line(bytes: &[u8], spot: Spot, number: usize) -> (Memory, Spot)
    requires within { IsWithin bytes.now spot }
    requires few { number < 2 ^ 32 }
    ensures read { found (memory_form number) bytes.now spot ≡ found (Form.whole result.0) bytes.now result.1 }
    ensures within { IsWithin bytes.now result.1 }
{
    let begun = fixed(bytes, spot, b"  reg ");
    let (width, ranged) = range(bytes, begun);
    let lettered = fixed(bytes, ranged, b" m");
    let behind = numbered(bytes, lettered, number);
    let opened = fixed(bytes, behind, b" [0:");
    let run = run_at(bytes, opened);
    let (address_bits, closed) = take(bytes, opened, run, last_in(run), 1);
    let memory = Memory {
        width,
        address_bits,
        write: None,
    };
    (memory, fixed(bytes, closed, b"];\n"))
}

/// The line of a memory behind the last that a module may have. It is refused.
pub(crate) fn late_memory(bytes: &[u8], spot: Spot) -> Spot
    requires { IsWithin bytes.now spot }
    ensures read { (memories : List Memory)
        → found late_memory_form bytes.now spot ≡ found (Form.whole memories) bytes.now result }
    ensures within { IsWithin bytes.now result }
{
    let begun = fixed(bytes, spot, b"  reg ");
    let (_, ranged) = range(bytes, begun);
    let lettered = fixed(bytes, ranged, b" m");
    refuse(lettered, Rule::Spelling)
}

/// Whether this is the name of the port, and this its width.
fn port_in(run: &[u8], port: &PortLine, width: u8) -> Result<(), Rule>
    ensures { Judges (port_test port.now width) nothing_told run.now result }
{
    if !same_bytes(run, port.name.as_slice()) {
        return Err(Rule::Name);
    }
    if width != port.width {
        return Err(Rule::Width);
    }
    Ok(())
}

/// The line of a wire that is the net of an input, behind its first blanks.
fn input_wire(bytes: &[u8], spot: Spot, net: usize, port: &PortLine) -> Spot
    requires within { IsWithin bytes.now spot }
    requires few { net < 2 ^ 32 }
    ensures read { (number : ℕ)
        → found (input_wire_form net number port.now) bytes.now spot
        ≡ found (Form.whole (line_of port.now.width (Input number))) bytes.now result }
    ensures within { IsWithin bytes.now result }
{
    let begun = fixed(bytes, spot, b"wire ");
    let (width, ranged) = range(bytes, begun);
    let blank = fixed(bytes, ranged, b" ");
    let behind = named(bytes, blank, net);
    let right = fixed(bytes, behind, b" = ");
    let run = run_at(bytes, right);
    let (_, source) = take(bytes, right, run, port_in(run, port, width), ());
    fixed(bytes, source, b";\n")
}

/// The line of a register where an input is due, behind its first blanks. It is refused.
fn no_input(bytes: &[u8], spot: Spot) -> Spot
    requires { IsWithin bytes.now spot }
    ensures read { (line : Line) → found no_input_form bytes.now spot ≡ found (Form.whole line) bytes.now result }
    ensures within { IsWithin bytes.now result }
{
    let begun = fixed(bytes, spot, b"reg ");
    let (_, ranged) = range(bytes, begun);
    let lettered = fixed(bytes, ranged, b" n");
    refuse(lettered, Rule::Name)
}

/// The line of a net that is the input of this port.
pub(crate) fn input_line(
    bytes: &[u8],
    spot: Spot,
    net: usize,
    number: u32,
    port: &PortLine,
) -> (Line, Spot)
    requires within { IsWithin bytes.now spot }
    requires few { net < 2 ^ 32 }
    ensures read { found (input_form net number port.now) bytes.now spot ≡ found (Form.whole result.0) bytes.now result.1 }
    ensures within { IsWithin bytes.now result.1 }
    ensures width { result.0.width ≡ port.now.width }
{
    let line = Line {
        width: port.width,
        equation: Equation::Input { port: number },
        waits: false,
    };
    let begun = fixed(bytes, spot, b"  ");
    if next_is(bytes, begun, b'r') {
        (line, no_input(bytes, begun))
    } else {
        (line, input_wire(bytes, begun, net, port))
    }
}
