//! The sections of a text up to the nets, line after line.

ghost use Rattle.std.specs.Prelude.{◌≡◌, ◌≤◌, ◌<◌, ◌^◌, ◌+◌, ◌&&◌, ℕ, List, ◌∷◌, not, false, nat_lt, length, All, IfOk, OnOk};
ghost use Rattle.netlist.specs.declared.line.Line.{Line};
ghost use Rattle.netlist.specs.declared.line.Memory.{Memory};
ghost use Rattle.netlist.specs.declared.line.PortLine.{PortLine};
ghost use Rattle.verilog_reader.specs.declared.spot.Spot.{Spot};
ghost use Rattle.verilog_forms.specs.Forms.{Form};
ghost use Rattle.verilog_forms.specs.InputLines.{input_form};
ghost use Rattle.verilog_forms.specs.WholeTexts.{is_net_line, memories_form, room_form, inputs_form};
ghost use Rattle.verilog_reader.specs.Spots.{found, IsWithin, ahead_of};
ghost use Rattle.verilog_reader.specs.Sections.{is_flawed, HasBits, Leads};
ghost use Rattle.verilog_reader.specs.PortNames.{HasWires};

use crate::declared_lines::{input_line, late_memory, memory_line};
use crate::line_kinds::{is_memory_line, is_net_line};
use crate::net_lines::MOST_NETS;
use crate::spot::{Spot, refuse};
use av_base::NoMemory;
use netlist::{Equation, Line, Memory, PortLine};
use std::alloc::Global;
use verilog_forms::{Rule, input_lines};

/// The most memories that a module has.
const MOST_MEMORIES: usize = 1 << 16;

/// Whether a flaw was met.
pub(crate) fn is_flawed(spot: Spot) -> bool
    ensures { result ≡ is_flawed spot }
{
    match spot {
        Spot::At(_) => false,
        Spot::Flawed { at: _, rule: _ } => true,
    }
}

/// The memories, in the order of their lines, and where their lines end.
pub(crate) fn memories(
    alloc: Global,
    bytes: &[u8],
    start: Spot,
) -> Result<(Vec<Memory>, Spot), NoMemory>
    requires { IsWithin bytes.now start }
    ensures read { (most : ℕ) → most ≡ 2 ^ 16
        → IfOk result (λ r. found (memories_form most 0) bytes.now start ≡ found (Form.whole r.0.items) bytes.now r.1) }
    ensures within { IfOk result (λ r. IsWithin bytes.now r.1) }
    ensures few { IfOk result (λ r. length r.0.items ≤ 2 ^ 16) }
{
    let mut memories = Vec::new(alloc);
    let mut spot = start;
    'memory: while is_memory_line(bytes, spot) {
        if memories.len() == MOST_MEMORIES {
            return Ok((memories, late_memory(bytes, spot)));
        }
        let (memory, behind) = memory_line(bytes, spot, memories.len());
        memories.push(memory)?;
        spot = behind;
    }
    Ok((memories, spot))
}

/// Whether the line of this net stands ahead, and a module has no room for it.
fn has_no_room(bytes: &[u8], spot: Spot, net: usize) -> bool
    requires { IsWithin bytes.now spot }
    ensures { result ≡ (is_net_line (ahead_of bytes.now spot) && not (nat_lt net (2 ^ 20))) }
{
    is_net_line(bytes, spot) && net >= MOST_NETS
}

/// The line of the net behind these, the input of this port, where there is room for a net.
fn input(bytes: &[u8], spot: Spot, lines: &[Line], number: u32, port: &PortLine) -> (Line, Spot)
    requires within { IsWithin bytes.now spot }
    requires few { length lines.now < 2 ^ 32 }
    ensures read { found (room_form (length lines.now) (input_form (length lines.now) number port.now)) bytes.now spot
        ≡ found (Form.whole result.0) bytes.now result.1 }
    ensures within { IsWithin bytes.now result.1 }
    ensures width { result.0.width ≡ port.now.width }
{
    if has_no_room(bytes, spot, lines.len()) {
        let line = Line {
            width: port.width,
            equation: Equation::Input { port: number },
            waits: false,
        };
        (line, refuse(spot, Rule::TooManyNets))
    } else {
        input_line(bytes, spot, lines.len(), number, port)
    }
}

/// Adds the net of an input.
fn add_input(
    bytes: &[u8],
    spot: Spot,
    number: u32,
    port: &PortLine,
    lines: &mut Vec<Line>,
) -> Result<Spot, NoMemory>
    requires within { IsWithin bytes.now spot }
    requires few { length lines.old.items < 2 ^ 32 }
    requires input { port.now.output ≡ false }
    requires width { HasWires port.now }
    requires widths { All HasBits lines.old.items }
    ensures leads { IfOk result (λ behind. (all : Form (List Line)) (start : Spot) (ports : List PortLine)
        → Leads all bytes.now start lines.old.items (inputs_form (length lines.old.items) number (port.now ∷ ports)) spot
        → Leads all bytes.now start lines.new.items (inputs_form (length lines.new.items) (number + 1) ports) behind) }
    ensures within { IfOk result (λ behind. IsWithin bytes.now behind) }
    ensures room { IfOk result (λ behind. is_flawed behind ≡ false → length lines.old.items ≤ 2 ^ 20
        → length lines.new.items ≤ 2 ^ 20) }
    ensures widths { OnOk result (All HasBits lines.new.items) }
{
    input_lines();
    let (line, behind) = input(bytes, spot, lines.as_slice(), number, port);
    lines.push(line)?;
    Ok(behind)
}

/// Adds the net of a port, if that is an input.
fn add_port(
    bytes: &[u8],
    spot: Spot,
    number: u32,
    port: &PortLine,
    lines: &mut Vec<Line>,
) -> Result<Spot, NoMemory>
    requires within { IsWithin bytes.now spot }
    requires few { length lines.old.items < 2 ^ 32 }
    requires width { HasWires port.now }
    requires widths { All HasBits lines.old.items }
    ensures leads { IfOk result (λ behind. (all : Form (List Line)) (start : Spot) (ports : List PortLine)
        → Leads all bytes.now start lines.old.items (inputs_form (length lines.old.items) number (port.now ∷ ports)) spot
        → Leads all bytes.now start lines.new.items (inputs_form (length lines.new.items) (number + 1) ports) behind) }
    ensures within { IfOk result (λ behind. IsWithin bytes.now behind) }
    ensures room { IfOk result (λ behind. is_flawed behind ≡ false → length lines.old.items ≤ 2 ^ 20
        → length lines.new.items ≤ 2 ^ 20) }
    ensures widths { OnOk result (All HasBits lines.new.items) }
{
    if port.output {
        Ok(spot)
    } else {
        add_input(bytes, spot, number, port, lines)
    }
}

/// The nets of the inputs among these ports, and where their lines end.
pub(crate) fn inputs(
    alloc: Global,
    bytes: &[u8],
    start: Spot,
    ports: &[PortLine],
) -> Result<(Vec<Line>, Spot), NoMemory>
    requires within { IsWithin bytes.now start }
    requires few { length ports.now < 2 ^ 32 }
    requires widths { All HasWires ports.now }
    ensures read { IfOk result (λ r. found (inputs_form 0 0 ports.now) bytes.now start
        ≡ found (Form.whole r.0.items) bytes.now r.1) }
    ensures within { IfOk result (λ r. IsWithin bytes.now r.1) }
    ensures few { IfOk result (λ r. length r.0.items ≤ 2 ^ 20) }
    ensures widths { IfOk result (λ r. All HasBits r.0.items) }
{
    let mut lines: Vec<Line> = Vec::new(alloc);
    let mut spot = start;
    let mut number = 0;
    'port: for port in ports {
        spot = add_port(bytes, spot, number, port, &mut lines)?;
        if is_flawed(spot) {
            return Ok((Vec::new(alloc), spot));
        }
        number += 1;
    }
    Ok((lines, spot))
}
