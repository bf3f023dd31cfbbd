//! The sections of a text behind the nets, line after line.

ghost use Rattle.std.specs.Prelude.{◌≡◌, ◌≤◌, ◌^◌, ◌||◌, ℕ, List, length, false, All, IfOk};
ghost use Rattle.netlist.specs.declared.line.Line.{Line};
ghost use Rattle.netlist.specs.declared.line.Memory.{Memory};
ghost use Rattle.netlist.specs.Netlists.{is_register};
ghost use Rattle.verilog_forms.specs.Forms.{Form};
ghost use Rattle.verilog_reader.specs.Spots.{found, IsWithin};
ghost use Rattle.verilog_forms.specs.WholeTexts.{clocked_form, all_clocked_form, all_written_form, all_driven_form};
ghost use Rattle.verilog_reader.specs.ClockedParts.{SameWidths};
ghost use Rattle.verilog_reader.specs.Sections.{HasBits, driven_form};

use crate::clocked::{assign_line, clock_line, write_line};
use crate::spot::Spot;
use av_base::NoMemory;
use netlist::{Equation, Line, Memory, PortLine};
use std::alloc::Global;

fn is_register(equation: Equation) -> bool
    ensures { result ≡ is_register equation }
{
    matches!(equation, Equation::Reg { .. })
}

/// A net with what its clocked line tells, if it is a register.
fn clocked_net(
    bytes: &[u8],
    spot: Spot,
    lines: &[Line],
    memories: usize,
    net: usize,
    line: Line,
) -> (Line, Spot)
    requires within { IsWithin bytes.now spot }
    requires few { length lines.now ≤ 2 ^ 20 }
    requires few_memories { memories ≤ 2 ^ 32 }
    requires bits { HasBits line }
    ensures read { (old : List Line) (all : List Memory) → SameWidths old lines.now → length all ≡ memories
        → found (clocked_form all old net line) bytes.now spot ≡ found (Form.whole result.0) bytes.now result.1 }
    ensures within { IsWithin bytes.now result.1 }
    ensures width { result.0.width ≡ line.width }
{
    if is_register(line.equation) {
        clock_line(bytes, spot, lines, memories, net, line)
    } else {
        (line, spot)
    }
}

/// Tells the registers among these nets what their clocked lines say.
pub(crate) fn read_clocked(
    bytes: &[u8],
    start: Spot,
    memories: usize,
    lines: &mut Vec<Line>,
) -> Spot
    requires within { IsWithin bytes.now start }
    requires few { length lines.old.items ≤ 2 ^ 20 }
    requires few_memories { memories ≤ 2 ^ 32 }
    requires bits { All HasBits lines.old.items }
    ensures read { (all : List Memory) → length all ≡ memories
        → found (all_clocked_form all lines.old.items 0 lines.old.items) bytes.now start
        ≡ found (Form.whole lines.new.items) bytes.now result }
    ensures within { IsWithin bytes.now result }
    ensures widths { SameWidths lines.old.items lines.new.items }
{
    let mut spot = start;
    'nets: for net in 0..lines.len() {
        let line = lines[net];
        let (clocked, behind) = clocked_net(bytes, spot, lines.as_slice(), memories, net, line);
        lines[net] = clocked;
        spot = behind;
    }
    spot
}

/// Tells these memories what is written to them.
pub(crate) fn read_written(
    bytes: &[u8],
    start: Spot,
    lines: &[Line],
    memories: &mut Vec<Memory>,
) -> Spot
    requires within { IsWithin bytes.now start }
    requires few { length lines.now ≤ 2 ^ 20 }
    requires few_memories { length memories.old.items ≤ 2 ^ 16 }
    ensures read { (old : List Line) → SameWidths old lines.now
        → found (all_written_form memories.old.items old 0 memories.old.items) bytes.now start
        ≡ found (Form.whole memories.new.items) bytes.now result }
    ensures within { IsWithin bytes.now result }
    ensures count { length memories.new.items ≡ length memories.old.items }
{
    let count = memories.len();
    let mut spot = start;
    'memories: for number in 0..count {
        let memory = memories[number];
        let (write, behind) = write_line(bytes, spot, lines, count, number, &memory);
        memories[number] = Memory {
            width: memory.width,
            address_bits: memory.address_bits,
            write: Some(write),
        };
        spot = behind;
    }
    spot
}

/// What drives a port: a net, if the port is an output.
fn driven(
    bytes: &[u8],
    spot: Spot,
    lines: &[Line],
    memories: usize,
    assigned: bool,
    port: &PortLine,
) -> (Option<u32>, Spot)
    requires within { IsWithin bytes.now spot }
    requires few { length lines.now ≤ 2 ^ 20 }
    requires few_memories { memories ≤ 2 ^ 32 }
    ensures read { (old : List Line) (all : List Memory) → SameWidths old lines.now → length all ≡ memories
        → found (driven_form all old assigned port.now) bytes.now spot ≡ found (Form.whole result.0) bytes.now result.1 }
    ensures within { IsWithin bytes.now result.1 }
{
    if port.output {
        let (net, behind) = assign_line(bytes, spot, lines, memories, assigned, port);
        (Some(net), behind)
    } else {
        (None, spot)
    }
}

fn either(a: bool, b: bool) -> bool
    ensures { result ≡ (a || b) }
{
    a || b
}

/// What drives each of these ports.
pub(crate) fn read_driven(
    alloc: Global,
    bytes: &[u8],
    start: Spot,
    lines: &[Line],
    memories: usize,
    ports: &[PortLine],
) -> Result<(Vec<Option<u32>>, Spot), NoMemory>
    requires within { IsWithin bytes.now start }
    requires few { length lines.now ≤ 2 ^ 20 }
    requires few_memories { memories ≤ 2 ^ 32 }
    ensures read { (old : List Line) (all : List Memory) → SameWidths old lines.now → length all ≡ memories
        → IfOk result (λ r. found (all_driven_form all old false ports.now) bytes.now start
        ≡ found (Form.whole r.0.items) bytes.now r.1) }
    ensures within { IfOk result (λ r. IsWithin bytes.now r.1) }
{
    let mut drivers = Vec::new(alloc);
    let mut spot = start;
    let mut assigned = false;
    'ports: for port in ports {
        let (driver, behind) = driven(bytes, spot, lines, memories, assigned, port);
        drivers.push(driver)?;
        assigned = either(assigned, port.output);
        spot = behind;
    }
    Ok((drivers, spot))
}
