//! The lines of the nets behind those of the inputs.

ghost use Rattle.std.specs.Prelude.{◌≡◌, ℕ, ◌-◌, ◌≤◌, ◌^◌, length, All, IfOk, OnOk, if◌then◌else◌};
ghost use Rattle.verilog_forms.specs.Forms.{Form};
ghost use Rattle.verilog_reader.specs.Spots.{found, IsWithin};
ghost use Rattle.verilog_forms.specs.WireLines.{wire_form};
ghost use Rattle.verilog_forms.specs.RegisterLines.{register_form};
ghost use Rattle.verilog_forms.specs.WholeTexts.{nets_form};
ghost use Rattle.verilog_reader.specs.Sections.{HasBits};

use crate::declared_lines::register_line;
use crate::holes::{named, range};
use crate::line_kinds::begins_line;
use crate::right::right_side;
use crate::spot::{Spot, fixed, refuse};
use av_base::NoMemory;
use netlist::{Line, Memory};
use verilog_forms::Rule;

/// How many nets a module may have.
pub(crate) const MOST_NETS: usize = 1 << 20;

/// The line of a wire behind these nets.
pub(crate) fn wire_line(
    bytes: &[u8],
    spot: Spot,
    memories: &[Memory],
    lines: &[Line],
) -> (Line, Spot)
    requires within { IsWithin bytes.now spot }
    requires few { length lines.now ≤ 2 ^ 20 }
    requires few_memories { length memories.now ≤ 2 ^ 16 }
    ensures read { found (wire_form memories.now lines.now (length lines.now)) bytes.now spot
        ≡ found (Form.whole result.0) bytes.now result.1 }
    ensures within { IsWithin bytes.now result.1 }
    ensures some_bit { 1 ≤ result.0.width }
    ensures small { result.0.width ≤ 128 }
{
    let begun = fixed(bytes, spot, b"  wire ");
    let (width, ranged) = range(bytes, begun);
    let blank = fixed(bytes, ranged, b" ");
    let behind = named(bytes, blank, lines.len());
    let equals = fixed(bytes, behind, b" = ");
    let (equation, right) = right_side(bytes, equals, memories, lines, width);
    let line = Line {
        width,
        equation,
        waits: false,
    };
    (line, fixed(bytes, right, b";\n"))
}

/// The line of a wire or a register behind these nets.
fn net_line(
    bytes: &[u8],
    spot: Spot,
    memories: &[Memory],
    lines: &[Line],
    is_wire: bool,
) -> (Line, Spot)
    requires within { IsWithin bytes.now spot }
    requires few { length lines.now ≤ 2 ^ 20 }
    requires few_memories { length memories.now ≤ 2 ^ 16 }
    ensures read { found
        (if is_wire then wire_form memories.now lines.now (length lines.now)
        else register_form (length lines.now)) bytes.now spot
        ≡ found (Form.whole result.0) bytes.now result.1 }
    ensures within { IsWithin bytes.now result.1 }
    ensures bits { HasBits result.0 }
{
    if is_wire {
        wire_line(bytes, spot, memories, lines)
    } else {
        register_line(bytes, spot, lines.len())
    }
}

/// Adds the wires and registers behind these nets, of which there may be 2^20 in all.
pub(crate) fn read_nets(
    bytes: &[u8],
    spot: Spot,
    memories: &[Memory],
    lines: &mut Vec<Line>,
) -> Result<Spot, NoMemory>
    requires within { IsWithin bytes.now spot }
    requires few { length lines.old.items ≤ 2 ^ 20 }
    requires few_memories { length memories.now ≤ 2 ^ 16 }
    requires widths { All HasBits lines.old.items }
    ensures read { IfOk result (λ behind. found
        (nets_form (2 ^ 20 - length lines.old.items) memories.now lines.old.items) bytes.now spot
        ≡ found (Form.whole lines.new.items) bytes.now behind) }
    ensures within { IfOk result (λ behind. IsWithin bytes.now behind) }
    ensures few { length lines.new.items ≤ 2 ^ 20 }
    ensures widths { OnOk result (All HasBits lines.new.items) }
{
    let mut at = spot;
    'nets: loop {
        let is_wire = begins_line(bytes, at, b'w');
        if !is_wire && !begins_line(bytes, at, b'r') {
            return Ok(at);
        }
        if lines.len() >= MOST_NETS {
            return Ok(refuse(at, Rule::TooManyNets));
        }
        let (line, behind) = net_line(bytes, at, memories, lines.as_slice(), is_wire);
        lines.push(line)?;
        at = behind;
    }
}
