//! The parts of a module, as its text tells them.

ghost use Rattle.std.specs.Prelude.{◌≡◌, ◌≤◌, ◌^◌, ℕ, List as Sequence, length, All, IfOk};
ghost use Rattle.netlist.specs.Netlists.{Netlist};
ghost use Rattle.verilog_reader.specs.declared.spot.Spot.TheVariants.{At};
ghost use Rattle.verilog_forms.specs.Forms.{Form};
ghost use Rattle.verilog_forms.specs.WholeTexts.{has_output, behind_nets_form, module_form};
ghost use Rattle.verilog_reader.specs.Spots.{found, IsWithin};
ghost use Rattle.verilog_reader.specs.Sections.{HasBits};
ghost use Rattle.verilog_reader.specs.Faults.{netlist_of, with_parts};

use crate::behind_nets::{read_clocked, read_driven, read_written};
use crate::clocked::last_line;
use crate::header_lines::{Header, header_lines};
use crate::net_lines::read_nets;
use crate::sections::{inputs, memories};
use crate::spot::Spot;
use av_base::{List, NoMemory, Text};
use netlist::{Line, Memory, PortLine};
use std::alloc::Global;

/// The parts of a module.
#[derive(Drop)]
pub(crate) struct Parts {
    pub name: Text,
    pub ports: List<PortLine>,
    pub lines: Vec<Line>,
    pub drivers: Vec<Option<u32>>,
    pub memories: Vec<Memory>,
}

fn has_output(ports: &[PortLine]) -> bool
    ensures { result ≡ has_output ports.now }
{
    ports.iter().any(|port| port.output)
}

/// What stands behind the nets: what the clock does to registers and memories, and the nets that drive these ports.
fn read_behind_nets(
    alloc: Global,
    bytes: &[u8],
    start: Spot,
    ports: &[PortLine],
    lines: &mut Vec<Line>,
    memories: &mut Vec<Memory>,
) -> Result<(Vec<Option<u32>>, Spot), NoMemory>
    requires within { IsWithin bytes.now start }
    requires few { length lines.old.items ≤ 2 ^ 20 }
    requires few_memories { length memories.old.items ≤ 2 ^ 16 }
    requires bits { All HasBits lines.old.items }
    ensures read { (header : Netlist) → header.ports ≡ ports.now
        → IfOk result (λ r. found (behind_nets_form header memories.old.items lines.old.items) bytes.now start
        ≡ found (Form.whole (with_parts header lines.new.items r.0.items memories.new.items)) bytes.now r.1) }
{
    let count = memories.len();
    let clocked = read_clocked(bytes, start, count, lines);
    let written = read_written(bytes, clocked, lines.as_slice(), memories);
    let (drivers, driven) = read_driven(alloc, bytes, written, lines.as_slice(), count, ports)?;
    let end = last_line(bytes, driven, lines.as_slice(), count, has_output(ports));
    Ok((drivers, end))
}

/// The parts of a module, and where its text ends or has its first flaw.
pub(crate) fn read_parts(alloc: Global, bytes: &[u8]) -> Result<(Parts, Spot), NoMemory>
    ensures { IfOk result (λ r. found module_form bytes.now (At 0) ≡ found (Form.whole (netlist_of r.0)) bytes.now r.1) }
{
    let (header, headed) = header_lines(alloc, bytes, Spot::At(0))?;
    let (mut stored, declared) = memories(alloc, bytes, headed)?;
    let (mut lines, fed) = inputs(alloc, bytes, declared, header.ports.as_slice())?;
    let netted = read_nets(bytes, fed, stored.as_slice(), &mut lines)?;
    let (drivers, end) = read_behind_nets(
        alloc,
        bytes,
        netted,
        header.ports.as_slice(),
        &mut lines,
        &mut stored,
    )?;
    let Header { name, ports } = header;
    Ok((
        Parts {
            name,
            ports,
            lines,
            drivers,
            memories: stored,
        },
        end,
    ))
}
