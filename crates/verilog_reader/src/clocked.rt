//! The lines behind the nets: what the clock does to a register and to a memory, and the lines of outputs.

ghost use Rattle.std.specs.Prelude.{◌≡◌, ◌≤◌, ◌<◌, ◌^◌, ◌&&◌, ℕ, Bool, List, length, not, codes};
ghost use Rattle.netlist.specs.declared.line.Line.{Line};
ghost use Rattle.netlist.specs.declared.line.Memory.{Memory};
ghost use Rattle.netlist.specs.Netlists.{Netlist};
ghost use Rattle.verilog_forms.specs.Forms.{Form, next};
ghost use Rattle.verilog_forms.specs.Headers.{is_next};
ghost use Rattle.verilog_forms.specs.ClockedLines.{clocked_net_test, clocked_memory_test, clocked_memory_form, other_net_form, other_memory_form, next_form, clock_form, write_form, output_test, driver_form, assign_form};
ghost use Rattle.verilog_forms.specs.WholeTexts.{nothing_form, last_form};
ghost use Rattle.verilog_reader.specs.Spots.{found, IsWithin, ahead_of, hole_from, Judges};
ghost use Rattle.verilog_reader.specs.DeclaredLines.{nothing_told};
ghost use Rattle.verilog_reader.specs.ClockedParts.{SameWidths, Tells, due_test, Passes, is_due, clocked_register_form, written_memory_form, other_clocked_form, late_form};

use crate::constants::constant;
use crate::declared_lines::{next_is, same_bytes};
use crate::holes::{Wanted, net_number, number, operand};
use crate::spot::{Spot, fixed, next_byte, refuse, run_at, take};
use netlist::{Equation, Line, MemWrite, Memory, PortLine};
use verilog_forms::Rule;

/// Whether a number is that of the net or memory that is due, among so many.
fn due_in(number: Option<u64>, count: usize, due: Option<usize>) -> Result<(), Rule>
    requires { count ≤ 2 ^ 32 }
    ensures { (spelled : Bool) (n : ℕ) → Tells spelled n number → Passes (due_test spelled n count due) result }
{
    let Some(told) = number else {
        return Err(Rule::Spelling);
    };
    if told >= count as u64 {
        return Err(Rule::NotThere);
    }
    let Some(due) = due else {
        return Err(Rule::Order);
    };
    if told != due as u64 {
        return Err(Rule::Order);
    }
    Ok(())
}

/// Whether a hole names the net that is due, among so many.
fn net_in(run: &[u8], count: usize, due: Option<usize>) -> Result<(), Rule>
    requires { count ≤ 2 ^ 32 }
    ensures { (lines : List Line) → length lines ≡ count
        → Judges (clocked_net_test lines (is_due due)) nothing_told run.now result }
{
    due_in(net_number(run), count, due)
}

/// Whether a hole numbers the memory that is due, among so many.
fn memory_in(run: &[u8], count: usize, due: Option<usize>) -> Result<(), Rule>
    requires { count ≤ 2 ^ 32 }
    ensures { (memories : List Memory) → length memories ≡ count
        → Judges (clocked_memory_test memories (is_due due)) nothing_told run.now result }
{
    due_in(number(run), count, due)
}

/// The spot behind the name of a net, which has to be the one that is due.
fn clocked_net(bytes: &[u8], spot: Spot, count: usize, due: Option<usize>) -> Spot
    requires within { IsWithin bytes.now spot }
    requires few { count ≤ 2 ^ 32 }
    ensures read { (lines : List Line) → length lines ≡ count
        → result ≡ hole_from (clocked_net_test lines (is_due due)) bytes.now spot }
    ensures within { IsWithin bytes.now result }
{
    let run = run_at(bytes, spot);
    let (_, behind) = take(bytes, spot, run, net_in(run, count, due), ());
    behind
}

/// The spot behind the number of a memory, which has to be the one that is due.
fn clocked_memory(bytes: &[u8], spot: Spot, count: usize, due: Option<usize>) -> Spot
    requires within { IsWithin bytes.now spot }
    requires few { count ≤ 2 ^ 32 }
    ensures read { (memories : List Memory) → length memories ≡ count
        → result ≡ hole_from (clocked_memory_test memories (is_due due)) bytes.now spot }
    ensures within { IsWithin bytes.now result }
{
    let run = run_at(bytes, spot);
    let (_, behind) = take(bytes, spot, run, memory_in(run, count, due), ());
    behind
}

/// The enable of a memory's clocked line, and the memory.
fn enabled_memory(
    bytes: &[u8],
    spot: Spot,
    lines: &[Line],
    memories: usize,
    due: Option<usize>,
) -> (u32, Spot)
    requires within { IsWithin bytes.now spot }
    requires few { length lines.now ≤ 2 ^ 20 }
    requires few_memories { memories ≤ 2 ^ 32 }
    ensures read { (old : List Line) (all : List Memory) → SameWidths old lines.now → length all ≡ memories
        → found (clocked_memory_form all old (is_due due) Form.whole) bytes.now spot
        ≡ found (Form.whole result.0) bytes.now result.1 }
    ensures within { IsWithin bytes.now result.1 }
{
    let (enable, enabled) = operand(bytes, spot, lines, Wanted::Exactly(1));
    let letter = fixed(bytes, enabled, b") m");
    (enable, clocked_memory(bytes, letter, memories, due))
}

/// A register's clocked line where none is due, which is refused.
fn other_net(bytes: &[u8], spot: Spot, count: usize) -> Spot
    requires within { IsWithin bytes.now spot }
    requires few { count ≤ 2 ^ 32 }
    ensures read { (old : List Line) (none : ℕ) → length old ≡ count
        → found (other_net_form old) bytes.now spot ≡ found (Form.whole none) bytes.now result }
    ensures within { IsWithin bytes.now result }
{
    let begun = fixed(bytes, spot, b"reset) ");
    let named = clocked_net(bytes, begun, count, None);
    refuse(named, Rule::Order)
}

/// A memory's clocked line where none is due, which is refused.
fn other_memory(bytes: &[u8], spot: Spot, lines: &[Line], memories: usize) -> Spot
    requires within { IsWithin bytes.now spot }
    requires few { length lines.now ≤ 2 ^ 20 }
    requires few_memories { memories ≤ 2 ^ 32 }
    ensures read { (old : List Line) (all : List Memory) (none : ℕ) → SameWidths old lines.now → length all ≡ memories
        → found (other_memory_form all old) bytes.now spot ≡ found (Form.whole none) bytes.now result }
    ensures within { IsWithin bytes.now result }
{
    let (_, named) = enabled_memory(bytes, spot, lines, memories, None);
    refuse(named, Rule::Order)
}

/// What a register takes with the clock, behind the first sign of its clocked line.
fn next_of(bytes: &[u8], spot: Spot, lines: &[Line], net: usize, width: u8) -> (Line, Spot)
    requires within { IsWithin bytes.now spot }
    requires few { length lines.now ≤ 2 ^ 20 }
    requires some_bit { 1 ≤ width }
    requires small { width ≤ 128 }
    ensures read { (old : List Line) → SameWidths old lines.now
        → found (next_form old net width) bytes.now spot ≡ found (Form.whole result.0) bytes.now result.1 }
    ensures within { IsWithin bytes.now result.1 }
    ensures width { result.0.width ≡ width }
{
    let (reset, valued) = constant(bytes, spot, width);
    let other = fixed(bytes, valued, b"; else ");
    let named = clocked_net(bytes, other, lines.len(), Some(net));
    let takes = fixed(bytes, named, b" <= ");
    let (next, driven) = operand(bytes, takes, lines, Wanted::Exactly(width));
    let end = fixed(bytes, driven, b";\n");
    let line = Line {
        width,
        equation: Equation::Reg { reset, next },
        waits: false,
    };
    (line, end)
}

/// The clocked line of a register, behind what stands before its name.
fn clocked_register(bytes: &[u8], spot: Spot, lines: &[Line], net: usize, width: u8) -> (Line, Spot)
    requires within { IsWithin bytes.now spot }
    requires few { length lines.now ≤ 2 ^ 20 }
    requires some_bit { 1 ≤ width }
    requires small { width ≤ 128 }
    ensures read { (old : List Line) → SameWidths old lines.now
        → found (clocked_register_form old net width) bytes.now spot ≡ found (Form.whole result.0) bytes.now result.1 }
    ensures within { IsWithin bytes.now result.1 }
    ensures width { result.0.width ≡ width }
{
    let begun = fixed(bytes, spot, b"reset) ");
    let named = clocked_net(bytes, begun, lines.len(), Some(net));
    let takes = fixed(bytes, named, b" <= ");
    next_of(bytes, takes, lines, net, width)
}

/// The clocked line of a net that is a register of this width.
pub(crate) fn clock_line(
    bytes: &[u8],
    spot: Spot,
    lines: &[Line],
    memories: usize,
    net: usize,
    line: Line,
) -> (Line, Spot)
    requires within { IsWithin bytes.now spot }
    requires few { length lines.now ≤ 2 ^ 20 }
    requires few_memories { memories ≤ 2 ^ 32 }
    requires some_bit { 1 ≤ line.width }
    requires small { line.width ≤ 128 }
    ensures read { (old : List Line) (all : List Memory) → SameWidths old lines.now → length all ≡ memories
        → found (clock_form all old net line.width) bytes.now spot ≡ found (Form.whole result.0) bytes.now result.1 }
    ensures within { IsWithin bytes.now result.1 }
    ensures width { result.0.width ≡ line.width }
{
    let begun = fixed(bytes, spot, b"  always @(posedge clk) if (");
    if next_is(bytes, begun, b'r') {
        clocked_register(bytes, begun, lines, net, line.width)
    } else {
        (line, other_memory(bytes, begun, lines, memories))
    }
}

/// The clocked line of a memory, behind what stands before its enable.
fn written_memory(
    bytes: &[u8],
    spot: Spot,
    lines: &[Line],
    memories: usize,
    number: usize,
    memory: &Memory,
) -> (MemWrite, Spot)
    requires within { IsWithin bytes.now spot }
    requires few { length lines.now ≤ 2 ^ 20 }
    requires few_memories { memories ≤ 2 ^ 32 }
    ensures read { (old : List Line) (all : List Memory) → SameWidths old lines.now → length all ≡ memories
        → found (written_memory_form all old number memory.now) bytes.now spot ≡ found (Form.whole result.0) bytes.now result.1 }
    ensures within { IsWithin bytes.now result.1 }
{
    let (enable, named) = enabled_memory(bytes, spot, lines, memories, Some(number));
    let opened = fixed(bytes, named, b"[");
    let (address, addressed) = operand(bytes, opened, lines, Wanted::Exactly(memory.address_bits));
    let takes = fixed(bytes, addressed, b"] <= ");
    let (word, worded) = operand(bytes, takes, lines, Wanted::Exactly(memory.width));
    let end = fixed(bytes, worded, b";\n");
    let write = MemWrite {
        enable,
        address,
        word,
    };
    (write, end)
}

/// The clocked line of a memory, which is this one.
pub(crate) fn write_line(
    bytes: &[u8],
    spot: Spot,
    lines: &[Line],
    memories: usize,
    number: usize,
    memory: &Memory,
) -> (MemWrite, Spot)
    requires within { IsWithin bytes.now spot }
    requires few { length lines.now ≤ 2 ^ 20 }
    requires few_memories { memories ≤ 2 ^ 32 }
    ensures read { (old : List Line) (all : List Memory) → SameWidths old lines.now → length all ≡ memories
        → found (write_form all old number memory.now) bytes.now spot ≡ found (Form.whole result.0) bytes.now result.1 }
    ensures within { IsWithin bytes.now result.1 }
{
    let begun = fixed(bytes, spot, b"  always @(posedge clk) if (");
    if next_is(bytes, begun, b'r') {
        let write = MemWrite {
            enable: 0,
            address: 0,
            word: 0,
        };
        (write, other_net(bytes, begun, lines.len()))
    } else {
        written_memory(bytes, begun, lines, memories, number, memory)
    }
}

/// A clocked line where none is due, from its second letter on, which is refused.
fn other_clocked(bytes: &[u8], spot: Spot, lines: &[Line], memories: usize) -> Spot
    requires within { IsWithin bytes.now spot }
    requires few { length lines.now ≤ 2 ^ 20 }
    requires few_memories { memories ≤ 2 ^ 32 }
    ensures among_outputs { (old : List Line) (all : List Memory) (none : ℕ) → SameWidths old lines.now → length all ≡ memories
        → found (other_clocked_form all old) bytes.now spot ≡ found (Form.whole none) bytes.now result }
    ensures at_the_end { (old : List Line) (all : List Memory) (one : Netlist) → SameWidths old lines.now → length all ≡ memories
        → found (other_clocked_form all old) bytes.now spot ≡ found (Form.whole one) bytes.now result }
    ensures within { IsWithin bytes.now result }
{
    let begun = fixed(bytes, spot, b"lways @(posedge clk) if (");
    if next_is(bytes, begun, b'r') {
        other_net(bytes, begun, lines.len())
    } else {
        other_memory(bytes, begun, lines, memories)
    }
}

/// Whether a clocked line comes next, by its second letter. Behind a line of an output none may stand.
fn clocked_next(bytes: &[u8], spot: Spot, assigned: bool) -> bool
    requires { IsWithin bytes.now spot }
    ensures { result ≡ (is_next (codes "l") (next (ahead_of bytes.now spot)) && not assigned) }
{
    next_is(bytes, spot, b'l') && !assigned
}

/// Whether a hole is the name of the output that is due.
fn output_in(run: &[u8], name: &[u8]) -> Result<(), Rule>
    ensures { Judges (output_test name.now) nothing_told run.now result }
{
    if !same_bytes(run, name) {
        return Err(Rule::Name);
    }
    Ok(())
}

/// The line of the output that is due, from its second letter on: the net that drives it.
fn driver(bytes: &[u8], spot: Spot, lines: &[Line], port: &PortLine) -> (u32, Spot)
    requires within { IsWithin bytes.now spot }
    requires few { length lines.now ≤ 2 ^ 20 }
    ensures read { (old : List Line) → SameWidths old lines.now
        → found (driver_form old port.now) bytes.now spot ≡ found (Form.whole result.0) bytes.now result.1 }
    ensures within { IsWithin bytes.now result.1 }
{
    let begun = fixed(bytes, spot, b"ssign ");
    let run = run_at(bytes, begun);
    let (_, named) = take(bytes, begun, run, output_in(run, port.name.as_slice()), ());
    let takes = fixed(bytes, named, b" = ");
    let (net, driven) = operand(bytes, takes, lines, Wanted::Exactly(port.width));
    (net, fixed(bytes, driven, b";\n"))
}

/// The line of the output that is due, behind another output's or not: the net that drives it.
pub(crate) fn assign_line(
    bytes: &[u8],
    spot: Spot,
    lines: &[Line],
    memories: usize,
    assigned: bool,
    port: &PortLine,
) -> (u32, Spot)
    requires within { IsWithin bytes.now spot }
    requires few { length lines.now ≤ 2 ^ 20 }
    requires few_memories { memories ≤ 2 ^ 32 }
    ensures read { (old : List Line) (all : List Memory) → SameWidths old lines.now → length all ≡ memories
        → found (assign_form all old assigned port.now) bytes.now spot ≡ found (Form.whole result.0) bytes.now result.1 }
    ensures within { IsWithin bytes.now result.1 }
{
    let begun = fixed(bytes, spot, b"  a");
    if clocked_next(bytes, begun, assigned) {
        (0, other_clocked(bytes, begun, lines, memories))
    } else {
        driver(bytes, begun, lines, port)
    }
}

/// A line where the last is due, from behind its first blanks on: of a register, a memory or another output. It is refused.
fn late_line(bytes: &[u8], spot: Spot, lines: &[Line], memories: usize, assigned: bool) -> Spot
    requires within { IsWithin bytes.now spot }
    requires few { length lines.now ≤ 2 ^ 20 }
    requires few_memories { memories ≤ 2 ^ 32 }
    ensures read { (old : List Line) (all : List Memory) (one : Netlist) → SameWidths old lines.now → length all ≡ memories
        → found (late_form all old assigned) bytes.now spot ≡ found (Form.whole one) bytes.now result }
    ensures within { IsWithin bytes.now result }
{
    let begun = fixed(bytes, spot, b"  a");
    if clocked_next(bytes, begun, assigned) {
        other_clocked(bytes, begun, lines, memories)
    } else {
        let word = fixed(bytes, begun, b"ssign ");
        refuse(word, Rule::Name)
    }
}

/// That nothing stands behind the last line.
fn end_of(bytes: &[u8], spot: Spot) -> Spot
    requires { IsWithin bytes.now spot }
    ensures read { (one : Netlist)
        → found (Form.turn (nothing_form one)) bytes.now spot ≡ found (Form.whole one) bytes.now result }
    ensures within { IsWithin bytes.now result }
{
    match next_byte(bytes, spot) {
        None => spot,
        Some(_) => refuse(spot, Rule::AfterEnd),
    }
}

/// The last line, and that nothing stands behind it.
pub(crate) fn last_line(
    bytes: &[u8],
    spot: Spot,
    lines: &[Line],
    memories: usize,
    assigned: bool,
) -> Spot
    requires within { IsWithin bytes.now spot }
    requires few { length lines.now ≤ 2 ^ 20 }
    requires few_memories { memories ≤ 2 ^ 32 }
    ensures read { (old : List Line) (all : List Memory) (one : Netlist) → SameWidths old lines.now → length all ≡ memories
        → found (last_form all old assigned one) bytes.now spot ≡ found (Form.whole one) bytes.now result }
    ensures within { IsWithin bytes.now result }
{
    if next_is(bytes, spot, b' ') {
        late_line(bytes, spot, lines, memories, assigned)
    } else {
        let word = fixed(bytes, spot, b"endmodule\n");
        end_of(bytes, word)
    }
}
