//! The lines of values.

ghost use Rattle.std.specs.Prelude.{◌≡◌, ℕ, suc, ◌≤◌, ◌<◌, ◌^◌, ◌+◌, Bool, true, false, List, [], ◌∷◌, ◌++◌, length, All, OnOk, IfOk, IfErr, MatchResult, slice_index};
ghost use Rattle.vcd_text.specs.Dumps.{widths_of};
ghost use Rattle.vcd_reader.specs.Found.{Found, followed};
ghost use Rattle.vcd_reader.specs.Spellings.{Spelled};
ghost use Rattle.vcd_reader.specs.Readings.{coded, spelled_behind, spelled_line, judged_value, value_line, first_values, change_line, change_lines};
ghost use Rattle.vcd_reader.specs.Reads.{found_by, found_with, IsStop, HasBits, LetsIn, Suits, valued, changed, changed_row};

use crate::faults::Stop;
use crate::kind::Kind;
use crate::reader::Reader;
use crate::rule::Rule;
use crate::spelling::{bit_value, digits_value};
use av_base::{NoMemory, Val};
use std::alloc::Global;
use vcd_text::DumpPort;

/// The ports from one up to another, whose values may stand next.
#[derive(Clone, Copy)]
pub(crate) struct Due {
    pub(crate) from: usize,
    pub(crate) below: usize,
}

/// Reads the code of a port behind its value.
fn coded(reader: &mut Reader, due: Due) -> Result<usize, Rule>
    requires { due.below ≤ 2 ^ 32 }
    ensures read { (lets_in : ℕ → Bool) (spelled : Spelled) → LetsIn due.from due.below lets_in
        → coded lets_in spelled reader.old
        ≡ followed (found_by result reader.new) (λ port text. Found.told (port, spelled) text) }
    ensures within { IfOk result (λ port. (due.from ≤ port) × (port < due.below)) }
{
    let port = reader.code(due.from, due.below)?;
    reader.fixed(b"\n")?;
    Ok(port)
}

/// Reads what stands behind the `b` of a wider value.
fn digits_line(
    reader: &mut Reader,
    ports: &[DumpPort],
    due: Due,
) -> Result<(usize, Option<Val>), Rule>
    requires bits { All HasBits ports.now }
    requires few { due.below ≤ 2 ^ 32 }
    requires there { due.below ≤ length ports.now }
    ensures read { (width : ℕ → ℕ) (lets_in : ℕ → Bool) → Suits (widths_of ports.now) due.from due.below width lets_in
        → valued width (spelled_behind lets_in 98 true reader.old) ≡ found_by result reader.new }
    ensures within { IfOk result (λ line. (due.from ≤ line.0) × (line.0 < due.below)) }
{
    let digits = reader.run(Kind::Number);
    reader.fixed(b" ")?;
    let port = coded(reader, due)?;
    Ok((port, digits_value(ports[port].width, digits)))
}

/// Reads the code behind a value of one byte.
fn bit_line(
    reader: &mut Reader,
    ports: &[DumpPort],
    due: Due,
    byte: u8,
) -> Result<(usize, Option<Val>), Rule>
    requires few { due.below ≤ 2 ^ 32 }
    requires there { due.below ≤ length ports.now }
    ensures read { (width : ℕ → ℕ) (lets_in : ℕ → Bool) → Suits (widths_of ports.now) due.from due.below width lets_in
        → valued width (spelled_behind lets_in byte false reader.old) ≡ found_by result reader.new }
    ensures within { IfOk result (λ line. (due.from ≤ line.0) × (line.0 < due.below)) }
{
    let port = coded(reader, due)?;
    Ok((port, bit_value(ports[port].width, byte)))
}

/// Reads the line of a value of a port that is due. The value is none where it is of the wrong form.
fn spelled_line(
    reader: &mut Reader,
    ports: &[DumpPort],
    due: Due,
) -> Result<(usize, Option<Val>), Rule>
    requires bits { All HasBits ports.now }
    requires few { due.below ≤ 2 ^ 32 }
    requires there { due.below ≤ length ports.now }
    ensures read { (width : ℕ → ℕ) (lets_in : ℕ → Bool) → Suits (widths_of ports.now) due.from due.below width lets_in
        → valued width (spelled_line lets_in reader.old) ≡ found_by result reader.new }
    ensures within { IfOk result (λ line. (due.from ≤ line.0) × (line.0 < due.below)) }
{
    let text = reader.rest();
    let [byte, rest @ ..] = text else {
        return Err(Rule::OtherByte);
    };
    reader.go_on(rest);
    if *byte == b'b' {
        digits_line(reader, ports, due)
    } else {
        bit_line(reader, ports, due, *byte)
    }
}

/// Judges the value of a line that began at this text.
fn judged<'a>(
    reader: &mut Reader<'a>,
    text: &'a [u8],
    port: usize,
    value: Option<Val>,
) -> Result<(usize, Val), Rule>
    ensures { judged_value (λ _ _. true) text.now port reader.old value ≡ found_by result reader.new }
{
    match value {
        Some(value) => Ok((port, value)),
        None => {
            reader.go_on(text);
            Err(Rule::Value)
        }
    }
}

/// Reads the first value of the port of this number.
fn first_value(reader: &mut Reader, ports: &[DumpPort], number: usize) -> Result<(usize, Val), Rule>
    requires bits { All HasBits ports.now }
    requires few { length ports.now ≤ 2 ^ 32 }
    requires there { number < length ports.now }
    ensures { (width : ℕ → ℕ) (lets_in : ℕ → Bool) → Suits (widths_of ports.now) number (number + 1) width lets_in
        → value_line width lets_in (λ _ _. true) reader.old ≡ found_by result reader.new }
{
    let text = reader.rest();
    let due = Due {
        from: number,
        below: number + 1,
    };
    let (port, value) = spelled_line(reader, ports, due)?;
    judged(reader, text, port, value)
}

fn push_value(row: &mut Vec<Val>, value: Val) -> Result<(), NoMemory>
    ensures { OnOk result (row.new.items ≡ row.old.items ++ value ∷ []) }
{
    row.push(value)?;
    Ok(())
}

/// Reads the first value of each port.
pub(crate) fn first_values(
    alloc: Global,
    reader: &mut Reader,
    ports: &[DumpPort],
) -> Result<Vec<Val>, Stop>
    requires bits { All HasBits ports.now }
    requires few { length ports.now ≤ 2 ^ 32 }
    ensures read { IfOk result (λ row. first_values 0 (widths_of ports.now) reader.old ≡ Found.told row.items reader.new) }
    ensures count { IfOk result (λ row. length row.items ≡ length ports.now) }
    ensures stop { IfErr result (IsStop (first_values 0 (widths_of ports.now) reader.old) reader.new) }
{
    let mut row = Vec::new(alloc);
    'ports: while row.len() < ports.len() {
        let (_, value) = first_value(reader, ports, row.len())?;
        push_value(&mut row, value)?;
    }
    Ok(row)
}

/// A value that isn't the one before.
fn changed(value: Option<Val>, before: Val) -> Option<Val>
    ensures { result ≡ changed before value }
{
    match value {
        Some(value) if value.bits() != before.bits() => Some(value),
        _ => None,
    }
}

/// Reads the value of a port from the next on that changes.
fn change_line(
    reader: &mut Reader,
    ports: &[DumpPort],
    next: usize,
    row: &[Val],
) -> Result<(usize, Val), Rule>
    requires bits { All HasBits ports.now }
    requires few { length ports.now ≤ 2 ^ 32 }
    requires each { length row.now ≡ length ports.now }
    ensures read { change_line (widths_of ports.now) next row.now reader.old ≡ found_by result reader.new }
    ensures within { IfOk result (λ line. (next ≤ line.0) × (line.0 < length ports.now)) }
{
    let text = reader.rest();
    let due = Due {
        from: next,
        below: ports.len(),
    };
    let (port, value) = spelled_line(reader, ports, due)?;
    judged(reader, text, port, changed(value, row[port]))
}

/// Takes a change into the row. It gives the port behind it.
fn take_change(
    reader: &mut Reader,
    ports: &[DumpPort],
    next: usize,
    row: &mut [Val],
) -> Result<usize, Rule>
    requires bits { All HasBits ports.now }
    requires few { length ports.now ≤ 2 ^ 32 }
    requires each { length row.old ≡ length ports.now }
    ensures read { changed_row (widths_of ports.now) next row.old reader.old ≡ found_with row.new result reader.new }
    ensures within { IfOk result (λ after. (next < after) × (after ≤ length ports.now)) }
{
    let (port, value) = change_line(reader, ports, next, row)?;
    row[port] = value;
    Ok(port + 1)
}

/// Takes the changes under a time into the row.
pub(crate) fn take_changes(
    reader: &mut Reader,
    ports: &[DumpPort],
    row: &mut [Val],
) -> Result<(), Rule>
    requires bits { All HasBits ports.now }
    requires few { length ports.now ≤ 2 ^ 32 }
    requires each { length row.old ≡ length ports.now }
    ensures { let found = change_lines (suc (length (widths_of ports.now))) (widths_of ports.now) 0 row.old reader.old in
        MatchResult result (λ _. found ≡ Found.told row.new reader.new) (λ rule. found ≡ Found.broken reader.new rule) }
{
    let mut next = take_change(reader, ports, 0, row)?;
    'changes: while !reader.begins(b'#') {
        next = take_change(reader, ports, next, row)?;
    }
    Ok(())
}
