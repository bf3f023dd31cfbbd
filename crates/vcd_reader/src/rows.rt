//! The rows of a dump, one after the other.

ghost use Rattle.std.specs.Prelude.{◌≡◌, ℕ, ◌≤◌, ◌<◌, ◌^◌, ◌+◌, List, length, All, IfOk, IfErr, slice_get, Some};
ghost use Rattle.vcd_text.specs.Dumps.{widths_of};
ghost use Rattle.vcd_reader.specs.Found.{Found};
ghost use Rattle.vcd_reader.specs.Readings.{time_line, row_lines};
ghost use Rattle.vcd_reader.specs.Reads.{found_by, found_with, IsStop, HasBits, first_row, begun, later_row, rows_told, TellsRows};

use crate::faults::Stop;
use crate::reader::Reader;
use crate::rule::Rule;
use crate::values::{first_values, take_changes};
use av_base::{NoMemory, Val};
use std::alloc::Global;
use std::marker::Model;
use vcd_text::DumpPort;

/// The most cycles of a dump.
const MOST_CYCLES: u32 = 65_536;

/// Reads the line of a time behind the last.
fn time_line(reader: &mut Reader, last: u32) -> Result<u32, Rule>
    ensures read { time_line last reader.old ≡ found_by result reader.new }
    ensures within { IfOk result (λ time. (last < time) × (time ≤ 65536)) }
{
    reader.fixed(b"#")?;
    let time = reader.number(Rule::Time, last, MOST_CYCLES)?;
    reader.fixed(b"\n")?;
    Ok(time)
}

/// Reads the first row.
fn first_row(alloc: Global, reader: &mut Reader, ports: &[DumpPort]) -> Result<Vec<Val>, Stop>
    requires bits { All HasBits ports.now }
    requires few { length ports.now ≤ 2 ^ 32 }
    ensures read { IfOk result (λ row. first_row (widths_of ports.now) reader.old ≡ Found.told row.items reader.new) }
    ensures count { IfOk result (λ row. length row.items ≡ length ports.now) }
    ensures stop { IfErr result (IsStop (first_row (widths_of ports.now) reader.old) reader.new) }
{
    reader.fixed(b"#0\n$dumpvars\n")?;
    let row = first_values(alloc, reader, ports)?;
    reader.fixed(b"$end\n")?;
    Ok(row)
}

/// Reads the first row, and the time behind it.
fn begin(alloc: Global, reader: &mut Reader, ports: &[DumpPort]) -> Result<(Vec<Val>, u32), Stop>
    requires bits { All HasBits ports.now }
    requires few { length ports.now ≤ 2 ^ 32 }
    ensures read { IfOk result (λ r. begun (widths_of ports.now) reader.old ≡ Found.told (r.1, r.0.items) reader.new) }
    ensures count { IfOk result (λ r. length r.0.items ≡ length ports.now) }
    ensures within { IfOk result (λ r. (0 < r.1) × (r.1 ≤ 65536)) }
    ensures stop { IfErr result (IsStop (begun (widths_of ports.now) reader.old) reader.new) }
{
    let row = first_row(alloc, reader, ports)?;
    let time = time_line(reader, 0)?;
    Ok((row, time))
}

/// Reads the changes under a time into the row before it, and the time behind them.
fn later_row(
    reader: &mut Reader,
    ports: &[DumpPort],
    time: u32,
    row: &mut [Val],
) -> Result<u32, Rule>
    requires bits { All HasBits ports.now }
    requires few { length ports.now ≤ 2 ^ 32 }
    requires each { length row.old ≡ length ports.now }
    ensures read { later_row (widths_of ports.now) time row.old reader.old ≡ found_with row.new result reader.new }
    ensures within { IfOk result (λ later. (time < later) × (later ≤ 65536)) }
{
    take_changes(reader, ports, row)?;
    time_line(reader, time)
}

/// Reads all rows up to the end of the text, and tells how many there are.
pub(crate) fn row_lines(alloc: Global, reader: &mut Reader, ports: &[DumpPort]) -> Result<u32, Stop>
    requires bits { All HasBits ports.now }
    requires few { length ports.now ≤ 2 ^ 32 }
    ensures read { IfOk result (λ cycles. TellsRows (row_lines (widths_of ports.now) reader.old) cycles) }
    ensures stop { IfErr result (IsStop (row_lines (widths_of ports.now) reader.old) reader.new) }
{
    let (mut row, mut time) = begin(alloc, reader, ports)?;
    'times: while !reader.is_empty() {
        time = later_row(reader, ports, time, row.as_mut_slice())?;
    }
    Ok(time)
}

/// The rows of a dump, walked from the first on. It keeps the values of one cycle.
#[derive(Drop)]
pub struct Rows<'d> {
    ports: &'d [DumpPort],
    text: &'d [u8],
    reader: Reader<'d>,
    row: Vec<Val>,
    cycle: u32,
    until: u32,
}

impl<'d> Model for Rows<'d> {
    ghost use Rattle.vcd_text.specs.Dumps.{widths_of};
    ghost use Rattle.vcd_reader.specs.Readings.{row_lines};
    ghost use Rattle.vcd_reader.specs.Reads.{rows_told};
    ghost use Rattle.vcd_reader.specs.Walks.{RowsValue, IsWalk};

    ghost Value = { RowsValue };

    ghost view = { λ r. record { rows = rows_told (row_lines (widths_of r.ports.now) r.text.now); cycle = r.cycle } };

    ghost invariant = { λ r. IsWalk r.ports.now r.text.now r.cycle r.until r.row.items r.reader };
}

impl<'d> Rows<'d> {
    /// The rows of a text that has been read.
    pub(crate) fn new(
        alloc: Global,
        ports: &'d [DumpPort],
        text: &'d [u8],
    ) -> Result<Rows<'d>, NoMemory>
        requires bits { All HasBits ports.now }
        requires few { length ports.now ≤ 2 ^ 32 }
        requires read { (cycles : ℕ) × TellsRows (row_lines (widths_of ports.now) text.now) cycles }
        ensures rows { IfOk result (λ rows. rows.rows ≡ rows_told (row_lines (widths_of ports.now) text.now)) }
        ensures first { IfOk result (λ rows. rows.cycle ≡ 0) }
    {
        let mut reader = Reader::new(text);
        match begin(alloc, &mut reader, ports) {
            Ok((row, until)) => Ok(Rows {
                ports,
                text,
                reader,
                row,
                cycle: 0,
                until,
            }),
            Err(Stop::NoMemory) => Err(NoMemory),
            Err(Stop::Broken(_)) => unreachable!(),
        }
    }

    /// The values of the present cycle, one for each port.
    pub fn values(&self) -> &[Val]
        ensures { slice_get self.now.rows self.now.cycle ≡ Some result.now }
    {
        self.row.as_slice()
    }

    /// Goes on to the next cycle.
    pub fn advance(&mut self)
        requires { self.old.cycle + 1 < length self.old.rows }
        ensures { self.new ≡ record self.old { cycle = self.old.cycle + 1 } }
    {
        self.cycle += 1;
        if self.cycle == self.until {
            self.until = later_row(
                &mut self.reader,
                self.ports,
                self.until,
                self.row.as_mut_slice(),
            )
            .unwrap();
        }
    }
}
