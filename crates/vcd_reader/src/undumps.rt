//! Value change dumps, written row by row.

mod laws;

ghost use Rattle.std.specs.Prelude.{◌≡◌, ◌⊎◌, ◌+◌, ◌^◌, ◌<◌, ◌++◌, length, string_bytes, OnOk, IfOk, IfErr};
ghost use Rattle.vcd_text.specs.Dumps.{IsDump};
ghost use Rattle.vcd_reader.specs.declared.undumps.UndumpFault.TheVariants.{NoMemory as NoRoom};
ghost use Rattle.vcd_reader.specs.Undumps.{value_text, values_text, row_line, end_line, rows_text, IsUndumpOf, IsUndumpFault};

use crate::{Dump, DumpFault, Rows, Rule, read_dump};
use av_base::{Bytes, NoMemory, Val};
pub use laws::dumps_are_written_or_refused;
use std::alloc::Global;
use std::fmt::Write;
use thiserror::Error;
use vcd_text::DumpPort;
use verilog_writer::put_hex;

/// The most values that the ports may have in all cycles together.
const MOST_VALUES: u64 = 4_294_967_296;

/// Why a dump was not written row by row.
#[derive(Clone, Copy, Debug, PartialEq, Eq, Error)]
pub enum UndumpFault {
    /// The first byte of the dump that breaks a rule, counted from 0, and the least rule.
    #[error("the dump breaks a rule at byte {byte}")]
    Refused { byte: u64, rule: Rule },
    /// The ports have more than 2^32 values in all cycles together: so many.
    #[error("{count} values of ports are too many")]
    TooManyValues { count: u64 },
    #[error("out of memory")]
    NoMemory,
}

impl From<DumpFault> for UndumpFault {
    ghost use Rattle.vcd_reader.specs.Undumps.{fault_of};

    ghost from_gives = { λ read fault. fault ≡ fault_of read };

    fn from(fault: DumpFault) -> UndumpFault {
        match fault {
            DumpFault::Refused { byte, rule } => UndumpFault::Refused { byte, rule },
            DumpFault::NoMemory => UndumpFault::NoMemory,
        }
    }
}

impl From<NoMemory> for UndumpFault {
    ghost use Rattle.std.specs.Prelude.{◌≡◌};
    ghost use Rattle.vcd_reader.specs.declared.undumps.UndumpFault.TheVariants.{NoMemory as OutOfMemory};

    ghost from_gives = { λ _ fault. fault ≡ OutOfMemory };

    fn from(_e: NoMemory) -> UndumpFault {
        UndumpFault::NoMemory
    }
}

/// Appends the value at a port.
fn put_value(text: &mut String, name: &str, value: Val) -> Result<(), NoMemory>
    ensures { OnOk result (string_bytes text.new ≡ string_bytes text.old ++ value_text name.now value) }
{
    write!(text, " {name}=")?;
    put_hex(text, (value.width() + 3) / 4, value.bits())
}

/// Appends the values at ports.
fn put_values(text: &mut String, ports: &[DumpPort], row: &[Val]) -> Result<(), NoMemory>
    requires { length row.now ≡ length ports.now }
    ensures { OnOk result (string_bytes text.new ≡ string_bytes text.old ++ values_text ports.now row.now) }
{
    'ports: for k in 0..ports.len() {
        put_value(text, ports[k].name.as_str(), row[k])?;
    }
    Ok(())
}

/// Appends the line of a cycle of this number.
fn put_row(text: &mut String, ports: &[DumpPort], number: u32, row: &[Val]) -> Result<(), NoMemory>
    requires { length row.now ≡ length ports.now }
    ensures { OnOk result (string_bytes text.new ≡ string_bytes text.old ++ row_line ports.now number row.now) }
{
    write!(text, "{number}")?;
    put_values(text, ports, row)?;
    text.push_str("\n")?;
    Ok(())
}

/// Appends the line behind those of so many cycles.
fn put_end(text: &mut String, cycles: u32) -> Result<(), NoMemory>
    ensures { OnOk result (string_bytes text.new ≡ string_bytes text.old ++ end_line cycles) }
{
    write!(text, "end {cycles}\n")?;
    Ok(())
}

/// Goes on to the next row, where there is one.
fn go_on(rows: &mut Rows, next: u32, cycles: u32)
    requires here { rows.old.cycle + 1 ≡ next }
    requires count { cycles ≡ length rows.old.rows }
    ensures same { rows.new.rows ≡ rows.old.rows }
    ensures next { next < cycles → rows.new.cycle ≡ next }
{
    if next < cycles {
        rows.advance();
    }
}

/// The text of the rows of a dump.
fn rows_text(alloc: Global, dump: &Dump) -> Result<String, NoMemory>
    requires { IsDump dump.now }
    ensures { IfOk result (λ text. string_bytes text ≡ rows_text dump.now) }
{
    let mut text = String::new(alloc);
    let mut rows = dump.rows(alloc)?;
    let cycles = dump.cycles();
    'rows: for cycle in 0..cycles {
        put_row(&mut text, dump.ports(), cycle, rows.values())?;
        go_on(&mut rows, cycle + 1, cycles);
    }
    put_end(&mut text, cycles)?;
    Ok(text)
}

/// The rows of the dump whose text these bytes are, as text.
pub fn undump(alloc: Global, bytes: &[u8]) -> Result<Bytes, UndumpFault>
    requires { length bytes.now < 2 ^ 31 }
    ensures text { IfOk result (IsUndumpOf bytes.now) }
    ensures fault { IfErr result (λ fault. (fault ≡ NoRoom) ⊎ IsUndumpFault bytes.now fault) }
{
    let dump = read_dump(alloc, bytes)?;
    let count = u64::from(dump.cycles()) * dump.ports().len() as u64;
    if count > MOST_VALUES {
        return Err(UndumpFault::TooManyValues { count });
    }
    let text = rows_text(alloc, &dump)?;
    Ok(Bytes::from(text))
}
