//! A dump that was read.

ghost use Rattle.std.specs.Prelude.{◌≡◌, ◌⊎◌, ℕ, ◌<◌, ◌≤◌, ◌^◌, [], length, IfOk, IfErr, MatchResult};
ghost use Rattle.vcd_text.specs.Text.{DumpValue, dump_text};
ghost use Rattle.vcd_text.specs.Dumps.{IsDump};
ghost use Rattle.vcd_reader.specs.declared.faults.DumpFault.TheVariants.{NoMemory as NoRoom};
ghost use Rattle.vcd_reader.specs.Found.{Found};
ghost use Rattle.vcd_reader.specs.Readings.{dump_read};
ghost use Rattle.vcd_reader.specs.Reads.{IsStop};
ghost use Rattle.vcd_reader.specs.Walks.{IsFaultOf};

use crate::faults::{DumpFault, Stop};
use crate::header::port_lines;
use crate::laws::{only_dumps_are_read, texts_are_read};
use crate::reader::Reader;
use crate::rows::{Rows, row_lines};
use av_base::{List, NoMemory, Text};
use std::alloc::Global;
use std::marker::Model;
use vcd_text::DumpPort;

/// A dump. Its rows are read where they stand in its text.
#[derive(Drop)]
pub struct Dump<'a> {
    name: Text,
    ports: List<DumpPort>,
    text: &'a [u8],
    cycles: u32,
}

impl<'a> Model for Dump<'a> {
    ghost use Rattle.vcd_text.specs.Text.{DumpValue};
    ghost use Rattle.vcd_text.specs.Dumps.{widths_of};
    ghost use Rattle.vcd_reader.specs.Readings.{row_lines};
    ghost use Rattle.vcd_reader.specs.Reads.{rows_told};
    ghost use Rattle.vcd_reader.specs.Walks.{IsKept};

    ghost Value = { DumpValue };

    ghost view = { λ d. record { name = d.name; ports = d.ports; rows = rows_told (row_lines (widths_of d.ports) d.text.now) } };

    ghost invariant = { λ d. IsKept d.ports d.text.now d.cycles };
}

impl<'a> Dump<'a> {
    /// The name of the module.
    pub fn name(&self) -> &str
        ensures { result.now ≡ self.now.name }
    {
        self.name.as_str()
    }

    pub fn ports(&self) -> &[DumpPort]
        ensures { result.now ≡ self.now.ports }
    {
        self.ports.as_slice()
    }

    /// How many rows there are.
    pub fn cycles(&self) -> u32
        ensures { result ≡ length self.now.rows }
    {
        self.cycles
    }

    /// Walks the rows from the first on.
    pub fn rows(&self, alloc: Global) -> Result<Rows<'_>, NoMemory>
        ensures rows { IfOk result (λ rows. rows.rows ≡ self.now.rows) }
        ensures first { IfOk result (λ rows. rows.cycle ≡ 0) }
    {
        Rows::new(alloc, self.ports.as_slice(), self.text)
    }
}

/// Reads the parts of a dump.
fn read_parts<'a>(alloc: Global, reader: &mut Reader<'a>) -> Result<Dump<'a>, Stop>
    requires { length reader.old < 2 ^ 31 }
    ensures read { IfOk result (λ dump. dump_read reader.old ≡ Found.told dump []) }
    ensures stop { IfErr result (IsStop (dump_read reader.old) reader.new) }
{
    reader.fixed(b"$timescale 1 ns $end\n$scope module ")?;
    let name = Text::copy(alloc, reader.module_name()?)?;
    reader.fixed(b" $end\n")?;
    let ports = port_lines(alloc, reader)?;
    reader.fixed(b"upscope $end\n$enddefinitions $end\n")?;
    let text = reader.rest();
    let cycles = row_lines(alloc, reader, ports.as_slice())?;
    Ok(Dump {
        name,
        ports,
        text,
        cycles,
    })
}

/// Reads a dump.
///
/// # Errors
///
/// The first fault of the text, or that memory was refused.
pub fn read_dump(alloc: Global, bytes: &[u8]) -> Result<Dump<'_>, DumpFault>
    requires { length bytes.now < 2 ^ 31 }
    ensures text { IfOk result (λ dump. bytes.now ≡ dump_text dump) }
    ensures sound { IfOk result IsDump }
    ensures only { (one : DumpValue) → IsDump one → bytes.now ≡ dump_text one
        → MatchResult result (λ other. other ≡ one) (λ fault. fault ≡ NoRoom) }
    ensures fault { IfErr result (IsFaultOf bytes.now) }
{
    only_dumps_are_read();
    texts_are_read();
    let mut reader = Reader::new(bytes);
    match read_parts(alloc, &mut reader) {
        Ok(dump) => Ok(dump),
        Err(Stop::NoMemory) => Err(DumpFault::NoMemory),
        Err(Stop::Broken(rule)) => {
            let at = bytes.len().saturating_sub(reader.rest().len());
            Err(DumpFault::Refused {
                byte: at as u64,
                rule,
            })
        }
    }
}
