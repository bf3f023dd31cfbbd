//! Waves as a whole.

ghost use Rattle.std.specs.Prelude.{◌≡◌, ◌+◌, ◌≤◌, ◌<◌, length, drop, map, All, slice_get, Some, IfOk, IfErr};
ghost use Rattle.netlist.specs.declared.line.PortLine.{PortLine};
ghost use Rattle.av_base.specs.Word.{Word};
ghost use Rattle.waves.specs.declared.faults.WavesRule.TheVariants.{Lines};
ghost use Rattle.waves.specs.declared.faults.WavesFault.TheVariants.{Refused};
ghost use Rattle.waves.specs.Cuts.{lines};
ghost use Rattle.waves.specs.Rows.{IsWidth, input_widths, row_of};
ghost use Rattle.waves.specs.Waves.{IsWavesOf, IsFaultIn, IsFaultOf, IsStart, AreStarts, row_at};

use crate::cuts::first_line;
use crate::faults::{WavesFault, WavesRule};
use crate::header::cycles_in;
use crate::rows::{read_row, row_rule};
use av_base::{NoMemory, Val};
use netlist::{Module, PortLine};
use std::alloc::Global;
use std::marker::Model;

/// The inputs of a module for some cycles, read where they stand in the bytes of their file.
#[derive(Drop)]
pub struct Waves<'a> {
    bytes: &'a [u8],
    widths: Vec<u8>,
    starts: Vec<usize>,
}

impl<'a> Model for Waves<'a> {
    ghost use Rattle.std.specs.Prelude.{map};
    ghost use Rattle.waves.specs.Waves.{WavesValue, AreStarts, row_at};

    ghost Value = { WavesValue };

    ghost view = { λ w. record { widths = w.widths.items; rows = map (row_at w.widths.items w.bytes.now) w.starts.items } };

    ghost invariant = { λ w. AreStarts w.widths.items w.bytes.now w.starts.items };
}

/// The widths of the input ports in header order.
fn widths_of(alloc: Global, ports: &[PortLine]) -> Result<Vec<u8>, NoMemory>
    requires { All (λ (port : PortLine). IsWidth port.width) ports.now }
    ensures widths { IfOk result (λ widths. widths.items ≡ input_widths ports.now) }
    ensures each { IfOk result (λ widths. All IsWidth widths.items) }
{
    let mut widths = Vec::new(alloc);
    'ports: for port in ports {
        if !port.output {
            widths.push(port.width)?;
        }
    }
    Ok(widths)
}

fn no_header() -> WavesFault
    ensures { result ≡ Refused 1 Lines }
{
    WavesFault::Refused {
        line: 1,
        rule: WavesRule::Lines,
    }
}

fn refused(cycle: usize, rule: WavesRule) -> WavesFault
    requires { cycle ≤ 65536 }
    ensures { result ≡ Refused (cycle + 2) rule }
{
    WavesFault::Refused {
        line: cycle as u32 + 2,
        rule,
    }
}

/// Where the line of each cycle begins, of as many as are due from a place on.
fn starts_of(
    alloc: Global,
    widths: &[u8],
    bytes: &[u8],
    from: usize,
    due: usize,
) -> Result<Vec<usize>, WavesFault>
    requires widths { All IsWidth widths.now }
    requires within { from ≤ length bytes.now }
    requires few { due ≤ 65536 }
    ensures count { IfOk result (λ starts. length starts.items ≡ due) }
    ensures rows { IfOk result (λ starts. map (row_of widths.now) (lines (drop from bytes.now))
        ≡ map Some (map (row_at widths.now bytes.now) starts.items)) }
    ensures each { IfOk result (λ starts. All (IsStart widths.now bytes.now) starts.items) }
    ensures fault { IfErr result (λ fault. IsFaultIn widths.now due (lines (drop from bytes.now)) fault) }
{
    let mut starts = Vec::new(alloc);
    let mut at = from;
    'lines: while at < bytes.len() {
        let line = first_line(&bytes[at..]);
        if due <= starts.len() {
            return Err(refused(starts.len(), WavesRule::Lines));
        }
        if let Some(rule) = row_rule(widths, &bytes[at..at + line.len]) {
            return Err(refused(starts.len(), rule));
        }
        starts.push(at).map_err(NoMemory::from)?;
        at += line.next;
    }
    if starts.len() < due {
        return Err(refused(starts.len(), WavesRule::Lines));
    }
    Ok(starts)
}

impl<'a> Waves<'a> {
    /// Reads waves of a module from the bytes of a file.
    pub fn read(alloc: Global, bytes: &'a [u8], module: &Module) -> Result<Waves<'a>, WavesFault>
        ensures widths { IfOk result (λ waves. waves.widths ≡ input_widths «module».now.ports) }
        ensures waves { IfOk result (λ waves. IsWavesOf (input_widths «module».now.ports) bytes.now waves.rows) }
        ensures fault { IfErr result (λ fault. IsFaultOf (input_widths «module».now.ports) bytes.now fault) }
    {
        module.well_made();
        let widths = widths_of(alloc, module.ports())?;
        if bytes.is_empty() {
            return Err(no_header());
        }
        let header = first_line(bytes);
        let Some(due) = cycles_in(&bytes[..header.len]) else {
            return Err(no_header());
        };
        let starts = starts_of(alloc, widths.as_slice(), bytes, header.next, due as usize)?;
        Ok(Waves {
            bytes,
            widths,
            starts,
        })
    }

    /// How many cycles there are values for.
    pub fn cycles(&self) -> u32
        ensures { result ≡ length self.now.rows }
    {
        self.starts.len() as u32
    }

    /// As many values as there are input ports, to read the values of a cycle into.
    pub fn blank_row(&self, alloc: Global) -> Result<Vec<Val>, NoMemory>
        ensures { IfOk result (λ row. length row.items ≡ length self.now.widths) }
    {
        let mut row = Vec::new(alloc);
        row.resize(self.widths.len(), Val::new(1, 0).unwrap())?;
        Ok(row)
    }

    /// The values of a cycle, one for each input port.
    pub fn row(&self, cycle: u32, into: &mut [Val])
        requires there { cycle < length self.now.rows }
        requires count { length into.old ≡ length self.now.widths }
        ensures row { slice_get self.now.rows cycle ≡ Some into.new }
        ensures widths { map (λ (value : Word). value.width) into.new ≡ self.now.widths }
    {
        let rest = &self.bytes[self.starts[cycle as usize]..];
        let line = first_line(rest);
        read_row(self.widths.as_slice(), &rest[..line.len], into);
    }
}
