//! The constants of a text.

ghost use Rattle.std.specs.Prelude.{◌≡◌, ℕ, ◌+◌, ◌/◌, ◌≤◌, ◌<◌, ◌^◌, length};
ghost use Rattle.av_base.specs.Word.{word};
ghost use Rattle.netlist.specs.declared.line.Equation.{Equation};
ghost use Rattle.verilog_forms.specs.Forms.{Form};
ghost use Rattle.verilog_reader.specs.Spots.{found, IsWithin, Judges};
ghost use Rattle.verilog_forms.specs.RightSides.{constant_form};
ghost use Rattle.verilog_reader.specs.Holes.{width_bound, hex_bound, constant_told, TellsHexDigit, TellsHex};

use crate::holes::number;
use crate::spot::{Spot, fixed, run_at, take};
use av_base::Val;
use verilog_forms::Rule;

/// The number of a hexadecimal digit in lower case.
fn hex_digit(byte: u8) -> Option<u8>
    ensures { TellsHexDigit byte result }
{
    if b'0' <= byte && byte <= b'9' {
        return Some(byte - b'0');
    }
    if b'a' <= byte && byte <= b'f' {
        return Some(byte - b'a' + 10);
    }
    None
}

/// The number that hexadecimal digits in lower case spell.
fn hex(run: &[u8]) -> Option<u128>
    requires { length run.now ≤ 32 }
    ensures { TellsHex run.now result }
{
    let mut value: u128 = 0;
    'digits: for byte in run {
        match hex_digit(*byte) {
            None => return None,
            Some(digit) => value = value * 16 + u128::from(digit),
        }
    }
    Some(value)
}

/// A constant of so many bits.
fn hex_in(run: &[u8], width: u8) -> Result<Val, Rule>
    requires some_bit { 1 ≤ width }
    requires small { width ≤ 128 }
    ensures { Judges (hex_bound width) (constant_told width) run.now result }
{
    if run.len() != (usize::from(width) + 3) / 4 {
        return Err(Rule::Spelling);
    }
    match hex(run) {
        None => Err(Rule::Spelling),
        Some(bits) => match Val::new(width, bits) {
            None => Err(Rule::Spelling),
            Some(value) => Ok(value),
        },
    }
}

fn zero(width: u8) -> Val
    requires some_bit { 1 ≤ width }
    requires small { width ≤ 128 }
    ensures { result ≡ word width 0 }
{
    Val::new(width, 0).unwrap()
}

/// The width of a constant, which has to be this one.
fn constant_width_in(run: &[u8], width: u8) -> Result<u8, Rule>
    ensures { Judges (width_bound width) (λ run. width) run.now result }
{
    let Some(told) = number(run) else {
        return Err(Rule::Spelling);
    };
    if told != u64::from(width) {
        return Err(Rule::Width);
    }
    Ok(width)
}

/// A constant of so many bits.
pub(crate) fn constant(bytes: &[u8], spot: Spot, width: u8) -> (Val, Spot)
    requires within { IsWithin bytes.now spot }
    requires some_bit { 1 ≤ width }
    requires small { width ≤ 128 }
    ensures read { found (constant_form width) bytes.now spot
        ≡ found (Form.whole (Equation.Constant result.0)) bytes.now result.1 }
    ensures within { IsWithin bytes.now result.1 }
{
    let run = run_at(bytes, spot);
    let (_, behind) = take(bytes, spot, run, constant_width_in(run, width), width);
    let marked = fixed(bytes, behind, b"'h");
    let last = run_at(bytes, marked);
    take(bytes, marked, last, hex_in(last, width), zero(width))
}
