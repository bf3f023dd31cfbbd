//! The holes of a text: numbers, widths, nets.

ghost use Rattle.std.specs.Prelude.{◌≡◌, ℕ, ◌+◌, ◌≤◌, ◌<◌, ◌^◌, List, length, codes, IsSome, IfOk};
ghost use Rattle.std.specs.Char.{is_digit};
ghost use Rattle.verilog_reader.specs.Spots.{IsWithin, Judges};
ghost use Rattle.verilog_forms.specs.RightSides.{well_led, net_of, operand_test};
ghost use Rattle.verilog_forms.specs.WireLines.{high_test, number_test};
ghost use Rattle.verilog_reader.specs.Holes.{capped, TellsDigits, TellsNumber, TellsNet, width_told, Ranges, named_from, fits, TakesOperand};

use crate::spot::{Spot, fixed, refuse, run_at, take};
use netlist::Line;
use verilog_forms::Rule;

/// More than any count that a number is compared with.
const LIMIT: u64 = 1 << 32;

fn capped(n: u64) -> u64
    ensures capped { result ≡ capped n }
    ensures small { result ≤ 2 ^ 32 }
{
    if n < LIMIT { n } else { LIMIT }
}

pub(crate) fn is_digit(byte: u8) -> bool
    ensures { result ≡ is_digit byte 10 }
{
    b'0' <= byte && byte <= b'9'
}

fn digits(run: &[u8]) -> Option<u64>
    ensures { TellsDigits run.now result }
{
    let mut value: u64 = 0;
    'digits: for byte in run {
        if !is_digit(*byte) {
            return None;
        }
        value = capped(value * 10 + u64::from(*byte - b'0'));
    }
    Some(value)
}

fn well_led(run: &[u8]) -> bool
    ensures { result ≡ well_led run.now }
{
    match run {
        [] => false,
        [byte, rest @ ..] => *byte != b'0' || rest.is_empty(),
    }
}

/// The number that the bytes spell, or 2^32 if it is larger; none where they don't spell one.
pub(crate) fn number(run: &[u8]) -> Option<u64>
    ensures { TellsNumber run.now result }
{
    if !well_led(run) {
        return None;
    }
    digits(run)
}

pub(crate) fn net_number(run: &[u8]) -> Option<u64>
    ensures { TellsNet run.now result }
{
    match run {
        [b'n', digits @ ..] => number(digits),
        _ => None,
    }
}

/// A width, of which the bytes spell one less.
fn width_in(run: &[u8]) -> Result<u8, Rule>
    ensures told { Judges high_test width_told run.now result }
    ensures bits { IfOk result (λ w. (1 ≤ w) × (w ≤ 128)) }
{
    let Some(high) = number(run) else {
        return Err(Rule::Spelling);
    };
    if high >= 128 {
        return Err(Rule::Width);
    }
    Ok(high as u8 + 1)
}

/// The width that a range tells.
pub(crate) fn range(bytes: &[u8], spot: Spot) -> (u8, Spot)
    requires { IsWithin bytes.now spot }
    ensures read { Ranges bytes.now spot result.0 result.1 }
    ensures within { IsWithin bytes.now result.1 }
    ensures bits { (1 ≤ result.0) × (result.0 ≤ 128) }
{
    let opened = fixed(bytes, spot, b"[");
    let run = run_at(bytes, opened);
    let (width, behind) = take(bytes, opened, run, width_in(run), 1);
    (width, fixed(bytes, behind, b":0]"))
}

/// The number n and no other.
pub(crate) fn exactly(run: &[u8], n: usize) -> Result<usize, Rule>
    requires { n < 2 ^ 32 }
    ensures { Judges (number_test n) (λ run. n) run.now result }
{
    let Some(told) = number(run) else {
        return Err(Rule::Spelling);
    };
    if told != n as u64 {
        return Err(Rule::Spelling);
    }
    Ok(n)
}

/// The spot behind the name of net n.
pub(crate) fn named(bytes: &[u8], spot: Spot, n: usize) -> Spot
    requires within { IsWithin bytes.now spot }
    requires few { n < 2 ^ 32 }
    ensures read { result ≡ named_from n bytes.now spot }
    ensures within { IsWithin bytes.now result }
{
    let lettered = fixed(bytes, spot, b"n");
    let run = run_at(bytes, lettered);
    let (_, behind) = take(bytes, lettered, run, exactly(run, n), 0);
    behind
}

/// The widths that an operand may have.
#[derive(Clone, Copy)]
pub(crate) enum Wanted {
    Any,
    Exactly(u8),
    /// What is left of a whole width behind the high bits.
    Behind { high: u8, whole: u8 },
}

fn fits(wanted: Wanted, width: u8) -> bool
    ensures { result ≡ fits wanted width }
{
    match wanted {
        Wanted::Any => true,
        Wanted::Exactly(exact) => width == exact,
        Wanted::Behind { high, whole } => u16::from(high) + u16::from(width) == u16::from(whole),
    }
}

/// A net among these, of a width that is wanted.
fn operand_in(run: &[u8], lines: &[Line], wanted: Wanted) -> Result<u32, Rule>
    requires { length lines.now ≤ 2 ^ 32 }
    ensures { Judges (operand_test lines.now (length lines.now) (fits wanted)) net_of run.now result }
{
    let Some(net) = net_number(run) else {
        return Err(Rule::Spelling);
    };
    if net >= lines.len() as u64 {
        return Err(Rule::NotThere);
    }
    if !fits(wanted, lines[net as usize].width) {
        return Err(Rule::Width);
    }
    Ok(net as u32)
}

/// The operand ahead.
pub(crate) fn operand(bytes: &[u8], spot: Spot, lines: &[Line], wanted: Wanted) -> (u32, Spot)
    requires within { IsWithin bytes.now spot }
    requires few { length lines.now ≤ 2 ^ 32 }
    ensures read { TakesOperand lines.now wanted bytes.now spot result.0 result.1 }
    ensures within { IsWithin bytes.now result.1 }
{
    let run = run_at(bytes, spot);
    take(bytes, spot, run, operand_in(run, lines, wanted), 0)
}
