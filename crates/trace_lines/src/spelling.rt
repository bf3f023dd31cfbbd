//! Numbers, as a trace spells them, each behind a blank.

ghost use Rattle.std.specs.Prelude.{◌≡◌, ◌+◌, ◌<◌, ◌≤◌, ◌++◌, length, codes};
ghost use Rattle.verilog_writer.specs.Text.{hex_digit, hex_digits};
ghost use Rattle.trace_lines.specs.Spelling.{value_text, hex_within, short_hex, code_text, flags_text};

use av_base::Val;
use av_base::lines::Line;

/// A number below 16 as a hexadecimal digit in lower case.
fn hex_digit(n: u8) -> u8
    requires { n < 16 }
    ensures { result ≡ hex_digit n }
{
    if n < 10 { b'0' + n } else { b'a' + (n - 10) }
}

/// Appends the lowest `count` hexadecimal digits of a number.
fn put_hex(line: &mut Line, count: u8, number: u128)
    requires { length line.old + count ≤ 256 }
    ensures text { line.new ≡ line.old ++ hex_digits count number }
    ensures long { length line.new ≡ length line.old + count }
{
    if count == 0 {
        return;
    }
    put_hex(line, count - 1, number / 16);
    line.put(&[hex_digit((number % 16) as u8)]);
}

/// Appends a number of at most so many digits without zeros in front.
fn put_hex_within(line: &mut Line, most: u8, number: u32)
    requires { length line.old + most ≤ 256 }
    ensures text { line.new ≡ line.old ++ hex_within most number }
    ensures short { length line.new ≤ length line.old + most }
{
    if most == 0 {
        return;
    }
    if number >= 16 {
        put_hex_within(line, most - 1, number / 16);
    }
    line.put(&[hex_digit((number % 16) as u8)]);
}

pub(crate) fn put_value(line: &mut Line, value: Val)
    requires { length line.old ≤ 223 }
    ensures text { line.new ≡ line.old ++ codes " " ++ value_text value }
    ensures short { length line.new ≤ length line.old + 33 }
{
    line.put(b" ");
    put_hex(line, (value.width() + 3) / 4, value.bits());
}

pub(crate) fn put_offset(line: &mut Line, offset: u32)
    requires { length line.old ≤ 247 }
    ensures text { line.new ≡ line.old ++ codes " " ++ hex_digits 8 offset }
    ensures short { length line.new ≤ length line.old + 9 }
{
    line.put(b" ");
    put_hex(line, 8, u128::from(offset));
}

pub(crate) fn put_short(line: &mut Line, number: u32)
    requires { length line.old ≤ 247 }
    ensures text { line.new ≡ line.old ++ codes " " ++ short_hex number }
    ensures short { length line.new ≤ length line.old + 9 }
{
    line.put(b" ");
    put_hex_within(line, 8, number);
}

/// Appends a code, where there is one.
pub(crate) fn put_code(line: &mut Line, code: Option<u8>)
    requires { length line.old ≤ 247 }
    ensures text { line.new ≡ line.old ++ code_text code }
    ensures short { length line.new ≤ length line.old + 9 }
{
    if let Some(code) = code {
        put_short(line, u32::from(code));
    }
}

pub(crate) fn put_flags(line: &mut Line, first: bool, last: bool)
    requires { length line.old ≤ 253 }
    ensures text { line.new ≡ line.old ++ codes " " ++ flags_text first last }
    ensures short { length line.new ≤ length line.old + 3 }
{
    let flags: &[u8] = match (first, last) {
        (false, false) => b" -",
        (true, false) => b" s",
        (false, true) => b" e",
        (true, true) => b" se",
    };
    line.put(flags);
}
