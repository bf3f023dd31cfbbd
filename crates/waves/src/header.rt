//! The first line of a waves file.

ghost use Rattle.std.specs.Prelude.{◌≡◌, ◌<◌, length, Some, None, if◌then◌else◌};
ghost use Rattle.waves.specs.Digits.{number_behind};
ghost use Rattle.waves.specs.Header.{is_count, cycles_in};

use crate::counts::{are_decimal, short_count};

fn count(digits: &[u8]) -> Option<u32>
    requires { 0 < length digits.now }
    ensures { result ≡ (if is_count digits.now then Some (number_behind 10 0 digits.now) else None) }
{
    if 5 < digits.len() || !are_decimal(digits) || digits[0] == b'0' {
        return None;
    }
    let number = short_count(digits);
    if number <= 65_536 { Some(number) } else { None }
}

/// For how many cycles the first line says that a file is.
pub(crate) fn cycles_in(line: &[u8]) -> Option<u32>
    ensures { result ≡ cycles_in line.now }
{
    if line.len() <= 7 || !line.starts_with(b"cycles ") {
        return None;
    }
    count(&line[7..])
}
