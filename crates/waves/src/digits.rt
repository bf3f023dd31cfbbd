//! Hexadecimal digits, and values as waves files write them.

ghost use Rattle.std.specs.Prelude.{◌≡◌, ◌≤◌, ◌<◌, length, true};
ghost use Rattle.std.specs.List.{list_all};
ghost use Rattle.waves.specs.Digits.{is_digit, digit_value, number_behind, digits_for, value_in};

use av_base::Val;

fn is_digit(byte: u8) -> bool
    ensures { result ≡ is_digit byte }
{
    (47 < byte && byte < 58) || (96 < byte && byte < 103)
}

pub(crate) fn digit_value(byte: u8) -> u8
    requires { is_digit byte ≡ true }
    ensures value { result ≡ digit_value byte }
    ensures small { result < 16 }
{
    if byte < 58 { byte - 48 } else { byte - 87 }
}

pub(crate) fn are_digits(text: &[u8]) -> bool
    ensures { result ≡ list_all is_digit text.now }
{
    'digits: for byte in text {
        if !is_digit(*byte) {
            return false;
        }
    }
    true
}

pub(crate) fn number(text: &[u8]) -> u128
    requires digits { list_all is_digit text.now ≡ true }
    requires short { length text.now ≤ 32 }
    ensures { result ≡ number_behind 16 0 text.now }
{
    let mut number = 0;
    'digits: for byte in text {
        number = number * 16 + u128::from(digit_value(*byte));
    }
    number
}

/// How many digits a value of the width has.
fn digits_for(width: u8) -> usize
    requires { width ≤ 128 }
    ensures value { result ≡ digits_for width }
    ensures few { result ≤ 32 }
{
    (usize::from(width) + 3) / 4
}

/// The value of the width that the text writes.
pub(crate) fn value_in(width: u8, text: &[u8]) -> Option<Val>
    requires some { 1 ≤ width }
    requires small { width ≤ 128 }
    ensures { result ≡ value_in width text.now }
{
    if text.len() != digits_for(width) || !are_digits(text) {
        return None;
    }
    Val::new(width, number(text))
}
