//! Decimal numbers.

ghost use Rattle.std.specs.Prelude.{◌≡◌, ◌≤◌, ◌<◌, ◌&&◌, nat_le, length, true, Some, None, if◌then◌else◌};
ghost use Rattle.std.specs.List.{list_all};
ghost use Rattle.waves.specs.Digits.{is_decimal, number_behind};
ghost use Rattle.waves.specs.Spelling.{is_count, count_in};

use crate::digits::digit_value;

/// Whether all are decimal digits.
pub(crate) fn are_decimal(text: &[u8]) -> bool
    ensures { result ≡ list_all is_decimal text.now }
{
    'digits: for byte in text {
        if *byte <= 47 || 58 <= *byte {
            return false;
        }
    }
    true
}

/// Whether a word spells a decimal number, without zeros at its front.
#[tactic(auto, unfolding(crate::specs::Spelling::is_count))]
pub fn is_count(text: &[u8]) -> bool
    ensures { result ≡ is_count text.now }
{
    0 < text.len() && are_decimal(text) && (text.len() == 1 || text[0] != b'0')
}

/// The number of at most 5 decimal digits.
pub(crate) fn short_count(text: &[u8]) -> u32
    requires digits { list_all is_decimal text.now ≡ true }
    requires short { length text.now ≤ 5 }
    ensures { result ≡ number_behind 10 0 text.now }
{
    let mut number = 0;
    'digits: for byte in text {
        number = number * 10 + u32::from(digit_value(*byte));
    }
    number
}

/// The decimal number that a word spells, up to the greatest that is asked for, which has 5 digits at most.
#[tactic(auto, unfolding(crate::specs::Spelling::is_count, crate::specs::Spelling::count_in))]
pub fn count(text: &[u8], greatest: u32) -> Option<u32>
    requires spelled { is_count text.now ≡ true }
    requires small { greatest < 100000 }
    ensures { result ≡ (if nat_le (count_in text.now) greatest then Some (count_in text.now) else None) }
{
    if 5 < text.len() {
        return None;
    }
    let number = short_count(text);
    if number <= greatest {
        Some(number)
    } else {
        None
    }
}
