//! Hexadecimal numbers and bytes.

ghost use Rattle.std.specs.Prelude.{◌≡◌, true, IfOk};
ghost use Rattle.std.specs.List.{list_all};
ghost use Rattle.waves.specs.Digits.{is_digit};
ghost use Rattle.waves.specs.Spelling.{is_hexadecimal, hexadecimal_in, are_bytes, bytes_in};

use crate::digits::{are_digits, digit_value, number};
use av_base::{Bytes, NoMemory};
use std::alloc::Global;

/// Whether a word spells a hexadecimal number: 1 to 32 digits, in lower case.
#[tactic(auto, unfolding(crate::specs::Spelling::is_hexadecimal))]
pub fn is_hexadecimal(text: &[u8]) -> bool
    ensures { result ≡ is_hexadecimal text.now }
{
    0 < text.len() && text.len() <= 32 && are_digits(text)
}

/// The hexadecimal number that a word spells.
#[tactic(auto, unfolding(crate::specs::Spelling::is_hexadecimal, crate::specs::Spelling::hexadecimal_in))]
pub fn hexadecimal(text: &[u8]) -> u128
    requires { is_hexadecimal text.now ≡ true }
    ensures { result ≡ hexadecimal_in text.now }
{
    number(text)
}

/// Whether a word spells bytes: an even number of digits, 2 to 64 of them.
#[tactic(auto, unfolding(crate::specs::Spelling::are_bytes))]
pub fn are_bytes(text: &[u8]) -> bool
    ensures { result ≡ are_bytes text.now }
{
    0 < text.len() && text.len() <= 64 && text.len() % 2 == 0 && are_digits(text)
}

fn pairs(alloc: Global, text: &[u8]) -> Result<Bytes, NoMemory>
    requires { list_all is_digit text.now ≡ true }
    ensures { IfOk result (λ bytes. bytes ≡ bytes_in text.now) }
{
    let mut bytes = Bytes::new(alloc);
    'pairs: for k in 0..text.len() / 2 {
        bytes.push(digit_value(text[2 * k]) * 16 + digit_value(text[2 * k + 1]))?;
    }
    Ok(bytes)
}

/// The bytes that a word spells, the first first.
#[tactic(auto, unfolding(crate::specs::Spelling::are_bytes))]
pub fn bytes(alloc: Global, text: &[u8]) -> Result<Bytes, NoMemory>
    requires { are_bytes text.now ≡ true }
    ensures { IfOk result (λ bytes. bytes ≡ bytes_in text.now) }
{
    pairs(alloc, text)
}
