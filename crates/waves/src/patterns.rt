//! Patterns of stalls.

ghost use Rattle.std.specs.Prelude.{◌≡◌, true, IfOk};
ghost use Rattle.std.specs.List.{list_all};
ghost use Rattle.waves.specs.Spelling.{is_bit, is_pattern, pattern_in};

use av_base::{List, NoMemory};
use std::alloc::Global;

fn are_bits(text: &[u8]) -> bool
    ensures { result ≡ list_all is_bit text.now }
{
    'bits: for byte in text {
        if *byte != b'0' && *byte != b'1' {
            return false;
        }
    }
    true
}

/// Whether a word spells a pattern: 1 to 64 characters `0` and `1`.
#[tactic(auto, unfolding(crate::specs::Spelling::is_pattern))]
pub fn is_pattern(text: &[u8]) -> bool
    ensures { result ≡ is_pattern text.now }
{
    0 < text.len() && text.len() <= 64 && are_bits(text)
}

/// Where a word has `1`.
#[tactic(auto, unfolding(crate::specs::Spelling::pattern_in))]
pub fn pattern(alloc: Global, text: &[u8]) -> Result<List<bool>, NoMemory>
    ensures { IfOk result (λ pattern. pattern ≡ pattern_in text.now) }
{
    let mut pattern = List::new(alloc);
    'bits: for byte in text {
        pattern.push(*byte == b'1')?;
    }
    Ok(pattern)
}
