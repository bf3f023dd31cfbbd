//! Bits of words that are left out.

ghost use Rattle.std.specs.Prelude.{◌≡◌, ◌≤◌, ◌<◌, ◌+◌, ℕ, true};
ghost use Rattle.std.specs.Int.{bit_at};
ghost use Rattle.narrowed_netlists.specs.Gaps.{IsOpen, FitsIn};

use crate::bits::{has_bit, low_bits};

/// Bits that are left out of a word: so many zeros, of which bit `low` is the lowest. There are none where `zeros` is 0.
#[derive(Clone, Copy)]
pub struct Gap {
    pub low: u8,
    pub zeros: u8,
}

/// Nothing is left out.
pub(crate) fn no_gap() -> Gap
    ensures { result ≡ record { low = 0; zeros = 0 } }
{
    Gap { low: 0, zeros: 0 }
}

/// Whether the number has no bit in the gap.
pub(crate) fn is_open(gap: Gap, n: u128) -> bool
    requires { gap.low + gap.zeros ≤ 128 }
    ensures { result ≡ true → IsOpen gap n }
{
    gap.zeros == 0 || low_bits(n >> gap.low, gap.zeros) == 0
}

/// All bits but those in the gap.
pub(crate) fn outside(gap: Gap) -> u128
    requires { gap.low + gap.zeros ≤ 128 }
    ensures below { (i : ℕ) → i < gap.low → bit_at result i ≡ 1 }
    ensures above { (i : ℕ) → gap.low + gap.zeros ≤ i → i < 128 → bit_at result i ≡ 1 }
{
    if gap.zeros == 0 {
        return u128::MAX;
    }
    u128::MAX ^ (low_bits(u128::MAX, gap.zeros) << gap.low)
}

/// The longest run of zeros in a word, beside which a bit is left.
pub(crate) fn longest_gap(mask: u128, width: u8) -> Gap
    requires some_bit { 1 ≤ width }
    requires small { width ≤ 128 }
    ensures { FitsIn result width }
{
    let mut longest = no_gap();
    let mut zeros = 0u8;
    for bit in 0..width {
        if has_bit(mask, bit) {
            zeros = 0;
        } else {
            zeros += 1;
            if zeros > longest.zeros && zeros < width {
                longest = Gap {
                    low: bit + 1 - zeros,
                    zeros,
                };
            }
        }
    }
    longest
}
