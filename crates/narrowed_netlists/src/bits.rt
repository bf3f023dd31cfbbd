//! Bits of numbers.

ghost use Rattle.std.specs.Prelude.{◌≡◌, ◌≤◌, ◌<◌, ◌%◌, ◌^◌, ℕ, true, false};
ghost use Rattle.std.specs.Int.{bit_at};
ghost use Rattle.narrowed_netlists.specs.Masks.{IsFromLowest};

/// The low `width` bits of a number.
pub(crate) fn low_bits(n: u128, width: u8) -> u128
    requires { width ≤ 128 }
    ensures { result ≡ n % 2 ^ width }
{
    if width == 0 {
        return 0;
    }
    n & (u128::MAX >> (128 - width))
}

/// Whether the bit is set.
pub(crate) fn has_bit(n: u128, bit: u8) -> bool
    requires { bit < 128 }
    ensures set { result ≡ true → bit_at n bit ≡ 1 }
    ensures clear { result ≡ false → bit_at n bit ≡ 0 }
{
    (n >> bit) & 1 == 1
}

/// How many bits below the lowest 1 are 0, 127 at most.
fn low_zeros(mask: u128) -> u8
    ensures few { result < 128 }
    ensures zeros { (i : ℕ) → i < result → bit_at mask i ≡ 0 }
{
    for bit in 0..127 {
        if has_bit(mask, bit) {
            return bit;
        }
    }
    127
}

/// All bits but those below the lowest 1.
pub(crate) fn from_lowest(mask: u128) -> u128
    ensures { IsFromLowest mask result }
{
    u128::MAX << low_zeros(mask)
}
