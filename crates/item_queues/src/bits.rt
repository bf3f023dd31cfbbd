//! How many bits counts and addresses need.

ghost use Rattle.std.specs.Prelude.{ℕ, ◌^◌, ◌<◌, ◌≤◌};

/// How many bits the address in a memory of so many words needs: one at least.
pub fn address_bits(words: u8) -> u8
    ensures some { 1 ≤ result }
    ensures few { result ≤ 8 }
    ensures fits { words ≤ 2 ^ result }
    ensures least { (bits : ℕ) → 1 ≤ bits → words ≤ 2 ^ bits → result ≤ bits }
{
    if words <= 2 {
        1
    } else if words <= 4 {
        2
    } else if words <= 8 {
        3
    } else if words <= 16 {
        4
    } else if words <= 32 {
        5
    } else if words <= 64 {
        6
    } else if words <= 128 {
        7
    } else {
        8
    }
}

/// How many bits a count up to this bound needs: one at least.
pub fn count_bits(bound: u8) -> u8
    ensures some { 1 ≤ result }
    ensures few { result ≤ 8 }
    ensures fits { bound < 2 ^ result }
    ensures least { (bits : ℕ) → 1 ≤ bits → bound < 2 ^ bits → result ≤ bits }
{
    if bound == 255 {
        8
    } else {
        address_bits(bound + 1)
    }
}
