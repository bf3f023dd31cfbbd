//! How wide the ports are that number things.

ghost use Rattle.std.specs.Prelude.{◌≡◌, ℕ, ◌^◌, ◌≤◌};
ghost use Rattle.histories.specs.History.{one_if};
ghost use Rattle.routed_modules.specs.Sizes.{bits_for, empty_bits};

/// The least number of bits, one at least, that tell so many things apart.
pub(crate) fn bits_for(count: u8) -> u8
    requires { count ≤ 16 }
    ensures value { result ≡ bits_for count }
    ensures enough { count ≤ 2 ^ result }
    ensures least { (fewer : ℕ) → 1 ≤ fewer → count ≤ 2 ^ fewer → result ≤ fewer }
    ensures some { 1 ≤ result }
    ensures few { result ≤ 4 }
{
    if count <= 2 {
        1
    } else if count <= 4 {
        2
    } else if count <= 8 {
        3
    } else {
        4
    }
}

pub(crate) fn one_if(test: bool) -> u32
    ensures value { result ≡ one_if test }
    ensures most { result ≤ 1 }
{
    if test { 1 } else { 0 }
}

/// The bits of `empty` beside a word of so many symbols, where it has one.
pub(crate) fn empty_bits(symbols: u8) -> Option<u8>
    requires { symbols ≤ 16 }
    ensures { result ≡ empty_bits symbols }
{
    if symbols > 1 {
        Some(bits_for(symbols))
    } else {
        None
    }
}
