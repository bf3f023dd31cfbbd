//! The sizes of a wide beat and of the narrow ones that it is made of.

ghost use Rattle.std.specs.Prelude.{◌≡◌, ℕ, ◌+◌, ◌-◌, ◌*◌, ◌^◌, ◌<◌, ◌≤◌};

use item_queues::address_bits;

/// How many narrow beats a wide one is made of.
#[derive(Clone, Copy)]
pub struct Sizes {
    /// The symbols of a narrow beat.
    pub symbols: u8,
    /// The narrow beats of a wide one.
    pub parts: u8,
    /// The bits of a symbol.
    pub bits: u8,
    /// The bits of a count of less than all symbols of a wide beat.
    pub count: u8,
    pub ghost some: { 1 ≤ symbols },
    pub ghost several: { 2 ≤ parts },
    pub ghost some_bits: { 1 ≤ bits },
    pub ghost small: { bits * (symbols * parts) ≤ 128 },
    pub ghost some_count: { 1 ≤ count },
    pub ghost few_count: { count ≤ 8 },
    pub ghost counts: { symbols * parts ≤ 2 ^ count },
}

impl Sizes {
    /// A wide beat of so many narrow ones, each of so many symbols.
    pub fn new(symbols: u8, parts: u8, bits: u8) -> Sizes
        requires some { 1 ≤ symbols }
        requires several { 2 ≤ parts }
        requires some_bits { 1 ≤ bits }
        requires small { bits * (symbols * parts) ≤ 128 }
        ensures symbols { result.symbols ≡ symbols }
        ensures parts { result.parts ≡ parts }
        ensures bits { result.bits ≡ bits }
        ensures least { (few : ℕ) → 1 ≤ few → symbols * parts ≤ 2 ^ few → result.count ≤ few }
    {
        let count = address_bits(symbols * parts);
        Sizes {
            symbols,
            parts,
            bits,
            count,
        }
    }

    /// The bits of a narrow word.
    pub(crate) fn narrow_bits(&self) -> u8
        ensures value { result ≡ self.now.bits * self.now.symbols }
        ensures some { 1 ≤ result }
        ensures within { self.now.bits * (self.now.symbols * (self.now.parts - 1)) + result
            ≡ self.now.bits * (self.now.symbols * self.now.parts) }
    {
        self.bits * self.symbols
    }

    /// The symbols of all narrow beats but one.
    pub(crate) fn rest_symbols(&self) -> u8
        ensures value { result ≡ self.now.symbols * (self.now.parts - 1) }
        ensures some { 1 ≤ result }
        ensures few { result + self.now.symbols ≤ 128 }
        ensures counted { result + self.now.symbols ≤ 2 ^ self.now.count }
    {
        self.symbols * (self.parts - 1)
    }

    /// The bits of all narrow words but one.
    pub(crate) fn rest_bits(&self) -> u8
        ensures value { result ≡ self.now.bits * (self.now.symbols * (self.now.parts - 1)) }
        ensures some { 1 ≤ result }
        ensures few { result + self.now.bits * self.now.symbols ≤ 128 }
    {
        self.bits * self.rest_symbols()
    }

    /// The bits of the parts below one. Part 0 has the lowest-order bits of a wide word.
    pub(crate) fn bits_below(&self, part: u8) -> u8
        requires { part < self.now.parts }
        ensures value { result ≡ self.now.bits * (self.now.symbols * part) }
        ensures inside { result + self.now.bits * self.now.symbols ≤ self.now.bits * (self.now.symbols * self.now.parts) }
        ensures few { result + self.now.bits * self.now.symbols ≤ 128 }
    {
        self.narrow_bits() * part
    }

    /// The symbols of the parts above one.
    pub(crate) fn symbols_before(&self, part: u8) -> u8
        requires { part < self.now.parts }
        ensures value { result ≡ self.now.symbols * (self.now.parts - 1 - part) }
        ensures few { result ≤ 128 }
        ensures counted { result + self.now.symbols ≤ 2 ^ self.now.count }
    {
        self.symbols * (self.parts - 1 - part)
    }
}
