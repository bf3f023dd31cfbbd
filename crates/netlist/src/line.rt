ghost use Rattle.std.specs.Prelude.{◌≡◌};
ghost use Rattle.netlist.specs.Nets.{net_of, mem_of};

use av_base::{Text, Val};
use std::marker::Model;

/// A net of a builder.
#[derive(Clone, Copy)]
pub struct Net {
    number: u32,
    width: u8,
}

impl Model for Net {
    ghost use Rattle.netlist.specs.Nets.{NetValue, net_of};

    ghost Value = { NetValue };

    ghost view = { λ n. net_of n.number n.width };

    ghost inverse = { λ n. record { number = n.number; width = n.width } };
}

impl Net {
    pub(crate) fn new(number: u32, width: u8) -> Net
        ensures { result ≡ net_of number width }
    {
        Net { number, width }
    }

    /// The net's width in bits.
    pub(crate) fn width(self) -> u8
        ensures { result ≡ self.width }
    {
        self.width
    }

    /// The net's place in its module's list, from 0.
    pub fn number(self) -> u32
        ensures { result ≡ self.number }
    {
        self.number
    }
}

/// A memory of a builder.
#[derive(Clone, Copy)]
pub struct Mem {
    number: u32,
    width: u8,
    address_bits: u8,
}

impl Model for Mem {
    ghost use Rattle.netlist.specs.Nets.{MemValue, mem_of};

    ghost Value = { MemValue };

    ghost view = { λ m. mem_of m.number m.width m.address_bits };

    ghost inverse = { λ m. record { number = m.number; width = m.width; address_bits = m.address_bits } };
}

impl Mem {
    pub(crate) fn new(number: u32, width: u8, address_bits: u8) -> Mem
        ensures { result ≡ mem_of number width address_bits }
    {
        Mem {
            number,
            width,
            address_bits,
        }
    }

    /// The memory's place in its module's list, from 0.
    pub(crate) fn number(self) -> u32
        ensures { result ≡ self.number }
    {
        self.number
    }
}

/// A port of a module: its width in bits, and whether the module drives it.
pub struct PortLine {
    pub name: Text,
    pub width: u8,
    pub output: bool,
}

/// By hand, so that what drops one calls this, and isn't followed through its fields.
impl Drop for PortLine {
    fn drop(self) {
        let PortLine {
            name: _,
            width: _,
            output: _,
        } = self;
    }
}

/// What gives a net its value. Nets, ports and memories are named by number; the operators are those of `Val`.
#[derive(Clone, Copy)]
pub enum Equation {
    Input { port: u32 },
    Constant { value: Val },
    And { a: u32, b: u32 },
    Or { a: u32, b: u32 },
    Xor { a: u32, b: u32 },
    Add { a: u32, b: u32 },
    Sub { a: u32, b: u32 },
    Eq { a: u32, b: u32 },
    Less { a: u32, b: u32 },
    Concat { a: u32, b: u32 },
    Not { a: u32 },
    Any { a: u32 },
    Mux { s: u32, a: u32, b: u32 },
    Slice { a: u32, high: u8, low: u8 },
    Reg { reset: Val, next: u32 },
    Read { memory: u32, address: u32 },
}

/// A net's width in bits and its equation.
///
/// A register `waits` until its next net is set; what stands as `next` before then means nothing.
#[derive(Clone, Copy)]
pub struct Line {
    pub width: u8,
    pub equation: Equation,
    pub waits: bool,
}

/// The nets of a memory's write: at the clock's edge the word goes to the address where `enable` is 1.
#[derive(Clone, Copy)]
pub struct MemWrite {
    pub enable: u32,
    pub address: u32,
    pub word: u32,
}

/// A memory: its width and its address bits; and its write, once it is set.
#[derive(Clone, Copy)]
pub struct Memory {
    pub width: u8,
    pub address_bits: u8,
    pub write: Option<MemWrite>,
}

/// A memory of a module: at the clock's edge the word goes to the address where `enable` is 1.
#[derive(Clone, Copy)]
pub struct MemLine {
    pub width: u8,
    pub address_bits: u8,
    pub enable: u32,
    pub address: u32,
    pub word: u32,
}
