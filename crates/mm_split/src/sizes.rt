//! The numbers of a splitter.

ghost use Rattle.std.specs.Prelude.{◌≡◌, ◌*◌, ◌^◌, ◌<◌, ◌≤◌};
ghost use Rattle.mm_split.specs.Sizes.{AreSplitSizes, AreSizes};

use crate::split::Split;
use command_nets::lane_bits;

/// The numbers of a splitter, as its nets need them.
#[derive(Clone, Copy)]
pub struct Sizes {
    /// How many narrow words make a wide one.
    pub pieces: u8,
    /// The bits of a piece's number.
    pub place_bits: u8,
    pub narrow_bytes: u8,
    /// The bits of the number of a byte of a wide word.
    pub wide_bits: u8,
    /// How many wide reads may be under way.
    pub room: u8,
    /// The bits of their number.
    pub room_bits: u8,
    /// Whether all pieces are asked.
    pub all_lanes: bool,
}

/// How many bits a count up to this number needs.
fn bits_to(most: u8) -> u8
    requires { most ≤ 16 }
    ensures some { 1 ≤ result }
    ensures few { result ≤ 5 }
    ensures fits { most < 2 ^ result }
{
    if most < 2 {
        1
    } else if most < 4 {
        2
    } else if most < 8 {
        3
    } else if most < 16 {
        4
    } else {
        5
    }
}

impl Split {
    /// Its numbers.
    pub(crate) fn sizes(&self) -> Sizes
        requires { AreSplitSizes self.now }
        ensures sizes { AreSizes result }
        ensures wide { 2 ^ result.wide_bits ≡ self.now.wide_bytes }
        ensures narrow { result.narrow_bytes ≡ self.now.narrow_bytes }
        ensures room { result.room ≡ self.now.reads }
    {
        let wide_bits = lane_bits(self.wide_bytes);
        let narrow_bits = lane_bits(self.narrow_bytes);
        Sizes {
            pieces: self.wide_bytes / self.narrow_bytes,
            place_bits: wide_bits - narrow_bits,
            narrow_bytes: self.narrow_bytes,
            wide_bits,
            room: self.reads,
            room_bits: bits_to(self.reads),
            all_lanes: self.all_lanes,
        }
    }
}
