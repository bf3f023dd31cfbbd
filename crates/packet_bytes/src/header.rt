//! The numbers at the front of a packet.

ghost use Rattle.std.specs.Prelude.{◌≡◌, ◌<◌, ◌^◌, slice_index};
ghost use Rattle.packet_bytes.specs.Codes.{code_of, size_in, address_in};

use crate::codes::{Code, code_of};

/// A byte of a packet, and 0 where it has none.
pub(crate) fn byte_at(bytes: &[u8], place: usize) -> u8
    ensures { result ≡ slice_index bytes.now place }
{
    match bytes.get(place) {
        Some(byte) => *byte,
        None => 0,
    }
}

/// The code of a packet.
pub(crate) fn code_in(bytes: &[u8]) -> Option<Code>
    ensures { result ≡ code_of (slice_index bytes.now 0) }
{
    code_of(byte_at(bytes, 0))
}

/// How many bytes a packet writes or reads.
pub(crate) fn size_in(bytes: &[u8]) -> u32
    ensures value { result ≡ size_in bytes.now }
    ensures small { result < 2 ^ 16 }
{
    u32::from(byte_at(bytes, 2)) * 256 + u32::from(byte_at(bytes, 3))
}

/// The address of the first of them.
pub(crate) fn address_in(bytes: &[u8]) -> u32
    ensures { result ≡ address_in bytes.now }
{
    let high = u32::from(byte_at(bytes, 4)) * 256 + u32::from(byte_at(bytes, 5));
    (high * 256 + u32::from(byte_at(bytes, 6))) * 256 + u32::from(byte_at(bytes, 7))
}
