//! Why transactions were not read.

ghost use Rattle.std.specs.Prelude.{◌≡◌};

use av_base::NoMemory;
use thiserror::Error;

/// Why transactions were not read: the byte of the first fault and its rule, or want of memory.
///
/// Rule 1: a mark stands in place of a channel. 2: data stands outside a packet, or is marked inside one as the first or with
/// another channel. 3: the stream ends inside a packet or an item. 4: an unknown code. 5: a wrong size or length. 6: a fixed
/// address or size that isn't a multiple of the word's, or bytes past the range. 7: too many commands.
#[derive(Clone, Copy, Debug, PartialEq, Eq, Error)]
pub enum PacketFault {
    #[error("byte {byte} breaks rule {rule} of packets")]
    Refused { byte: u64, rule: u8 },
    #[error("out of memory")]
    NoMemory,
}

impl From<NoMemory> for PacketFault {
    ghost use Rattle.packet_bytes.specs.declared.faults.PacketFault.TheVariants.{NoMemory as OutOfMemory};

    ghost from_gives = { λ e fault. fault ≡ OutOfMemory };

    fn from(_e: NoMemory) -> PacketFault {
        PacketFault::NoMemory
    }
}
