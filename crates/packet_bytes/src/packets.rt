//! The packets of a stream.

ghost use Rattle.std.specs.Prelude.{◌≡◌, ◌∷◌, ◌++◌, ℕ, List as Sequence, [], length, OnOk, IfOk, IfErr};
ghost use Rattle.std.specs.Bool.{OnTrue, OnFalse};
ghost use Rattle.packet_bytes.specs.Streams.{AreRead, IsStreamFault};
ghost use Rattle.packet_bytes.specs.Gathering.{data_place};
ghost use Rattle.packet_bytes.specs.declared.faults.PacketFault.TheVariants.{Refused};

use crate::faults::PacketFault;
use crate::gathering::{Gathering, Packet};
use marked_bytes::{Fed, Unpacker};
use std::alloc::Global;

fn refused(place: usize, rule: u8) -> PacketFault
    ensures { result ≡ Refused place rule }
{
    PacketFault::Refused {
        byte: place as u64,
        rule,
    }
}

/// Where the spelling of data begins that ends at this place.
fn data_place(place: usize, escaped: bool) -> u64
    ensures { result ≡ data_place place escaped }
{
    if escaped && 0 < place {
        place as u64 - 1
    } else {
        place as u64
    }
}

/// What was read of a stream so far.
#[derive(Drop)]
struct Reader {
    unpacker: Unpacker,
    gathering: Gathering,
}

impl Reader {
    ghost use Rattle.packet_bytes.specs.Reading.{IsReading, IsRefusedAt};
    ghost use Rattle.packet_bytes.specs.Streams.{IsOpen};

    fn new(alloc: Global) -> Reader
        ensures { IsReading [] result }
    {
        Reader {
            unpacker: Unpacker::new(),
            gathering: Gathering::new(alloc),
        }
    }

    /// Reads the byte at this place.
    fn feed(&mut self, alloc: Global, place: usize, byte: u8) -> Result<(), PacketFault>
        ensures read { OnOk result
            ((fed : Sequence ℕ) → length fed ≡ place → IsReading fed self.old → IsReading (fed ++ byte ∷ []) self.new) }
        ensures fault { IfErr result (λ fault. (fed : Sequence ℕ) → IsReading fed self.old → IsRefusedAt fed place byte fault) }
    {
        let escaped = self.unpacker.is_escaping();
        match self.unpacker.feed(byte) {
            Fed::More => Ok(()),
            Fed::Byte(given) => {
                self.gathering
                    .add(alloc, given, data_place(place, escaped))?;
                Ok(())
            }
            Fed::Bad(rule) => Err(refused(place, rule)),
        }
    }

    /// Whether a stream that ends here has whole packets alone.
    fn is_whole(&self) -> bool
        ensures whole { (fed : Sequence ℕ) → IsReading fed self.now
            → OnTrue result (AreRead fed self.now.gathering.packets.items) }
        ensures open_still { (fed : Sequence ℕ) → IsReading fed self.now → OnFalse result (IsOpen fed) }
    {
        self.unpacker.at_rest()
    }
}

/// The packets that a stream makes, each with the places of its first and last byte.
pub(crate) fn packets_of(alloc: Global, bytes: &[u8]) -> Result<Vec<Packet>, PacketFault>
    ensures packets { IfOk result (λ packets. AreRead bytes.now packets.items) }
    ensures fault { IfErr result (IsStreamFault bytes.now) }
{
    let mut reader = Reader::new(alloc);
    'bytes: for (place, byte) in bytes.iter().enumerate() {
        if let Err(fault) = reader.feed(alloc, place, *byte) {
            return Err(fault);
        }
    }
    if !reader.is_whole() {
        return Err(refused(bytes.len(), 3));
    }
    Ok(reader.gathering.packets)
}
