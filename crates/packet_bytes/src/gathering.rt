//! Packets, as their bytes come.

ghost use Rattle.std.specs.Prelude.{◌≡◌, OnOk};

use av_base::{Bytes, NoMemory};
use marked_bytes::PacketByte;
use std::alloc::Global;
use std::mem;

/// A packet of a stream, and where in it the data of its first and of its last byte is spelled.
#[derive(Drop)]
pub(crate) struct Packet {
    pub(crate) channel: u8,
    pub(crate) bytes: Bytes,
    pub(crate) first_place: u64,
    pub(crate) last_place: u64,
}

/// Whole packets, and behind them the bytes of one that stands open.
#[derive(Drop)]
pub(crate) struct Gathering {
    pub(crate) packets: Vec<Packet>,
    open: Bytes,
    first_place: u64,
}

impl Gathering {
    ghost use Rattle.packet_bytes.specs.Gathering.{nothing, gathers};

    pub(crate) fn new(alloc: Global) -> Gathering
        ensures { nothing result }
    {
        Gathering {
            packets: Vec::new(alloc),
            open: Bytes::new(alloc),
            first_place: 0,
        }
    }

    /// Adds a byte whose data is spelled from this place on.
    pub(crate) fn add(
        &mut self,
        alloc: Global,
        given: PacketByte,
        place: u64,
    ) -> Result<(), NoMemory>
        ensures { OnOk result (gathers self.old (record { byte = given; place = place }) self.new) }
    {
        if given.first {
            self.first_place = place;
        }
        self.open.push(given.byte)?;
        if given.last {
            let bytes = mem::replace(&mut self.open, Bytes::new(alloc));
            self.packets.push(Packet {
                channel: given.channel,
                bytes,
                first_place: self.first_place,
                last_place: place,
            })?;
        }
        Ok(())
    }
}
