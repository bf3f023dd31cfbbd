//! Marked bytes: packets on channels in one stream of bytes, as Avalon's bytes-to-packets components speak it.
#![tactic(auto)]

mod laws;
mod packing;
mod symbols;
mod unpacker;

pub use laws::{
    begun_items, faulty_bytes, one_fault, one_reading, one_unpacking, packed_bytes,
    packed_is_one_packet, streams_go_on, texts_are_written_in_order, unpacked_bytes,
    whole_packets_are_read,
};
pub use packing::pack;
pub use unpacker::{Fed, PacketByte, Unpacker};
