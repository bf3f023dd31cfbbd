//! Transactions in packets: from marked bytes to the commands of a host, and from its words to reply packets.
#![tactic(auto)]

mod answers;
mod codes;
mod commands;
mod faults;
mod gathering;
mod header;
mod laws;
mod packets;
mod replies;
mod rules;
mod transfers;

pub use codes::Code;
pub use faults::PacketFault;
pub use laws::{
    commands_are_counted, commands_are_stated, enabled_bytes_are_answered,
    leading_packets_are_answered, packets_are_refused, packets_have_places, reads_are_answered,
    reads_are_unpacked, reads_have_one_answer, replies_are_sent,
};
pub use marked_bytes::{Fed, PacketByte, Unpacker, pack};
pub use replies::Replies;
pub use transfers::Transfers;
