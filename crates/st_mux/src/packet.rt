//! The nets of a beat in packets.

use netlist::Net;

/// The nets of an end of packets, beside `channel` and `ready`. One that has no `empty` has a net that is always 0.
#[derive(Clone, Copy)]
pub struct PacketNets {
    /// One bit.
    pub valid: Net,
    pub word: Net,
    /// `startofpacket`, one bit.
    pub first: Net,
    /// `endofpacket`, one bit.
    pub last: Net,
    pub empty: Net,
}
