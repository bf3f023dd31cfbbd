//! The nets at the ports of a host.

use netlist::Net;

/// The nets that a host gives, where it has the port.
#[derive(Clone, Copy)]
pub struct HostNets {
    /// In bytes or in words, as the host counts.
    pub address: Net,
    /// One bit.
    pub read: Option<Net>,
    /// One bit.
    pub write: Option<Net>,
    pub writedata: Option<Net>,
    /// A bit for each byte of the word; without it all bytes are enabled.
    pub byteenable: Option<Net>,
    /// The beats of the burst that begins; without it each command has one beat.
    pub burstcount: Option<Net>,
}

/// The nets that are made for a host, where it has the port.
#[derive(Clone, Copy)]
pub struct HostAnswer {
    /// One bit.
    pub waitrequest: Net,
    pub readdata: Net,
    /// One bit.
    pub readdatavalid: Option<Net>,
    /// Two bits: the code of the word that is given, 0 in a cycle without one.
    pub response: Option<Net>,
}
