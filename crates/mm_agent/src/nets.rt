//! The nets at the ports of an agent, and those that are made for it.

use crate::reads::HeldReads;
use crate::waits::HeldWait;
use command_nets::AnswerNets;
use netlist::Net;

/// The nets that an agent gives, where it has the port.
#[derive(Clone, Copy)]
pub struct AgentNets {
    /// One bit.
    pub waitrequest: Option<Net>,
    pub readdata: Option<Net>,
    /// One bit.
    pub readdatavalid: Option<Net>,
    /// Two bits: the code of the word that comes in the cycle.
    pub response: Option<Net>,
}

/// The nets that are made. What an agent gets beside its address and its `read` is the command's own net.
#[derive(Clone, Copy)]
pub struct AgentMade {
    /// To the agent, in bytes or in words, as it counts; there where it has the port.
    pub address: Option<Net>,
    /// To the agent, one bit; there where it has the port.
    pub read: Option<Net>,
    /// To the part above, one bit.
    pub waitrequest: Net,
    /// To the part above.
    pub answer: AnswerNets,
    /// The host whose read is answered.
    pub answer_tag: Net,
    /// The registers that bound its reads.
    pub reads: HeldReads,
    /// What tells that it is busy.
    pub wait: HeldWait,
}
