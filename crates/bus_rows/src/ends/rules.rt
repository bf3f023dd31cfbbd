//! The rules that the module has to keep at the ports.

use std::alloc::AllocError;

/// A rule that was broken, and where.
#[derive(Clone, Copy)]
pub enum Rule {
    /// A word comes to a host that it hasn't asked for.
    Unasked { host: u32 },
    /// A host is shown a code in a cycle in which no word comes.
    Quiet { host: u32 },
    /// More than 16 reads of a host are unanswered.
    HostBound { host: u32 },
    /// A beat that waits at an agent has other levels in the next cycle.
    Held { agent: u32 },
    /// An agent sees a read and a write at once.
    OneKind { agent: u32 },
    /// The address at an agent isn't that of a whole word.
    Aligned { agent: u32 },
    /// A burst at an agent has no beat, or more than the agent takes.
    Longest { agent: u32 },
    /// An agent sees a read before the last beat of a write.
    Unfinished { agent: u32 },
    /// More reads are unanswered than the agent bears.
    AgentBound { agent: u32 },
}

/// Appends what happened where a rule was broken.
pub fn push_broken(text: &mut String, rule: Rule) -> Result<(), AllocError> {
    match rule {
        Rule::Unasked { host } => write!(text, "a word for host {host} that was not asked for"),
        Rule::Quiet { host } => write!(text, "a code for host {host} without a word"),
        Rule::HostBound { host } => write!(text, "more than 16 reads of host {host} unanswered"),
        Rule::Held { agent } => write!(text, "a beat that waits at agent {agent} changed"),
        Rule::OneKind { agent } => write!(text, "agent {agent} shown a read and a write at once"),
        Rule::Aligned { agent } => write!(text, "agent {agent} shown an address inside a word"),
        Rule::Longest { agent } => write!(text, "agent {agent} shown a burst that it can't take"),
        Rule::Unfinished { agent } => write!(text, "agent {agent} shown a read inside a write"),
        Rule::AgentBound { agent } => write!(text, "more reads than agent {agent} bears"),
    }
}
