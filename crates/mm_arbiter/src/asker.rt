//! Who takes turns.

/// A host that is joined to the agent.
#[derive(Clone, Copy)]
pub struct Asker {
    /// The number of the host, which is the tag of its commands.
    pub host: u8,
    /// How many commands in a row may begin while others ask.
    pub shares: u8,
}
