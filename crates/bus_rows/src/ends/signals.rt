//! What stands at the ports of a host or an agent in a cycle.

/// The levels of a command.
#[derive(Clone, Copy, PartialEq)]
pub struct Command {
    pub read: bool,
    pub write: bool,
    pub address: u128,
    pub word: u128,
    pub lanes: u128,
    /// The beats of a burst, 1 where there is no `burstcount`.
    pub count: u128,
}

/// The levels of an answer.
#[derive(Clone, Copy)]
pub struct Answer {
    pub wait: bool,
    pub valid: bool,
    pub word: u128,
    /// The word's code, 0 where there is no `response`.
    pub code: u128,
}

/// A beat that an agent accepts, with its own address.
#[derive(Clone, Copy)]
pub struct Beat {
    pub command: Command,
    /// Whether its command begins with it.
    pub begins: bool,
}

impl Command {
    /// Whether a read or a write is shown.
    pub fn is_shown(&self) -> bool {
        self.read || self.write
    }
}
