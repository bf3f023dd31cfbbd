/// The command signals in a cycle, at a host or at an agent. Absent byte enables are all ones, an absent burst count is 1.
#[derive(Clone, Copy, PartialEq, Eq)]
pub struct CommandLevels {
    pub read: bool,
    pub write: bool,
    /// As the port counts it: in bytes or in words.
    pub address: u32,
    pub word: u128,
    pub enables: u16,
    /// The beats of the burst.
    pub count: u16,
}
