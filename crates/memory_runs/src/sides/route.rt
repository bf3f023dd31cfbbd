/// The bytes of a host's map that lead to one agent.
#[derive(Clone, Copy, PartialEq, Eq)]
pub struct Route {
    /// The number of the agent.
    pub agent: u8,
    /// The address of the first byte, a multiple of the bytes.
    pub base: u32,
    /// There are 2 to this many bytes.
    pub bits: u8,
    /// The agent can be read.
    pub reads: bool,
    /// The agent can be written.
    pub writes: bool,
}
