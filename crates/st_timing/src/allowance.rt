//! A buffer behind a source that may go on for some beats after ready fell, as many as its allowance says. It has two places more
//! than that, and shows ready while it holds one beat at most, so that all those beats and that of the cycle have their places;
//! the second place keeps ready high where the sink waits for a cycle. A beat that meets it empty goes through in the same cycle.
//! Its state is a queue of beats in memories, whose count is all that it reads; its hold is so many beats as it has places. Its
//! law is that of `buffer_is_a_stage`.

ghost use Rattle.std.specs.Prelude.{◌≡◌, ◌<◌, ◌≤◌};

use stage_core::stored_queue::StoredKept;

/// A stage from a ready allowance above the ready latency to ready latency 0.
#[derive(Clone, Copy)]
pub struct AllowanceBuffer {
    pub latency: u8,
    pub allowance: u8,
    pub ghost some: { 0 < latency },
    pub ghost larger: { latency < allowance },
    pub ghost few: { allowance ≤ 16 },
}

impl AllowanceBuffer {
    /// A buffer behind a ready latency and a larger ready allowance.
    pub fn new(latency: u8, allowance: u8) -> AllowanceBuffer
        requires some { 0 < latency }
        requires larger { latency < allowance }
        requires few { allowance ≤ 16 }
        ensures latency { result.latency ≡ latency }
        ensures allowance { result.allowance ≡ allowance }
    {
        AllowanceBuffer { latency, allowance }
    }
}

/// What is kept of a buffer.
#[derive(Clone, Copy)]
pub struct AllowanceKept {
    pub buffer: AllowanceBuffer,
    /// The beats.
    pub stored: StoredKept,
}
