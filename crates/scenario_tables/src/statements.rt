use av_base::{Bytes, List};

/// What a host does.
#[derive(Drop)]
pub enum HostStatement {
    /// It presents nothing for so many cycles, 1 to 65,536.
    Idle {
        cycles: u32,
    },
    /// It writes a beat for each word, from a byte address on. The byte enables hold for all.
    Write {
        address: u32,
        enables: u16,
        words: List<u128>,
    },
    /// It reads so many words by one command.
    Read {
        address: u32,
        enables: u16,
        count: u16,
    },
}

/// In which cycles an end stalls, over and over.
#[derive(Drop)]
pub struct Pattern {
    pub stalls: List<bool>,
}

/// What is set of an agent.
#[derive(Drop)]
pub enum AgentStatement {
    /// It raises `waitrequest` by a pattern.
    Stall { pattern: Pattern },
    /// A word comes so many cycles after its read was taken, 1 to 255.
    Latency { cycles: u8 },
    /// Its bytes from an offset on are these at first.
    Fill { offset: u32, bytes: Bytes },
    /// Words that hold the byte at an offset are answered with this code, 0 to 3.
    Code { offset: u32, code: u8 },
}

/// A beat of a source: what stands on its ports beside `valid`.
#[derive(Clone, Copy, PartialEq, Eq)]
pub struct SourceBeat {
    pub word: u128,
    pub channel: u16,
    pub error: u32,
    pub first: bool,
    pub last: bool,
    pub empty: u8,
}

/// What a source does.
#[derive(Clone, Copy)]
pub enum SourceStatement {
    /// It sends a beat.
    Beat { beat: SourceBeat },
    /// Its `valid` is low for so many cycles, 1 to 65,536.
    Gap { cycles: u32 },
}
