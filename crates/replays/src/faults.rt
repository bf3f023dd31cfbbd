//! Why waves were not replayed.

ghost use Rattle.std.specs.Prelude.{◌≡◌};

use av_base::NoMemory;
use thiserror::Error;
use verilog_reader::TextFault;
use waves::{WavesFault, WavesRule};

/// Why waves were not replayed, or want of memory.
#[derive(Clone, Copy, Debug, PartialEq, Eq, Error)]
pub enum ReplayFault {
    /// The first byte of the text that breaks a rule, counted from 0, and the number of the least rule.
    #[error("the text breaks rule {rule} at byte {byte}")]
    TextRefused { byte: u64, rule: u8 },
    /// The text has more than 2^20 nets.
    #[error("the text has too many nets")]
    TooManyNets,
    /// The first line of the waves with a fault, counted from 1, and its least rule.
    #[error("line {line} of the waves breaks a rule")]
    WavesRefused { line: u32, rule: WavesRule },
    /// The nets have more than 2^32 values in all cycles together: so many.
    #[error("{count} values of nets are too many")]
    TooManyValues { count: u64 },
    #[error("out of memory")]
    NoMemory,
}

impl From<NoMemory> for ReplayFault {
    ghost use Rattle.replays.specs.declared.faults.ReplayFault.TheVariants.{NoMemory as OutOfMemory};

    ghost from_gives = { λ e fault. fault ≡ OutOfMemory };

    fn from(_e: NoMemory) -> ReplayFault {
        ReplayFault::NoMemory
    }
}

impl From<WavesFault> for ReplayFault {
    ghost use Rattle.replays.specs.Replays.{fault_of};

    ghost from_gives = { λ waves fault. fault ≡ fault_of waves };

    fn from(fault: WavesFault) -> ReplayFault {
        match fault {
            WavesFault::Refused { line, rule } => ReplayFault::WavesRefused { line, rule },
            WavesFault::NoMemory => ReplayFault::NoMemory,
        }
    }
}

impl From<TextFault> for ReplayFault {
    ghost use Rattle.replays.specs.Texts.{fault_of_text};

    ghost from_gives = { λ text fault. fault ≡ fault_of_text text };

    fn from(fault: TextFault) -> ReplayFault {
        match fault {
            TextFault::Refused { byte, rule } => ReplayFault::TextRefused { byte, rule },
            TextFault::TooManyNets => ReplayFault::TooManyNets,
            TextFault::NoMemory => ReplayFault::NoMemory,
        }
    }
}
