//! Why waves were not read.

ghost use Rattle.std.specs.Prelude.{◌≡◌};
ghost use Rattle.waves.specs.Rules.{number_of};

use av_base::NoMemory;
use thiserror::Error;

/// What a line of a waves file breaks.
#[derive(Clone, Copy, Debug, PartialEq, Eq)]
pub enum WavesRule {
    /// X1: the first line is wrong, a line is one too many, or one is missing.
    Lines,
    /// X2: a wrong number of values.
    Values,
    /// X3: a value that isn't spelled as its port's width asks, or doesn't fit it.
    Spelling,
}

impl WavesRule {
    /// The number of the rule.
    pub fn number(self) -> u8
        ensures { result ≡ number_of self }
    {
        match self {
            WavesRule::Lines => 1,
            WavesRule::Values => 2,
            WavesRule::Spelling => 3,
        }
    }
}

/// Why waves were not read: the first line with a fault, counted from 1, and its least rule, or want of memory.
#[derive(Clone, Copy, Debug, PartialEq, Eq, Error)]
pub enum WavesFault {
    #[error("line {line} of the waves breaks a rule")]
    Refused { line: u32, rule: WavesRule },
    #[error("out of memory")]
    NoMemory,
}

impl From<NoMemory> for WavesFault {
    ghost use Rattle.waves.specs.declared.faults.WavesFault.TheVariants.{NoMemory as OutOfMemory};

    ghost from_gives = { λ e fault. fault ≡ OutOfMemory };

    fn from(_e: NoMemory) -> WavesFault {
        WavesFault::NoMemory
    }
}
