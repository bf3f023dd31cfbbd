//! Why a dump was not read.

ghost use Rattle.std.specs.Prelude.{◌≡◌};

use crate::rule::Rule;
use av_base::NoMemory;
use thiserror::Error;

/// Why a dump was not read.
#[derive(Clone, Copy, Debug, PartialEq, Eq, Error)]
pub enum DumpFault {
    /// The first fault: where it stands, in bytes from 0, and its least rule.
    #[error("the dump breaks a rule at byte {byte}")]
    Refused { byte: u64, rule: Rule },
    #[error("out of memory")]
    NoMemory,
}

/// What stops a reader.
#[derive(Clone, Copy)]
pub(crate) enum Stop {
    Broken(Rule),
    NoMemory,
}

impl From<Rule> for Stop {
    ghost use Rattle.std.specs.Prelude.{◌≡◌};
    ghost use Rattle.vcd_reader.specs.declared.faults.Stop.TheVariants.{Broken};

    ghost from_gives = { λ rule stop. stop ≡ Broken rule };

    fn from(rule: Rule) -> Stop {
        Stop::Broken(rule)
    }
}

impl From<NoMemory> for Stop {
    ghost use Rattle.std.specs.Prelude.{◌≡◌};
    ghost use Rattle.vcd_reader.specs.declared.faults.Stop.TheVariants.{NoMemory as NoRoom};

    ghost from_gives = { λ _ stop. stop ≡ NoRoom };

    fn from(_e: NoMemory) -> Stop {
        Stop::NoMemory
    }
}
