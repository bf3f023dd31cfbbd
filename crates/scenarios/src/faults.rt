//! Why a scenario was not read.

ghost use Rattle.std.specs.Prelude.{◌≡◌, true, false, OnOk, IfErr};
ghost use Rattle.scenarios.specs.Rules.{number_of};

use av_base::NoMemory;
use thiserror::Error;

/// What a line of a scenario breaks.
#[derive(Clone, Copy, Debug, PartialEq, Eq)]
pub enum ScenarioRule {
    /// N1: a byte that isn't printable ASCII, two blanks together, or one at either end.
    Characters,
    /// N2: an unknown statement.
    Statements,
    /// N3: a wrong number of words.
    Words,
    /// N4: an interface that isn't there, or that the statement doesn't fit.
    Interfaces,
    /// N5: a number, flags or a pattern that isn't spelled as its statement asks.
    Spelling,
    /// N6: a value wider than its port or outside its range.
    Ranges,
    /// N7: a first statement other than `cycles`, a second `cycles`, or none.
    Beginning,
    /// N8: a transfer that its host has no role for, or of a wrong number of beats.
    Transfers,
    /// N9: a beat that doesn't fit the packets of its source.
    Packets,
    /// N10: a statement too many of its interface.
    Limits,
}

impl ScenarioRule {
    /// The number of the rule, 1 to 10.
    pub fn number(self) -> u8
        ensures { result ≡ number_of self }
    {
        match self {
            ScenarioRule::Characters => 1,
            ScenarioRule::Statements => 2,
            ScenarioRule::Words => 3,
            ScenarioRule::Interfaces => 4,
            ScenarioRule::Spelling => 5,
            ScenarioRule::Ranges => 6,
            ScenarioRule::Beginning => 7,
            ScenarioRule::Transfers => 8,
            ScenarioRule::Packets => 9,
            ScenarioRule::Limits => 10,
        }
    }
}

/// The rule, where it is broken.
pub(crate) fn refuse_if(broken: bool, rule: ScenarioRule) -> Result<(), ScenarioRule>
    ensures ok { OnOk result (broken ≡ false) }
    ensures err { IfErr result (λ least. (broken ≡ true) × (least ≡ rule)) }
{
    if broken { Err(rule) } else { Ok(()) }
}

/// Why a scenario was not read: the first line with a fault, counted from 1, and its least rule, or want of memory.
#[derive(Clone, Copy, Debug, PartialEq, Eq, Error)]
pub enum ScenarioFault {
    #[error("line {line} of the scenario breaks a rule")]
    Refused { line: u32, rule: ScenarioRule },
    #[error("out of memory")]
    NoMemory,
}

impl From<NoMemory> for ScenarioFault {
    ghost use Rattle.scenarios.specs.declared.faults.ScenarioFault.TheVariants.{NoMemory as OutOfMemory};

    ghost from_gives = { λ e fault. fault ≡ OutOfMemory };

    fn from(_e: NoMemory) -> ScenarioFault {
        ScenarioFault::NoMemory
    }
}

/// Why a line was not read.
#[derive(Clone, Copy, Debug, PartialEq, Eq)]
pub(crate) enum LineFault {
    Broken { rule: ScenarioRule },
    NoMemory,
}

impl From<NoMemory> for LineFault {
    ghost use Rattle.scenarios.specs.declared.faults.LineFault.TheVariants.{NoMemory as OutOfMemory};

    ghost from_gives = { λ e fault. fault ≡ OutOfMemory };

    fn from(_e: NoMemory) -> LineFault {
        LineFault::NoMemory
    }
}

impl From<ScenarioRule> for LineFault {
    ghost use Rattle.scenarios.specs.declared.faults.LineFault.TheVariants.{Broken};

    ghost from_gives = { λ rule fault. fault ≡ Broken rule };

    fn from(rule: ScenarioRule) -> LineFault {
        LineFault::Broken { rule }
    }
}
