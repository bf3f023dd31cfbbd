ghost use Rattle.std.specs.Prelude.{◌≡◌};

use av_base::{NoMemory, Place};
use std::alloc::{AllocError, AllocFailed};
use thiserror::Error;

/// A rule of the two kinds of script, by its letter and number.
#[derive(Clone, Copy, Debug, PartialEq, Eq)]
pub enum ScriptRule {
    /// T1 to T7, on words.
    Words(u8),
    /// C1 to C20, on commands.
    Command(u8),
    /// I1 to I14, on the interfaces of a component.
    Interface(u8),
}

/// Why a script was refused.
#[derive(Clone, Copy, Debug, Error)]
pub enum ScriptFault {
    #[error("a rule refuses the script")]
    Refused { place: Place, rule: ScriptRule },
    #[error("no memory")]
    NoMemory,
}

impl From<NoMemory> for ScriptFault {
    ghost use Rattle.script_words.specs.declared.faults.ScriptFault.TheVariants.{NoMemory as NoRoom};

    ghost from_gives = { λ _ e. e ≡ NoRoom };

    fn from(_e: NoMemory) -> ScriptFault {
        ScriptFault::NoMemory
    }
}

impl<T: Drop> From<AllocFailed<T>> for ScriptFault {
    ghost use Rattle.script_words.specs.declared.faults.ScriptFault.TheVariants.{NoMemory as NoRoom};

    ghost from_gives = { λ _ e. e ≡ NoRoom };

    fn from(_e: AllocFailed<T>) -> ScriptFault {
        ScriptFault::NoMemory
    }
}

impl From<AllocError> for ScriptFault {
    ghost use Rattle.script_words.specs.declared.faults.ScriptFault.TheVariants.{NoMemory as NoRoom};

    ghost from_gives = { λ _ e. e ≡ NoRoom };

    fn from(_e: AllocError) -> ScriptFault {
        ScriptFault::NoMemory
    }
}
