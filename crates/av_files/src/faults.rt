ghost use Rattle.std.specs.Prelude.{◌≡◌};

use av_base::NoMemory;
use thiserror::Error;

/// Why a file wasn't loaded.
#[derive(Clone, Copy, Debug, PartialEq, Eq, Error)]
pub enum LoadFault {
    #[error("the file can't be read")]
    ReadFault,
    #[error("the file is too long")]
    TooLong,
    #[error("no memory")]
    NoMemory,
}

impl From<NoMemory> for LoadFault {
    ghost use Rattle.av_files.specs.declared.faults.LoadFault.TheVariants.{NoMemory as NoRoom};

    ghost from_gives = { λ _ e. e ≡ NoRoom };

    fn from(_e: NoMemory) -> LoadFault {
        LoadFault::NoMemory
    }
}
