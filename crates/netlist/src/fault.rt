use std::alloc::{AllocError, AllocFailed};
use thiserror::Error;

/// Why a builder didn't take a net.
#[derive(Clone, Copy, Debug, Error)]
pub enum NetFault {
    #[error("a module has 2^20 nets at most")]
    TooManyNets,
    #[error("no memory")]
    NoMemory,
}

impl From<AllocError> for NetFault {
    ghost use Rattle.std.specs.Prelude.{◌≡◌};
    ghost use Rattle.netlist.specs.declared.fault.NetFault.TheVariants.{NoMemory};

    ghost from_gives = { λ _ e. e ≡ NoMemory };

    fn from(_e: AllocError) -> NetFault {
        NetFault::NoMemory
    }
}

impl<T: Drop> From<AllocFailed<T>> for NetFault {
    ghost use Rattle.std.specs.Prelude.{◌≡◌};
    ghost use Rattle.netlist.specs.declared.fault.NetFault.TheVariants.{NoMemory};

    ghost from_gives = { λ _ e. e ≡ NoMemory };

    fn from(_e: AllocFailed<T>) -> NetFault {
        NetFault::NoMemory
    }
}
