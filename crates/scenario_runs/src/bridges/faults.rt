//! Why transactions were not done.

ghost use Rattle.std.specs.Prelude.{◌≡◌};

use av_base::NoMemory;
use packet_bytes::PacketFault;
use system_plan::Refusal;
use thiserror::Error;

/// Why transactions were not done, or want of memory.
#[derive(Clone, Copy, Debug, PartialEq, Eq, Error)]
pub enum BridgeFault {
    /// A rule or a limit refuses the files of the system.
    #[error("the files of the system are refused")]
    SystemRefused { refusal: Refusal },
    /// The byte of the first fault of the packets and its rule, 1 to 7; or rule 8 at byte 0, where no host 0 can do transactions.
    #[error("byte {byte} breaks rule {rule} of packets")]
    PacketRefused { byte: u64, rule: u8 },
    /// Cycles times the weight of the plan are more than 2^32: so many.
    #[error("{count} values of nets are too many")]
    TooManyValues { count: u64 },
    #[error("out of memory")]
    NoMemory,
}

impl From<NoMemory> for BridgeFault {
    ghost use Rattle.scenario_runs.specs.declared.bridges.faults.BridgeFault.TheVariants.{NoMemory as OutOfMemory};

    ghost from_gives = { λ e fault. fault ≡ OutOfMemory };

    fn from(_e: NoMemory) -> BridgeFault {
        BridgeFault::NoMemory
    }
}

impl From<Refusal> for BridgeFault {
    ghost use Rattle.scenario_runs.specs.Refused.{fault_of_system};

    ghost from_gives = { λ refusal fault. fault ≡ fault_of_system refusal };

    fn from(refusal: Refusal) -> BridgeFault {
        match refusal {
            Refusal::NoMemory => BridgeFault::NoMemory,
            _ => BridgeFault::SystemRefused { refusal },
        }
    }
}

impl From<PacketFault> for BridgeFault {
    ghost use Rattle.scenario_runs.specs.Refused.{fault_of_packets};

    ghost from_gives = { λ packets fault. fault ≡ fault_of_packets packets };

    fn from(fault: PacketFault) -> BridgeFault {
        match fault {
            PacketFault::Refused { byte, rule } => BridgeFault::PacketRefused { byte, rule },
            PacketFault::NoMemory => BridgeFault::NoMemory,
        }
    }
}
