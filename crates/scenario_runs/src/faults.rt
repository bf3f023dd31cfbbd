//! Why a scenario was not simulated.

ghost use Rattle.std.specs.Prelude.{◌≡◌};

use av_base::NoMemory;
use scenarios::{ScenarioFault, ScenarioRule};
use system_plan::Refusal;
use thiserror::Error;

/// Why a scenario was not simulated, or want of memory.
#[derive(Clone, Copy, Debug, PartialEq, Eq, Error)]
pub enum SimulateFault {
    /// A rule or a limit refuses the files of the system.
    #[error("the files of the system are refused")]
    SystemRefused { refusal: Refusal },
    /// The first line of the scenario with a fault, counted from 1, and its least rule.
    #[error("line {line} of the scenario breaks a rule")]
    ScenarioRefused { line: u32, rule: ScenarioRule },
    /// Cycles times the weight of the plan are more than 2^32: so many.
    #[error("{count} values of nets are too many")]
    TooManyValues { count: u64 },
    #[error("out of memory")]
    NoMemory,
}

impl From<NoMemory> for SimulateFault {
    ghost use Rattle.scenario_runs.specs.declared.faults.SimulateFault.TheVariants.{NoMemory as OutOfMemory};

    ghost from_gives = { λ e fault. fault ≡ OutOfMemory };

    fn from(_e: NoMemory) -> SimulateFault {
        SimulateFault::NoMemory
    }
}

impl From<Refusal> for SimulateFault {
    ghost use Rattle.scenario_runs.specs.Simulations.{fault_of_system};

    ghost from_gives = { λ refusal fault. fault ≡ fault_of_system refusal };

    fn from(refusal: Refusal) -> SimulateFault {
        match refusal {
            Refusal::NoMemory => SimulateFault::NoMemory,
            _ => SimulateFault::SystemRefused { refusal },
        }
    }
}

impl From<ScenarioFault> for SimulateFault {
    ghost use Rattle.scenario_runs.specs.Simulations.{fault_of_scenario};

    ghost from_gives = { λ scenario fault. fault ≡ fault_of_scenario scenario };

    fn from(fault: ScenarioFault) -> SimulateFault {
        match fault {
            ScenarioFault::Refused { line, rule } => SimulateFault::ScenarioRefused { line, rule },
            ScenarioFault::NoMemory => SimulateFault::NoMemory,
        }
    }
}
