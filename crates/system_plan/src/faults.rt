ghost use Rattle.std.specs.Prelude.{◌≡◌};
ghost use Rattle.system_plan.specs.Faults.{of_words, of_script, of_maps, of_plan};

use address_map::MapFault;
use av_base::Place;
use link_rules::{LinkRule, PlanFault};
use script_words::{ScriptFault, ScriptRule};
use tcl_words::WordsFault;
use thiserror::Error;

/// What refuses the files of a system.
#[derive(Clone, Copy, Debug, PartialEq, Eq, Error)]
pub enum Refusal {
    /// A rule on scripts, at a place of a file.
    #[error("a rule refuses a script")]
    Script {
        place: Place,
        rule: ScriptRule,
    },
    /// A rule on connections, at the connection of this number; at A2 also the connection whose footprint it overlaps.
    #[error("a rule refuses a connection")]
    Link {
        connection: u32,
        rule: LinkRule,
        other: Option<u32>,
    },
    /// Of hosts (1, at most 16), agents (2, at most 32) or streams (3, at most 16) there are so many.
    #[error("the system is too large")]
    Limit {
        which: u8,
        count: u64,
    },
    #[error("no memory")]
    NoMemory,
}

impl From<WordsFault> for Refusal {
    ghost from_gives = { λ fault refusal. refusal ≡ of_words fault };

    fn from(fault: WordsFault) -> Refusal {
        match fault {
            WordsFault::Refused { place, rule } => Refusal::Script {
                place,
                rule: ScriptRule::Words(rule.number()),
            },
            WordsFault::NoMemory => Refusal::NoMemory,
        }
    }
}

impl From<ScriptFault> for Refusal {
    ghost from_gives = { λ fault refusal. refusal ≡ of_script fault };

    fn from(fault: ScriptFault) -> Refusal {
        match fault {
            ScriptFault::Refused { place, rule } => Refusal::Script { place, rule },
            ScriptFault::NoMemory => Refusal::NoMemory,
        }
    }
}

impl From<MapFault> for Refusal {
    ghost from_gives = { λ fault refusal. refusal ≡ of_maps fault };

    fn from(fault: MapFault) -> Refusal {
        match fault {
            MapFault::Refused {
                connection,
                rule,
                other,
            } => Refusal::Link {
                connection,
                rule: LinkRule::Map(rule),
                other,
            },
            MapFault::NoMemory => Refusal::NoMemory,
        }
    }
}

impl From<PlanFault> for Refusal {
    ghost from_gives = { λ fault refusal. refusal ≡ of_plan fault };

    fn from(fault: PlanFault) -> Refusal {
        match fault {
            PlanFault::Refused { connection, rule } => Refusal::Link {
                connection,
                rule,
                other: None,
            },
            PlanFault::Limit { which, count } => Refusal::Limit { which, count },
            PlanFault::NoMemory => Refusal::NoMemory,
        }
    }
}
