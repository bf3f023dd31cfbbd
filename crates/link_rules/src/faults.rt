use av_base::NoMemory;
use thiserror::Error;

/// A rule on connections, by its letter and number.
#[derive(Clone, Copy, Debug, PartialEq, Eq)]
pub enum LinkRule {
    /// A1 to A3, on maps.
    Map(u8),
    /// P1 to P9, on a host and an agent.
    Mm(u8),
    /// S1 to S9, on a source and a sink.
    Stream(u8),
}

/// Why there is no plan.
#[derive(Clone, Copy, Debug, PartialEq, Eq, Error)]
pub enum PlanFault {
    /// The ends of the connection of this number break the rule.
    #[error("a rule refuses the connection")]
    Refused { connection: u32, rule: LinkRule },
    /// Of hosts (1, at most 16), agents (2, at most 32) or streams (3, at most 16) there are so many.
    #[error("the system is too large")]
    Limit { which: u8, count: u64 },
    #[error("no memory")]
    NoMemory,
}

impl From<NoMemory> for PlanFault {
    ghost use Rattle.std.specs.Prelude.{◌≡◌};
    ghost use Rattle.link_rules.specs.declared.faults.PlanFault.TheVariants.{NoMemory as NoRoom};

    ghost from_gives = { λ _ e. e ≡ NoRoom };

    fn from(_e: NoMemory) -> PlanFault {
        PlanFault::NoMemory
    }
}
