use av_base::NoMemory;
use thiserror::Error;

/// Why no maps were made.
#[derive(Clone, Copy, Debug, PartialEq, Eq, Error)]
pub enum MapFault {
    /// The connection of this number breaks the rule of this number, 1 to 3: its base isn't a multiple of its footprint,
    /// its footprint overlaps that of another connection of its host, or ends past the host's range.
    #[error("a rule refuses the map")]
    Refused {
        connection: u32,
        rule: u8,
        other: Option<u32>,
    },
    #[error("no memory")]
    NoMemory,
}

impl From<NoMemory> for MapFault {
    ghost use Rattle.std.specs.Prelude.{◌≡◌};
    ghost use Rattle.address_map.specs.declared.faults.MapFault.TheVariants.{NoMemory as NoRoom};

    ghost from_gives = { λ _ e. e ≡ NoRoom };

    fn from(_e: NoMemory) -> MapFault {
        MapFault::NoMemory
    }
}
