//! The nets of a beat.

ghost use Rattle.std.specs.Prelude.{◌≡◌};
ghost use Rattle.net_parts.specs.PlaceRows.{nets_of};
ghost use Rattle.stage_core.specs.Beats.{group_of};
ghost use Rattle.stage_core.specs.BeatPlaces.{place_nets};

use net_parts::PlaceNets;
use netlist::Net;

/// The nets of an end of a stream, beside `ready`. One that the end has no port for is a net that is always 0.
#[derive(Clone, Copy)]
pub struct BeatNets {
    /// One bit.
    pub valid: Net,
    pub word: Net,
    pub channel: Net,
    pub error: Net,
    /// `startofpacket`, one bit.
    pub first: Net,
    /// `endofpacket`, one bit.
    pub last: Net,
    pub empty: Net,
}

impl BeatNets {
    /// The same nets.
    pub fn copied(&self) -> BeatNets
        ensures { result ≡ self.now }
    {
        BeatNets {
            valid: self.valid,
            word: self.word,
            channel: self.channel,
            error: self.error,
            first: self.first,
            last: self.last,
            empty: self.empty,
        }
    }

    /// The nets as those of a place, which is full where `valid` is high.
    pub fn place(&self) -> PlaceNets<6>
        ensures { result ≡ place_nets self.now }
    {
        PlaceNets {
            full: self.valid,
            item: [
                self.word,
                self.channel,
                self.error,
                self.first,
                self.last,
                self.empty,
            ],
        }
    }

    /// The beat on the nets of a place.
    pub fn of_place(place: PlaceNets<6>) -> BeatNets
        ensures { group_of result ≡ nets_of place }
    {
        let [word, channel, error, first, last, empty] = place.item;
        BeatNets {
            valid: place.full,
            word,
            channel,
            error,
            first,
            last,
            empty,
        }
    }
}
