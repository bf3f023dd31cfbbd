ghost use Rattle.std.specs.Prelude.{◌≡◌, ◌∷◌, ◌<◌, ◌≤◌, [], length, false, OnOk, OnErr, IsPermutation};
ghost use Rattle.std.specs.List.{AllWithin, list_any};
ghost use Rattle.address_map.specs.Maps.{IsRising, connection_at, meets};

use av_base::NoMemory;
use std::alloc::Global;
use std::marker::Model;

/// The footprint of a connection in the map of its host.
#[derive(Clone, Copy, PartialEq, Eq)]
pub struct MapEntry {
    /// The number of the connection.
    pub connection: u32,
    /// The address of the first byte.
    pub first: u32,
    /// The address of the last byte.
    pub last: u32,
    /// The agent can be read.
    pub reads: bool,
    /// The agent can be written.
    pub writes: bool,
}

/// The map of one host: its entries by rising address.
pub(crate) struct HostMap {
    entries: Vec<MapEntry>,
}

/// By hand, so that what drops one calls this, and isn't followed through its fields.
impl Drop for HostMap {
    fn drop(self) {
        let HostMap { entries: _ } = self;
    }
}

impl Model for HostMap {
    ghost use Rattle.std.specs.Prelude.{List};
    ghost use Rattle.address_map.specs.Maps.{IsRising, MapEntry as Entry};

    ghost Value = { List Entry };

    ghost view = { λ m. m.entries.items };

    ghost invariant = { λ m. IsRising m.entries.items };
}

impl HostMap {
    pub(crate) fn new(alloc: Global) -> HostMap
        ensures { result ≡ [] }
    {
        HostMap {
            entries: Vec::new(alloc),
        }
    }

    pub(crate) fn entries(&self) -> &[MapEntry]
        ensures value { result.now ≡ self.now }
        ensures rising { IsRising self.now }
    {
        self.entries.as_slice()
    }

    /// How many entries begin at the address or before it.
    fn begun(&self, address: u64) -> usize
        ensures few { result ≤ length self.now }
        ensures begun { AllWithin (λ e. e.first ≤ address) self.now 0 result }
        ensures others { AllWithin (λ e. address < e.first) self.now result (length self.now) }
    {
        let entries = self.entries();
        let mut low = 0;
        let mut high = entries.len();
        while low < high {
            let middle = low + (high - low) / 2;
            if u64::from(entries[middle].first) <= address {
                low = middle + 1;
            } else {
                high = middle;
            }
        }
        low
    }

    /// Whether some entry has one of these bytes.
    pub(crate) fn meets(&self, first: u64, last: u64) -> bool
        requires { first ≤ last }
        ensures { result ≡ list_any (meets first last) self.now }
    {
        let next = self.begun(first);
        let entries = self.entries();
        if next > 0 && first <= u64::from(entries[next - 1].last) {
            return true;
        }
        next < entries.len() && u64::from(entries[next].first) <= last
    }

    /// Puts an entry in its place.
    pub(crate) fn put(&mut self, entry: MapEntry) -> Result<(), NoMemory>
        requires filled { entry.first ≤ entry.last }
        requires apart { list_any (meets entry.first entry.last) self.old ≡ false }
        ensures ok { OnOk result (IsPermutation (entry ∷ self.old) self.new) }
        ensures rising { IsRising self.new }
    {
        let place = self.begun(u64::from(entry.first));
        self.entries.insert(place, entry)?;
        Ok(())
    }

    /// The connection whose footprint holds the address.
    pub(crate) fn connection_at(&self, address: u32) -> Option<u32>
        ensures { result ≡ connection_at self.now address }
    {
        let next = self.begun(u64::from(address));
        if next == 0 {
            return None;
        }
        let entry = self.entries()[next - 1];
        (address <= entry.last).then_some(entry.connection)
    }
}
