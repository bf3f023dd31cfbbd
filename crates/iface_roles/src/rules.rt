ghost use Rattle.std.specs.Prelude.{◌≡◌, ◌<◌, ◌≤◌, ℕ, false, IsTrue, MatchOption};
ghost use Rattle.iface_roles.specs.Rules.{
  without,
  unpaired,
  word_bits,
  word_bytes,
  symbols_of,
  counts_bytes,
  is_word,
  is_beat,
  allows,
  may_go,
  can_count,
  lacks_ports,
  has_read_alone,
  has_write_alone,
  has_two_words,
  has_odd_data,
  has_odd_lanes,
  is_odd,
  has_odd_width,
  is_turned,
  has_turned_port,
  lacks_handshake,
  reaches_too_far,
  has_half_packet,
  has_odd_empty,
  has_odd_channel,
  has_other_value,
  asks_for_more,
  breaks,
  KeepsRules,
  IsLeastBroken,
};

use crate::interface::Interface;
use crate::kinds::{Kind, PortDirection, Side};
use crate::properties::PropertyId;
use crate::roles::{Driver, Role, Widths};

fn is_word(bits: u32) -> bool
    ensures { result ≡ is_word bits }
{
    matches!(bits, 8 | 16 | 32 | 64 | 128)
}

/// Whether an `empty` of so many bits counts the symbols of a beat.
fn can_count(symbols: u32, bits: u32) -> bool
    ensures { result ≡ can_count symbols bits }
{
    bits <= 8 && symbols <= 2u32.pow(bits)
}

impl Widths {
    /// Whether a port may have so many bits, where that depends on nothing else.
    fn allows(self, bits: u32) -> bool
        ensures { result ≡ allows self bits }
    {
        match self {
            Widths::Between(low, high) => low <= bits && bits <= high,
            _ => true,
        }
    }
}

impl Driver {
    fn may_go(self, side: Side, direction: PortDirection) -> bool
        ensures { result ≡ may_go self side direction }
    {
        match (self, side) {
            (Driver::ByEither, _) => true,
            (Driver::ByStart, Side::Start) | (Driver::ByEnd, Side::End) => matches!(
                direction,
                PortDirection::Output
            ),
            (Driver::ByStart, Side::End) | (Driver::ByEnd, Side::Start) => matches!(
                direction,
                PortDirection::Input
            ),
        }
    }
}

impl Interface {
    ghost use Rattle.iface_roles.specs.Held.{setting_of};

    fn has_without(&self, a: Role, b: Role) -> bool
        ensures { result ≡ without self.now a b }
    {
        self.has(a) && !self.has(b)
    }

    fn has_unpaired(&self, a: Role, b: Role) -> bool
        ensures { result ≡ unpaired self.now a b }
    {
        self.has_without(a, b) || self.has_without(b, a)
    }

    pub(crate) fn word_bits(&self) -> u32
        ensures { result ≡ word_bits self.now }
    {
        if self.has(Role::ReadData) {
            self.width(Role::ReadData)
        } else {
            self.width(Role::WriteData)
        }
    }

    pub(crate) fn word_bytes(&self) -> u32
        ensures { result ≡ word_bytes self.now }
    {
        self.word_bits() / 8
    }

    pub(crate) fn counts_bytes(&self) -> bool
        ensures { result ≡ counts_bytes self.now }
    {
        self.setting(PropertyId::AddressUnits) == 1
    }

    /// A host needs an address, a memory-mapped interface a kind of transfer, a stream its beats.
    fn lacks_ports(&self) -> bool
        ensures { result ≡ lacks_ports self.now }
    {
        let transfers = self.has(Role::Read) || self.has(Role::Write);
        match (self.kind(), self.side()) {
            (Kind::Mm, Side::Start) => !self.has(Role::Address) || !transfers,
            (Kind::Mm, Side::End) => !transfers,
            (Kind::Stream, _) => !self.has(Role::Data) || !self.has(Role::Valid),
            _ => false,
        }
    }

    fn has_two_words(&self) -> bool
        ensures { result ≡ has_two_words self.now }
    {
        self.has(Role::ReadData)
            && self.has(Role::WriteData)
            && self.width(Role::ReadData) != self.width(Role::WriteData)
    }

    fn has_odd_lanes(&self) -> bool
        ensures { result ≡ has_odd_lanes self.now }
    {
        self.has(Role::ByteEnable) && self.width(Role::ByteEnable) != self.word_bytes()
    }

    fn is_odd(&self, role: Role) -> bool
        ensures { result ≡ is_odd self.now role }
    {
        self.has(role) && !role.row().widths.allows(self.width(role))
    }

    fn has_odd_width(&self) -> bool
        ensures { result ≡ has_odd_width self.now }
    {
        Role::ALL.iter().any(|role| self.is_odd(*role))
    }

    fn is_turned(&self, role: Role) -> bool
        ensures { result ≡ is_turned self.now role }
    {
        self.port(role).is_some_and(|port| !role.row().driver.may_go(self.side(), port.direction))
    }

    fn has_turned_port(&self) -> bool
        ensures { result ≡ has_turned_port self.now }
    {
        Role::ALL.iter().any(|role| self.is_turned(*role))
    }

    /// Valid words answer reads, and bursts need a host that can wait and answers that are marked.
    fn lacks_handshake(&self) -> bool
        ensures { result ≡ lacks_handshake self.now }
    {
        self.has_without(Role::ReadDataValid, Role::Read)
            || self.has_without(Role::BurstCount, Role::WaitRequest)
            || self.has(Role::BurstCount) && self.has_without(Role::Read, Role::ReadDataValid)
    }

    pub(crate) fn symbol_bits(&self) -> u32
        ensures value { result ≡ setting_of self.now PropertyId.DataBitsPerSymbol }
        ensures some { 1 ≤ result }
        ensures few { result ≤ 512 }
    {
        self.setting(PropertyId::DataBitsPerSymbol)
    }

    /// The symbols of a beat: as they are set, else as many as the data has room for.
    pub(crate) fn symbols(&self) -> u32
        ensures { result ≡ symbols_of self.now }
    {
        let room = self.width(Role::Data) / self.symbol_bits();
        self.set_to(PropertyId::SymbolsPerBeat).unwrap_or(room)
    }

    fn is_beat(&self) -> bool
        ensures { result ≡ is_beat self.now }
    {
        let symbols = self.symbols();
        1 <= symbols && symbols <= 32 && self.width(Role::Data) == symbols * self.symbol_bits()
    }

    fn has_odd_data(&self) -> bool
        ensures { result ≡ has_odd_data self.now }
    {
        self.has(Role::ReadData) && !is_word(self.width(Role::ReadData))
            || self.has(Role::WriteData) && !is_word(self.width(Role::WriteData))
            || self.has(Role::Data) && !self.is_beat()
    }

    /// Addresses reach more than 2^32 bytes.
    fn reaches_too_far(&self) -> bool
        ensures { result ≡ reaches_too_far self.now }
    {
        let bits = self.width(Role::Address);
        let word = u64::from(self.word_bytes());
        if bits > 32 {
            return self.counts_bytes() || word > 0;
        }
        let addresses = 2u64.pow(bits);
        let reach = match (self.counts_bytes(), self.side()) {
            (false, _) => addresses * word,
            (true, Side::Start) => addresses,
            (true, Side::End) => addresses.max(word),
        };
        reach > 1 << 32
    }

    /// `empty` needs packets and enough bits, and packets of several symbols per beat need `empty`.
    fn has_odd_empty(&self) -> bool
        ensures { result ≡ has_odd_empty self.now }
    {
        self.has_without(Role::Empty, Role::StartOfPacket)
            || self.has(Role::Empty) && !can_count(self.symbols(), self.width(Role::Empty))
            || self.has_without(Role::StartOfPacket, Role::Empty) && self.symbols() > 1
    }

    /// The greatest channel needs a `channel` that can carry it.
    fn has_odd_channel(&self) -> bool
        ensures { result ≡ has_odd_channel self.now }
    {
        let greatest = self.setting(PropertyId::MaxChannel);
        if !self.has(Role::Channel) {
            return greatest > 0;
        }
        let bits = self.width(Role::Channel);
        bits < 32 && 2u32.pow(bits) <= greatest
    }

    /// Properties of which one value alone is built.
    const ONLY_VALUES: [(PropertyId, u32); 9] = [
        (PropertyId::BitsPerSymbol, 8),
        (PropertyId::BurstCountUnits, 0),
        (PropertyId::TimingUnits, 0),
        (PropertyId::AddressAlignment, 0),
        (PropertyId::IsBigEndian, 0),
        (PropertyId::ExplicitAddressSpan, 0),
        (PropertyId::BeatsPerCycle, 1),
        (PropertyId::EmptyWithinPacket, 0),
        (PropertyId::Enabled, 1),
    ];

    fn has_other_value(&self) -> bool
        ensures { result ≡ has_other_value self.now }
    {
        Self::ONLY_VALUES
            .iter()
            .any(|(id, only)| self.setting(*id) != *only)
    }

    fn asks_for_more(&self) -> bool
        ensures { result ≡ asks_for_more self.now }
    {
        self.has_other_value()
            || matches!((self.kind(), self.side()), (Kind::Mm, Side::Start))
                && self.setting(PropertyId::ReadLatency) > 0
    }

    /// Whether the rule of this number fails.
    fn breaks(&self, rule: u8) -> bool
        requires some { 1 ≤ rule }
        requires last { rule ≤ 14 }
        ensures { result ≡ breaks self.now rule }
    {
        self.kind().is_avalon()
            && match rule {
                1 => self.lacks_ports(),
                2 => self.has_unpaired(Role::Read, Role::ReadData),
                3 => self.has_unpaired(Role::Write, Role::WriteData),
                4 => self.has_two_words(),
                5 => self.has_odd_data(),
                6 => self.has_odd_lanes(),
                7 => self.has_odd_width(),
                8 => self.has_turned_port(),
                9 => self.lacks_handshake(),
                10 => self.reaches_too_far(),
                11 => self.has_unpaired(Role::StartOfPacket, Role::EndOfPacket),
                12 => self.has_odd_empty(),
                13 => self.has_odd_channel(),
                _ => self.asks_for_more(),
            }
    }

    /// The least rule that fails.
    pub(crate) fn first_broken(&self) -> Option<u8>
        ensures { MatchOption result (KeepsRules self.now) (IsLeastBroken self.now) }
    {
        for rule in 1..15 {
            if self.breaks(rule) {
                return Some(rule);
            }
        }
        None
    }
}
