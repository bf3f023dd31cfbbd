ghost use Rattle.std.specs.Prelude.{◌≡◌, ◌<◌, ◌≤◌, IfOk, IfErr};
ghost use Rattle.iface_roles.specs.Held.{has, width_of, setting_of};
ghost use Rattle.iface_roles.specs.Properties.{property_row, greatest_of};
ghost use Rattle.iface_roles.specs.Proper.{
  IsProper,
  IsBoundedHost,
  IsBoundedAgent,
  IsBoundedStream,
};
ghost use Rattle.iface_roles.specs.Records.{
  is_true,
  host_of,
  agent_of,
  has_unsupported,
  has_setup_or_hold,
  stream_of,
  ready_latency,
  allowance_of,
  finished,
  FitsMm,
  FitsStream,
};
ghost use Rattle.iface_roles.specs.Rules.{symbols_of, KeepsRules, IsLeastBroken};

use crate::interface::Interface;
use crate::kinds::{Kind, Side};
use crate::properties::PropertyId;
use crate::roles::Role;

/// A memory-mapped host. Widths are in bits, 0 where the port isn't there.
#[derive(Clone, Copy, PartialEq, Eq)]
pub struct HostPort {
    pub address_bits: u8,
    /// Addresses count bytes; else words.
    pub byte_units: bool,
    pub word_bytes: u8,
    pub reads: bool,
    pub writes: bool,
    /// It has byte enables.
    pub enables: bool,
    /// The width of `burstcount`: the longest burst has 2 to this less one beats.
    pub burst_bits: u8,
    /// It has `readdatavalid`.
    pub readdatavalid: bool,
    /// It has `waitrequest`.
    pub waitrequest: bool,
    /// It has `response`.
    pub response: bool,
    /// It has `lock`, which no connection takes.
    pub lock: bool,
    /// It has `writeresponsevalid`.
    pub write_response: bool,
    /// `waitrequestAllowance`.
    pub allowance: u32,
    /// `linewrapBursts`.
    pub wraps: bool,
}

/// A memory-mapped agent. Widths are in bits, 0 where the port isn't there; times are in cycles.
#[derive(Clone, Copy, PartialEq, Eq)]
pub struct AgentPort {
    pub address_bits: u8,
    /// Addresses count bytes; else words.
    pub byte_units: bool,
    pub word_bytes: u8,
    pub reads: bool,
    pub writes: bool,
    /// It has byte enables.
    pub enables: bool,
    /// The width of `burstcount`: the longest burst has 2 to this less one beats.
    pub burst_bits: u8,
    /// It has `readdatavalid`.
    pub readdatavalid: bool,
    /// It has `waitrequest`.
    pub waitrequest: bool,
    /// It has `response`.
    pub response: bool,
    /// It has `lock`, `debugaccess` or `beginbursttransfer`, which no connection takes at an agent.
    pub unsupported: bool,
    /// It has `writeresponsevalid`.
    pub write_response: bool,
    /// `waitrequestAllowance`.
    pub allowance: u32,
    /// `linewrapBursts`.
    pub wraps: bool,
    /// `burstOnBurstBoundariesOnly`.
    pub boundaries: bool,
    pub read_latency: u8,
    pub read_wait: u8,
    pub write_wait: u8,
    /// `maximumPendingReadTransactions` as it is set.
    pub pending: u8,
    /// Its `setupTime` or its `holdTime` is above 0.
    pub setup_hold: bool,
}

/// A streaming source or sink. Widths are in bits, 0 where the port isn't there; latencies are in cycles.
#[derive(Clone, Copy, PartialEq, Eq)]
pub struct StreamPort {
    /// The symbols of a beat.
    pub symbols: u8,
    /// The bits of a symbol.
    pub symbol_bits: u16,
    /// The first symbol has the highest-order bits.
    pub first_high: bool,
    /// It has `ready`.
    pub ready: bool,
    /// `readyLatency`, without `ready` too.
    pub latency: u8,
    /// `readyAllowance`, without `ready` too.
    pub allowance: u8,
    pub channel_bits: u8,
    pub max_channel: u32,
    pub error_bits: u8,
    /// It has `startofpacket` and `endofpacket`.
    pub packets: bool,
    pub empty_bits: u8,
}

pub type SourcePort = StreamPort;

pub type SinkPort = StreamPort;

impl StreamPort {
    /// The ready latency: 0 without `ready`.
    pub fn ready_latency(&self) -> u8
        ensures { result ≡ ready_latency self.now }
    {
        if self.ready { self.latency } else { 0 }
    }
}

/// What an interface is, once its ports and properties are known.
#[derive(Clone, Copy, PartialEq, Eq)]
pub enum Finished {
    Host(HostPort),
    Agent(AgentPort),
    Source(SourcePort),
    Sink(SinkPort),
    /// A clock, reset, conduit or interrupt interface.
    Other,
}

impl Interface {
    fn bits(&self, role: Role) -> u8
        requires { width_of self.now role < 256 }
        ensures { result ≡ width_of self.now role }
    {
        self.width(role) as u8
    }

    fn small_setting(&self, id: PropertyId) -> u8
        requires { greatest_of (property_row id).values < 256 }
        ensures { result ≡ setting_of self.now id }
    {
        self.setting(id) as u8
    }

    fn is_true(&self, id: PropertyId) -> bool
        ensures { result ≡ is_true self.now id }
    {
        self.setting(id) == 1
    }

    fn host(&self) -> HostPort
        requires { FitsMm self.now }
        ensures { result ≡ host_of self.now }
    {
        HostPort {
            address_bits: self.bits(Role::Address),
            byte_units: self.counts_bytes(),
            word_bytes: self.word_bytes() as u8,
            reads: self.has(Role::Read),
            writes: self.has(Role::Write),
            enables: self.has(Role::ByteEnable),
            burst_bits: self.bits(Role::BurstCount),
            readdatavalid: self.has(Role::ReadDataValid),
            waitrequest: self.has(Role::WaitRequest),
            response: self.has(Role::Response),
            lock: self.has(Role::Lock),
            write_response: self.has(Role::WriteResponseValid),
            allowance: self.setting(PropertyId::WaitRequestAllowance),
            wraps: self.is_true(PropertyId::LinewrapBursts),
        }
    }

    fn agent(&self) -> AgentPort
        requires { FitsMm self.now }
        ensures { result ≡ agent_of self.now }
    {
        AgentPort {
            address_bits: self.bits(Role::Address),
            byte_units: self.counts_bytes(),
            word_bytes: self.word_bytes() as u8,
            reads: self.has(Role::Read),
            writes: self.has(Role::Write),
            enables: self.has(Role::ByteEnable),
            burst_bits: self.bits(Role::BurstCount),
            readdatavalid: self.has(Role::ReadDataValid),
            waitrequest: self.has(Role::WaitRequest),
            response: self.has(Role::Response),
            unsupported: self.has_unsupported(),
            write_response: self.has(Role::WriteResponseValid),
            allowance: self.setting(PropertyId::WaitRequestAllowance),
            wraps: self.is_true(PropertyId::LinewrapBursts),
            boundaries: self.is_true(PropertyId::BurstOnBurstBoundariesOnly),
            read_latency: self.small_setting(PropertyId::ReadLatency),
            read_wait: self.small_setting(PropertyId::ReadWaitTime),
            write_wait: self.small_setting(PropertyId::WriteWaitTime),
            pending: self.small_setting(PropertyId::MaximumPendingReadTransactions),
            setup_hold: self.has_setup_or_hold(),
        }
    }

    fn has_unsupported(&self) -> bool
        ensures { result ≡ has_unsupported self.now }
    {
        self.has(Role::Lock) || self.has(Role::DebugAccess) || self.has(Role::BeginBurstTransfer)
    }

    fn has_setup_or_hold(&self) -> bool
        ensures { result ≡ has_setup_or_hold self.now }
    {
        self.setting(PropertyId::SetupTime) > 0 || self.setting(PropertyId::HoldTime) > 0
    }

    fn stream(&self) -> StreamPort
        requires { FitsStream self.now }
        ensures { result ≡ stream_of self.now }
    {
        StreamPort {
            symbols: self.symbols() as u8,
            symbol_bits: self.symbol_bits() as u16,
            first_high: self.is_true(PropertyId::FirstSymbolInHighOrderBits),
            ready: self.has(Role::Ready),
            latency: self.small_setting(PropertyId::ReadyLatency),
            allowance: self.allowance(),
            channel_bits: self.bits(Role::Channel),
            max_channel: self.setting(PropertyId::MaxChannel),
            error_bits: self.bits(Role::Error),
            packets: self.has(Role::StartOfPacket),
            empty_bits: self.bits(Role::Empty),
        }
    }

    /// A ready allowance of 0 stands for the ready latency, as one that isn't set.
    fn allowance(&self) -> u8
        ensures { result ≡ allowance_of self.now }
    {
        let allowance = self.small_setting(PropertyId::ReadyAllowance);
        if allowance == 0 {
            self.small_setting(PropertyId::ReadyLatency)
        } else {
            allowance
        }
    }

    fn record_by_kind(&self) -> Finished
        requires { KeepsRules self.now }
        ensures { result ≡ finished self.now }
    {
        match (self.kind(), self.side()) {
            (Kind::Mm, Side::Start) => Finished::Host(self.host()),
            (Kind::Mm, Side::End) => Finished::Agent(self.agent()),
            (Kind::Stream, Side::Start) => Finished::Source(self.stream()),
            (Kind::Stream, Side::End) => Finished::Sink(self.stream()),
            _ => Finished::Other,
        }
    }

    fn record(&self) -> Finished
        requires { KeepsRules self.now }
        ensures value { result ≡ finished self.now }
        ensures proper { IsProper result }
    {
        self.settings_are_in_range();
        self.record_by_kind()
    }

    /// The record of the interface, or the number of the least of the rules I1 to I14 that fails. Whether the
    /// interface's clock is there, a part of I14, is judged elsewhere.
    pub fn finish(&self) -> Result<Finished, u8>
        ensures accepted { IfOk result (λ known. KeepsRules self.now × (known ≡ finished self.now)) }
        ensures proper { IfOk result IsProper }
        ensures refused { IfErr result (IsLeastBroken self.now) }
    {
        match self.first_broken() {
            Some(rule) => Err(rule),
            None => Ok(self.record()),
        }
    }
}

/// What each proper record keeps.
pub fn proper_records_are_bounded()
    ensures host { (host : HostPort) → IsProper (Finished.Host host) → IsBoundedHost host }
    ensures agent { (agent : AgentPort) → IsProper (Finished.Agent agent) → IsBoundedAgent agent }
    ensures source { (source : StreamPort) → IsProper (Finished.Source source) → IsBoundedStream source }
    ensures sink { (sink : StreamPort) → IsProper (Finished.Sink sink) → IsBoundedStream sink }
{}
