ghost use Rattle.std.specs.Prelude.{◌≡◌, ◌^◌, ◌<◌, ◌≤◌, ℕ, length, slice_get, Some, OnOk, IfOk, IfErr};
ghost use Rattle.iface_roles.specs.declared.records.Finished.{Finished as Known};
ghost use Rattle.iface_roles.specs.Proper.{IsBoundedHost, IsBoundedAgent, IsBoundedStream};
ghost use Rattle.system_tables.specs.declared.tables.EndId.{EndId as Id};
ghost use Rattle.system_tables.specs.Tables.{IsEnd};
ghost use Rattle.address_map.specs.Maps.{AreMapsOf, hosts_of, agents_of, mm_connections};
ghost use Rattle.link_rules.specs.Links.{streams_of, weight_of, too_many, limit_tests, KeepsLinkRules, IsPassedBy, IsCause};
ghost use Rattle.link_rules.specs.Pairs.{KeepsAll};
ghost use Rattle.link_rules.specs.PlanConnections.{stream_connections, memory_connections, IsStreamConnection, KeepsStreamRules};
ghost use Rattle.link_rules.specs.Plans.{IsPlan, IsHostAt, IsAgentAt, instance_name_at, interface_name_at};

use crate::faults::PlanFault;
use crate::laws::{ends_are_known, links_keep_rules, streams_are_numbered};
use crate::links::{check_limits, check_links, mm_count, streams};
use crate::plan_connections::{
    MemoryConnection, StreamConnection, memory_connections, stream_connections,
};
use address_map::{Ends, Maps, ends_have_one_number, mm_ends};
use av_base::{List, NoMemory};
use iface_roles::{AgentPort, Finished, HostPort, Side, proper_records_are_bounded};
use std::alloc::Global;
use std::marker::Model;
use system_tables::{Connection, EndId, System};

/// The hosts, the agents and the streams of a system, by their numbers.
struct Numbers {
    hosts: Ends,
    agents: Ends,
    streams: List<u32>,
}

/// By hand, so that what drops them calls this, and isn't followed through the fields.
impl Drop for Numbers {
    fn drop(self) {
        let Numbers {
            hosts: _,
            agents: _,
            streams: _,
        } = self;
    }
}

impl Numbers {
    fn of(alloc: Global, system: &System) -> Result<Numbers, NoMemory>
        requires { length system.now.connections ≤ 2 ^ 32 }
        ensures hosts { IfOk result (λ numbers. numbers.hosts ≡ hosts_of system.now) }
        ensures agents { IfOk result (λ numbers. numbers.agents ≡ agents_of system.now) }
        ensures streams { IfOk result (λ numbers. numbers.streams ≡ streams_of system.now) }
    {
        let hosts = mm_ends(alloc, system, Side::Start)?;
        let agents = mm_ends(alloc, system, Side::End)?;
        let streams = streams(alloc, system)?;
        Ok(Numbers {
            hosts,
            agents,
            streams,
        })
    }

    /// Judges how many there are by the limits.
    fn check(&self) -> Result<(), PlanFault>
        ensures within { OnOk result
            (KeepsAll (too_many (length self.now.hosts) (length self.now.agents) (length self.now.streams))) }
        ensures passed { IfErr result (IsPassedBy (length self.now.hosts) (length self.now.agents) (length self.now.streams)) }
    {
        check_limits(
            self.hosts.as_slice().len(),
            self.agents.as_slice().len(),
            self.streams.len(),
        )
    }

    /// The numbers of a system whose links keep the rules, within the limits.
    fn judged(alloc: Global, system: &System) -> Result<Numbers, PlanFault>
        requires { length system.now.connections ≤ 2 ^ 32 }
        ensures links { OnOk result ((k : ℕ) → KeepsLinkRules system.now k) }
        ensures limits { OnOk result (KeepsAll (limit_tests system.now)) }
        ensures hosts { IfOk result (λ numbers. numbers.hosts ≡ hosts_of system.now) }
        ensures agents { IfOk result (λ numbers. numbers.agents ≡ agents_of system.now) }
        ensures streams { IfOk result (λ numbers. numbers.streams ≡ streams_of system.now) }
        ensures refused { IfErr result (IsCause system.now) }
    {
        check_links(system)?;
        let numbers = Numbers::of(alloc, system)?;
        numbers.check()?;
        Ok(numbers)
    }
}

/// A system that no rule and no limit refuses, with the maps of its hosts.
pub struct Plan {
    system: System,
    maps: Maps,
    numbers: Numbers,
    stream_connections: List<StreamConnection>,
    memory_connections: List<MemoryConnection>,
}

/// By hand, so that what drops one calls this, and isn't followed through its fields.
impl Drop for Plan {
    fn drop(self) {
        let Plan {
            system: _,
            maps: _,
            numbers: _,
            stream_connections: _,
            memory_connections: _,
        } = self;
    }
}

impl Model for Plan {
    ghost use Rattle.link_rules.specs.Plans.{PlanTable, AreNumbered};

    ghost Value = { PlanTable };

    ghost view = { λ p. record { system = p.system; maps = p.maps } };

    ghost invariant = { λ p. AreNumbered
        (record {
          system =
              p.system;
          maps =
              p.maps;
        }) p.numbers.hosts p.numbers.agents p.numbers.streams p.stream_connections p.memory_connections };
}

impl Plan {
    ghost use Rattle.link_rules.specs.Plans.{PlanTable};

    /// The plan of a system with its maps; or the least connection whose ends break a rule, with the least rule that they
    /// break; or the least limit that the system passes.
    pub fn make(alloc: Global, system: &System, maps: Maps) -> Result<Plan, PlanFault>
        requires { AreMapsOf system.now maps }
        ensures accepted { IfOk result (λ plan. plan ≡ record { system = system.now; maps = maps }) }
        ensures kept { IfOk result IsPlan }
        ensures refused { IfErr result (IsCause system.now) }
    {
        let numbers = Numbers::judged(alloc, system)?;
        let stream_connections = stream_connections(alloc, system)?;
        let memory_connections = memory_connections(
            alloc,
            system,
            &numbers.hosts,
            &numbers.agents,
        )?;
        system.well_made();
        let system = system.copy(alloc)?;
        Ok(Plan {
            system,
            maps,
            numbers,
            stream_connections,
            memory_connections,
        })
    }

    /// What every plan keeps.
    pub fn well_made(&self)
        ensures { IsPlan self.now }
    {
        let _maps = &self.maps;
    }

    /// The ends of hosts, by the hosts' numbers.
    pub fn hosts(&self) -> &[EndId]
        ensures { result.now ≡ hosts_of self.now.system }
    {
        self.numbers.hosts.as_slice()
    }

    /// The ends of agents, by the agents' numbers.
    pub fn agents(&self) -> &[EndId]
        ensures { result.now ≡ agents_of self.now.system }
    {
        self.numbers.agents.as_slice()
    }

    /// The host of this number.
    pub fn host(&self, number: usize) -> HostPort
        requires { number < length (hosts_of self.now.system) }
        ensures at { IsHostAt self.now.system number result }
        ensures end { (end : Id) → slice_get (hosts_of self.now.system) number ≡ Some end
            → IsEnd self.now.system end (Known.Host result) }
        ensures bounded { IsBoundedHost result }
    {
        self.well_made();
        ends_are_known();
        proper_records_are_bounded();
        match self.interface(self.hosts()[number]) {
            Finished::Host(port) => port,
            _ => unreachable!(),
        }
    }

    /// The agent of this number.
    pub fn agent(&self, number: usize) -> AgentPort
        requires { number < length (agents_of self.now.system) }
        ensures at { IsAgentAt self.now.system number result }
        ensures end { (end : Id) → slice_get (agents_of self.now.system) number ≡ Some end
            → IsEnd self.now.system end (Known.Agent result) }
        ensures bounded { IsBoundedAgent result }
    {
        self.well_made();
        ends_are_known();
        proper_records_are_bounded();
        match self.interface(self.agents()[number]) {
            Finished::Agent(port) => port,
            _ => unreachable!(),
        }
    }

    /// The stream of this number.
    pub fn stream(&self, number: usize) -> StreamConnection
        requires { number < length (stream_connections self.now.system) }
        ensures at { slice_get (stream_connections self.now.system) number ≡ Some result }
        ensures is { IsStreamConnection self.now.system number result }
        ensures source { IsBoundedStream result.source }
        ensures sink { IsBoundedStream result.sink }
        ensures rules { KeepsStreamRules self.now.system result }
    {
        self.well_made();
        streams_are_numbered();
        links_keep_rules();
        proper_records_are_bounded();
        self.stream_connections()[number]
    }

    /// The numbers of the streams' connections, by the streams' numbers.
    pub fn streams(&self) -> &[u32]
        ensures { result.now ≡ streams_of self.now.system }
    {
        self.numbers.streams.as_slice()
    }

    /// The links of sources to sinks, by the streams' numbers.
    pub fn stream_connections(&self) -> &[StreamConnection]
        ensures { result.now ≡ stream_connections self.now.system }
    {
        self.stream_connections.as_slice()
    }

    /// The links of hosts to agents, in the order of their connections.
    pub fn memory_connections(&self) -> &[MemoryConnection]
        ensures { result.now ≡ memory_connections self.now.system }
    {
        self.memory_connections.as_slice()
    }

    /// The maps of the hosts.
    pub fn maps(&self) -> &Maps
        ensures { result.now ≡ self.now.maps }
    {
        &self.maps
    }

    /// The system's name.
    pub fn name(&self) -> &str
        ensures { result.now ≡ self.now.system.name }
    {
        self.system.name()
    }

    /// How many pipeline stages each path has, 0 to 4.
    pub fn stages(&self) -> u8
        ensures { result ≡ self.now.system.stages }
    {
        self.system.stages()
    }

    /// The connections of hosts to agents and of sources to sinks, in the order of their commands.
    pub fn connections(&self) -> &[Connection]
        ensures { result.now ≡ self.now.system.connections }
    {
        self.system.connections()
    }

    /// What is known of the interface at an end of the system.
    pub fn interface(&self, end: EndId) -> Finished
        requires { (known : Known) × IsEnd self.now.system end known }
        ensures { IsEnd self.now.system end result }
    {
        self.system.interface(end)
    }

    /// The name of the instance at an end of the system.
    pub fn instance_name(&self, end: EndId) -> &str
        requires { (known : Known) × IsEnd self.now.system end known }
        ensures { result.now ≡ instance_name_at self.now.system end }
    {
        self.system.instance_name(end)
    }

    /// The name of the interface at an end of the system.
    pub fn interface_name(&self, end: EndId) -> &str
        requires { (known : Known) × IsEnd self.now.system end known }
        ensures { result.now ≡ interface_name_at self.now.system end }
    {
        self.system.interface_name(end)
    }

    /// Every plan is within the limits.
    pub fn is_within_limits(&self)
        ensures hosts { length (hosts_of self.now.system) ≤ 16 }
        ensures agents { length (agents_of self.now.system) ≤ 32 }
        ensures streams { length (streams_of self.now.system) ≤ 16 }
        ensures connections { length (mm_connections self.now.system) ≤ 512 }
    {
        ends_have_one_number();
        self.well_made();
    }

    /// Bounds the nets of the plan's module, and so the work of a cycle: at most 950,336.
    pub fn weight(&self) -> u32
        ensures value { result ≡ weight_of self.now.system }
        ensures few { result ≤ 950336 }
    {
        self.is_within_limits();
        let hosts = self.hosts().len() as u32;
        let agents = self.agents().len() as u32;
        let streams = self.streams().len() as u32;
        let mm = mm_count(self.connections()) as u32;
        64 + 2048 * hosts + 8192 * agents + 1024 * mm + 8192 * streams
    }
}
