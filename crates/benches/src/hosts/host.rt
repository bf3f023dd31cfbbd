//! What stands for a host in a test bench.

ghost use Rattle.std.specs.Prelude.{◌≡◌, ◌*◌, ◌<◌, ◌≤◌, ℕ, List as Sequence, Some, true, length, slice_get, IfOk};
ghost use Rattle.av_base.specs.Word.{word};
ghost use Rattle.histories.specs.History.{is_raised};
ghost use Rattle.iface_roles.specs.declared.records.HostPort.{HostPort as Port};
ghost use Rattle.iface_roles.specs.Proper.{IsBoundedHost};
ghost use Rattle.address_map.specs.Maps.{hosts_of};
ghost use Rattle.port_tables.specs.Ports.{ports_of};
ghost use Rattle.port_tables.specs.PortMaps.{AreTold};
ghost use Rattle.scenario_tables.specs.declared.statements.HostStatement.{HostStatement as Statement};
ghost use Rattle.scenario_tables.specs.Scenarios.{IsHostAt};
ghost use Rattle.scenario_tables.specs.Statements.{IsHostScript};
ghost use Rattle.trace_lines.specs.Names.{name_of};
ghost use Rattle.benches.specs.Outputs.{level_now};
ghost use Rattle.benches.specs.Hosts.{AreFirstHosts, Fits, IsFirstHost, behind, code_shown, counts, is_given, is_write_taken, sets, tells, word_given};

use crate::parts::{Component, Simulator, level_at};
use av_base::{NoMemory, Val};
use av_files::{Sink, put_all};
use iface_roles::HostPort;
use interconnect::PortMap;
use link_rules::Plan;
use netlist::PortLine;
use port_rows::InputRow;
use port_rows::host_ends::{HostPlaces, HostPorts};
use scenario_tables::{HostStatement, Scripts};
use stand_ins::hosts::HostStandIn;
use std::alloc::Global;
use std::marker::Model;
use trace_lines::{Counts, EndName, WordGiven, get_line};

/// A host of a test bench: its name, where its signals stand, which outputs answer it, and what stands in for it.
#[derive(Drop)]
pub struct BenchHost<'a> {
    name: EndName<'a>,
    places: HostPlaces,
    ports: HostPorts,
    /// What the stand-in was made for.
    port: HostPort,
    stand_in: HostStandIn<'a>,
}

impl<'a> Model for BenchHost<'a> {
    ghost use Rattle.std.specs.Prelude.{◌≡◌};
    ghost use Rattle.iface_roles.specs.Proper.{IsBoundedHost};
    ghost use Rattle.trace_lines.specs.Names.{name_of};
    ghost use Rattle.benches.specs.Hosts.{BenchHostValue};

    ghost Value = { BenchHostValue };

    ghost view = { λ s. record { name = name_of s.name; places = s.places; ports = s.ports; stand_in = s.stand_in } };

    ghost invariant = { λ s. (s.port ≡ s.stand_in.port) × IsBoundedHost s.port };
}

/// The host of this number, before the first statement of its script.
fn first_host<'a>(
    plan: &'a Plan,
    ports: &PortMap,
    header: &[PortLine],
    script: &'a [HostStatement],
    number: usize,
) -> BenchHost<'a>
    requires told { AreTold plan.now.system ports.now }
    requires header { header.now ≡ ports_of plan.now.system }
    requires number { number < length (hosts_of plan.now.system) }
    requires script { (port : Port) → IsHostAt plan.now.system number port → IsHostScript port script.now }
    ensures { IsFirstHost plan.now.system number script.now result }
{
    let end = plan.hosts()[number];
    let port = plan.host(number);
    BenchHost {
        name: EndName::of(plan, end),
        places: HostPlaces::of(plan, ports, header, end),
        ports: HostPorts::of(plan, ports, end),
        port,
        stand_in: HostStandIn::new(port, script),
    }
}

/// The hosts of a plan, each before the first statement of its script. `header` is that of the plan's module.
pub fn hosts_of_plan<'a>(
    alloc: Global,
    plan: &'a Plan,
    ports: &PortMap,
    header: &[PortLine],
    scripts: &'a Scripts<HostStatement>,
) -> Result<Vec<BenchHost<'a>>, NoMemory>
    requires told { AreTold plan.now.system ports.now }
    requires header { header.now ≡ ports_of plan.now.system }
    requires count { length scripts.now ≡ length (hosts_of plan.now.system) }
    requires scripts { (h : ℕ) (port : Port) (script : Sequence Statement) → IsHostAt plan.now.system h port
        → slice_get scripts.now h ≡ Some script → IsHostScript port script }
    ensures { IfOk result (λ hosts. AreFirstHosts plan.now.system scripts.now hosts.items) }
{
    let mut hosts = Vec::new(alloc);
    'hosts: for number in 0..scripts.len() {
        let script = scripts.script(number);
        hosts.push(first_host(plan, ports, header, script, number))?;
    }
    Ok(hosts)
}

impl BenchHost<'_> {
    fn waits(&self, sim: &Simulator) -> bool
        requires stepped { sim.now.stepped ≡ true }
        requires fits { Fits self.now sim.now }
        ensures { result ≡ is_raised (level_now sim.now 0 self.now.ports.wait) }
    {
        level_at(sim, self.ports.wait, 0) > 0
    }

    /// Whether it is given a word in the present cycle.
    fn is_given(&self, sim: &Simulator) -> bool
        requires stepped { sim.now.stepped ≡ true }
        requires fits { Fits self.now sim.now }
        ensures { result ≡ is_given self.now sim.now }
    {
        if self.port.readdatavalid {
            level_at(sim, self.ports.valid, 0) > 0
        } else {
            self.stand_in.shown().read && !self.waits(sim)
        }
    }

    /// The word that answers it in the present cycle.
    fn word(&self, sim: &Simulator) -> Val
        requires stepped { sim.now.stepped ≡ true }
        requires fits { Fits self.now sim.now }
        ensures { result ≡ word (8 * self.now.stand_in.port.word_bytes) (level_now sim.now 0 self.now.ports.word) }
    {
        let bits = level_at(sim, self.ports.word, 0);
        Val::new(8 * self.port.word_bytes, bits).unwrap()
    }

    /// The code beside it, where it has `response`.
    fn code(&self, sim: &Simulator) -> Option<u8>
        requires stepped { sim.now.stepped ≡ true }
        requires fits { Fits self.now sim.now }
        ensures { result ≡ code_shown self.now sim.now }
    {
        if self.port.response {
            Some(level_at(sim, self.ports.response, 0) as u8)
        } else {
            None
        }
    }

    /// The word that it is given in the present cycle, if it is given one.
    pub fn word_given(&self, sim: &Simulator) -> Option<Val>
        requires stepped { sim.now.stepped ≡ true }
        requires fits { Fits self.now sim.now }
        ensures { result ≡ word_given self.now sim.now }
    {
        if self.is_given(sim) {
            Some(self.word(sim))
        } else {
            None
        }
    }

    /// Whether a write beat of it is accepted in the present cycle.
    pub fn is_write_taken(&self, sim: &Simulator) -> bool
        requires stepped { sim.now.stepped ≡ true }
        requires fits { Fits self.now sim.now }
        ensures { result ≡ is_write_taken self.now sim.now }
    {
        self.stand_in.shown().write && !self.waits(sim)
    }
}

impl Component for BenchHost<'_> {
    ghost sets = { sets };

    ghost fits = { Fits };

    ghost tells = { tells };

    ghost counts = { counts };

    ghost follows = { λ host sim after. after ≡ behind host sim };

    fn show(&self, row: &mut InputRow) {
        self.places.show(row, self.stand_in.shown());
    }

    fn tell<K: Sink>(&self, cycle: u32, sim: &Simulator, sink: &mut K) -> bool {
        if !self.is_given(sim) {
            return true;
        }
        let line = get_line(&WordGiven {
            cycle,
            host: self.name,
            word: self.word(sim),
            code: self.code(sim),
        });
        put_all(sink, line.as_slice())
    }

    fn count(&self, sim: &Simulator) -> Counts {
        Counts {
            taken: 0,
            answered: u64::from(self.is_given(sim)),
            delivered: 0,
            dropped: 0,
        }
    }

    fn end_cycle(&mut self, sim: &Simulator) {
        let waits = self.waits(sim);
        self.stand_in.go_on(waits);
    }
}
