//! A plain simulator of a plan's module, driven by a bench.

ghost use Rattle.std.specs.Prelude.{◌≡◌, ◌+◌, ◌<◌, ◌≤◌, ◌^◌, ℕ, suc, length, slice_get, Some, IfOk};
ghost use Rattle.std.specs.Bool.{OnTrue, OnFalse};
ghost use Rattle.av_files.specs.Outside.{Rose, with_more};
ghost use Rattle.link_rules.specs.Plans.{PlanTable};
ghost use Rattle.netlist.specs.Runs.{Run};
ghost use Rattle.scenario_tables.specs.declared.scenario.Scenario.{Scenario as Stated};
ghost use Rattle.benches.specs.Hosts.{BenchHostValue, is_write_taken, word_given};
ghost use Rattle.simulations.specs.Benches.{IsSetUp, IsUnderWay};
ghost use Rattle.benches.specs.Counting.{HaveRoom};
ghost use Rattle.benches.specs.Writing.{text_of, HoldsPart};
ghost use Rattle.trace_lines.specs.Sums.{with_counts};
ghost use Rattle.interconnect.specs.Interconnect.{IsInterconnect};
ghost use Rattle.port_tables.specs.PortMaps.{AreTold};
ghost use Rattle.scenario_tables.specs.Scenarios.{IsScenario};
ghost use Rattle.simulations.specs.Cycles.{HasCycleLeft, IsAsked, IsTold, IsShown, IsEvaluated, counts_of, first_words, lines_of, run_with};
ghost use Rattle.simulations.specs.Value.{value_of};

use crate::bench::Bench;
use crate::sound::components_fit;
use crate::steps::{answers_are_evaluated, first_steps_are_shown};
use av_base::{NoMemory, Val};
use av_files::Sink;
use benches::parts::Simulator;
use cycle_sim::Sim;
use interconnect::PortMap;
use link_rules::Plan;
use netlist::Module;
use scenario_tables::Scenario;
use std::alloc::Global;
use trace_lines::Counts;

/// A simulator of a plan's module, and the bench that drives it.
#[derive(Drop)]
pub(crate) struct Simulation<'a> {
    sim: Sim,
    bench: Bench<'a>,
}

impl<'a> Simulation<'a> {
    /// The simulation of a scenario, before the first cycle. All its memory is taken here.
    pub(crate) fn new(
        alloc: Global,
        module: Module,
        plan: &'a Plan,
        ports: &PortMap,
        scenario: &'a Scenario,
    ) -> Result<Simulation<'a>, NoMemory>
        requires module { IsInterconnect plan.now «module» }
        requires ports { AreTold plan.now.system ports.now }
        requires scenario { IsScenario plan.now.system scenario.now }
        ensures netlist { IfOk result (λ simulation. simulation.sim.netlist ≡ «module») }
        ensures set { IfOk result (λ simulation. IsSetUp plan.now scenario.now simulation.sim.netlist) }
        ensures under_way { IfOk result (λ simulation. (run : Run)
            → IsUnderWay plan.now scenario.now run 0 (value_of simulation)) }
    {
        let bench = Bench::new(alloc, &module, plan, ports, scenario)?;
        let sim = Sim::new(alloc, module)?;
        Ok(Simulation { sim, bench })
    }
}

impl Simulation<'_> {
    /// Evaluates the present cycle with what the components show before any command is known.
    fn show(&mut self)
        requires { HasCycleLeft (value_of self.old) }
        ensures netlist { self.new.sim.netlist ≡ self.old.sim.netlist }
        ensures shown { (plan : PlanTable) (scenario : Stated) (run : Run) (c : ℕ) → IsSetUp plan scenario self.old.sim.netlist
            → IsUnderWay plan scenario run c (value_of self.old)
            → IsShown plan scenario run c first_words (value_of self.new) }
    {
        first_steps_are_shown();
        self.bench.show();
        self.sim.step(self.bench.row());
    }

    /// Evaluates it again, now that the commands are known, with the words of agents that answer in the cycle that asks.
    fn answer(&mut self)
        requires { IsAsked (value_of self.old) }
        ensures netlist { self.new.sim.netlist ≡ self.old.sim.netlist }
        ensures evaluated { (plan : PlanTable) (scenario : Stated) (run : Run) (c : ℕ)
            → IsSetUp plan scenario self.old.sim.netlist → c < scenario.cycles
            → IsShown plan scenario run c first_words (value_of self.old) → IsEvaluated plan scenario run c (value_of self.new) }
    {
        answers_are_evaluated();
        self.bench.answer(&Simulator::plain(&self.sim));
        self.sim.step(self.bench.row());
    }

    /// Evaluates the present cycle: each component does in it what its script says.
    pub(crate) fn evaluate(&mut self)
        requires { HasCycleLeft (value_of self.old) }
        ensures netlist { self.new.sim.netlist ≡ self.old.sim.netlist }
        ensures evaluated { (plan : PlanTable) (scenario : Stated) (run : Run) (c : ℕ)
            → IsSetUp plan scenario self.old.sim.netlist → c < scenario.cycles
            → IsUnderWay plan scenario run c (value_of self.old)
            → IsEvaluated plan scenario run c (value_of self.new) }
    {
        answers_are_evaluated();
        self.show();
        if self.bench.gives_at_once() {
            self.answer();
        }
    }

    /// Writes the lines of the present cycle, which has this number: whether all were written.
    pub(crate) fn tell<K: Sink>(&self, cycle: u32, sink: &mut K) -> bool
        requires { IsTold (value_of self.now) }
        ensures all { OnTrue result
            (K.held sink.new ≡ with_more (K.held sink.old) (text_of (lines_of (value_of self.now) cycle))) }
        ensures part { OnFalse result
            (HoldsPart (K.held sink.old) (K.held sink.new) (text_of (lines_of (value_of self.now) cycle))) }
        ensures rose { OnFalse result (Rose (K.faults sink.old) (K.faults sink.new)) }
        ensures grows { K.faults sink.old ≤ K.faults sink.new }
        ensures below { K.faults sink.old < 2 ^ 64 → K.faults sink.new < 2 ^ 64 }
    {
        self.bench.tell(cycle, &Simulator::plain(&self.sim), sink)
    }

    /// Adds what is done in the present cycle to counts that have room for it.
    pub(crate) fn count(&self, counts: Counts) -> Counts
        requires told { IsTold (value_of self.now) }
        requires room { HaveRoom 64 counts }
        ensures value { result ≡ with_counts counts (counts_of (value_of self.now)) }
        ensures room { (more : ℕ) → HaveRoom (64 + more) counts → HaveRoom more result }
    {
        self.bench.count(&Simulator::plain(&self.sim), counts)
    }

    /// Whether a write beat of the host of this number is accepted in the present cycle.
    pub(crate) fn is_write_taken(&self, number: usize) -> bool
        requires told { IsTold (value_of self.now) }
        requires host { number < length self.now.bench.hosts.items }
        ensures { (of : BenchHostValue) → slice_get self.now.bench.hosts.items number ≡ Some of
            → result ≡ is_write_taken of self.now.sim }
    {
        components_fit();
        self.bench
            .host(number)
            .is_write_taken(&Simulator::plain(&self.sim))
    }

    /// The word that it is given in this cycle, if it is given one.
    pub(crate) fn word_given(&self, number: usize) -> Option<Val>
        requires told { IsTold (value_of self.now) }
        requires host { number < length self.now.bench.hosts.items }
        ensures { (of : BenchHostValue) → slice_get self.now.bench.hosts.items number ≡ Some of
            → result ≡ word_given of self.now.sim }
    {
        components_fit();
        self.bench
            .host(number)
            .word_given(&Simulator::plain(&self.sim))
    }

    /// Ends the present cycle.
    pub(crate) fn end_cycle(&mut self)
        requires { IsTold (value_of self.old) }
        ensures netlist { self.new.sim.netlist ≡ self.old.sim.netlist }
        ensures under_way { (plan : PlanTable) (scenario : Stated) (run : Run) (c : ℕ)
            → IsSetUp plan scenario self.old.sim.netlist → c < scenario.cycles
            → IsEvaluated plan scenario run c (value_of self.old)
            → IsUnderWay plan scenario (run_with run c (value_of self.old)) (suc c) (value_of self.new) }
    {
        self.bench.end_cycle(&Simulator::plain(&self.sim));
        self.sim.advance();
    }
}
