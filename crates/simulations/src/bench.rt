//! A test bench: what stands in for the components of a plan at the ports of its module.

ghost use Rattle.std.specs.Prelude.{◌≡◌, ◌+◌, ◌<◌, ◌≤◌, ◌^◌, ◌++◌, ℕ, suc, flat_map, length, slice_get, Some, IfOk, IsFalse};
ghost use Rattle.std.specs.Bool.{OnTrue, OnFalse};
ghost use Rattle.av_files.specs.Outside.{Rose, with_more};
ghost use Rattle.link_rules.specs.Plans.{PlanTable};
ghost use Rattle.netlist.specs.Runs.{Run};
ghost use Rattle.cycle_sim.specs.Sims.{SimValue};
ghost use Rattle.cycle_sim.specs.Standing.{StandsFor};
ghost use Rattle.lane_sim.specs.LaneSims.{IsEdge};
ghost use Rattle.scenario_tables.specs.declared.scenario.Scenario.{Scenario as Stated};
ghost use Rattle.port_rows.specs.Levels.{AllFit, set_levels};
ghost use Rattle.benches.specs.Hosts as of_hosts;
ghost use Rattle.benches.specs.Agents.{BenchAgentValue, gives_at_once};
ghost use Rattle.benches.specs.Agents as of_agents;
ghost use Rattle.benches.specs.Streams as of_streams;
ghost use Rattle.simulations.specs.Benches.{IsSetUp, IsUnderWay};
ghost use Rattle.benches.specs.Counting.{HaveRoom};
ghost use Rattle.benches.specs.Writing.{text_of, HoldsPart};
ghost use Rattle.trace_lines.specs.Sums.{with_counts};
ghost use Rattle.interconnect.specs.Interconnect.{IsInterconnect};
ghost use Rattle.port_tables.specs.PortMaps.{AreTold};
ghost use Rattle.scenario_tables.specs.Scenarios.{IsScenario};
ghost use Rattle.simulations.specs.Cycles.{HasCycleLeft, IsAsked, IsTold, IsEvaluated, answered, counts_of, lines_of, run_with, shown_first};
ghost use Rattle.simulations.specs.Value.{value_with};

use crate::cycles::{answers_fit, benches_go_on};
use crate::rows::levels_have_room;
use crate::sound::{components_are_few, components_fit, first_words_fit};
use av_base::{NoMemory, Val};
use av_files::Sink;
use benches::agents::{BenchAgent, agents_of_plan, answer_all, any_gives_at_once};
use benches::hosts::{BenchHost, hosts_of_plan};
use benches::parts::{Simulator, count_all, end_cycle_of_all, show_all, tell_all};
use benches::streams::{BenchStream, streams_of_plan};
use interconnect::PortMap;
use link_rules::Plan;
use netlist::Module;
use port_rows::{InputRow, levels_stand};
use port_tables::ports_are_known;
use scenario_tables::Scenario;
use stand_ins::stand_ins_stand_for_runs;
use std::alloc::Global;
use trace_lines::Counts;

/// The row of a module's inputs, and what sets it: the components by kind and number. It drives a simulator of the module cycle
/// by cycle: the components show what they can before any command is known, the simulator steps, the agents that give words in
/// the very cycle that asks show them, the simulator steps again, and the components end the cycle.
#[derive(Drop)]
pub struct Bench<'a> {
    row: InputRow,
    hosts: Vec<BenchHost<'a>>,
    agents: Vec<BenchAgent<'a>>,
    streams: Vec<BenchStream<'a>>,
}

/// Sets in a row what all components show before any command is known.
fn show_parts(
    hosts: &[BenchHost],
    agents: &[BenchAgent],
    streams: &[BenchStream],
    row: &mut InputRow,
)
    requires { AllFit row.old
        (flat_map of_hosts.sets hosts.now ++ flat_map of_agents.sets agents.now ++ flat_map of_streams.sets streams.now) }
    ensures { row.new
        ≡ set_levels row.old
        (flat_map of_hosts.sets hosts.now ++ flat_map of_agents.sets agents.now ++ flat_map of_streams.sets streams.now) }
{
    levels_stand();
    show_all(hosts, row);
    show_all(agents, row);
    show_all(streams, row);
}

impl<'a> Bench<'a> {
    /// The bench of a scenario, before the first cycle. All its memory is taken here.
    pub fn new(
        alloc: Global,
        module: &Module,
        plan: &'a Plan,
        ports: &PortMap,
        scenario: &'a Scenario,
    ) -> Result<Bench<'a>, NoMemory>
        requires module { IsInterconnect plan.now «module».now }
        requires ports { AreTold plan.now.system ports.now }
        requires scenario { IsScenario plan.now.system scenario.now }
        ensures set { IfOk result (λ bench. IsSetUp plan.now scenario.now «module».now) }
        ensures under_way { IfOk result (λ bench. (sim : SimValue) (run : Run) → StandsFor sim run 0
            → IsUnderWay plan.now scenario.now run 0 (value_with sim bench)) }
    {
        plan.well_made();
        ports_are_known(plan);
        stand_ins_stand_for_runs();
        module.well_made();
        let cycles = scenario.cycles;
        let row = InputRow::blank(alloc, module)?;
        let hosts = hosts_of_plan(alloc, plan, ports, module.ports(), &scenario.hosts)?;
        let agents = agents_of_plan(alloc, plan, ports, module.ports(), &scenario.agents, cycles)?;
        let streams = streams_of_plan(
            alloc,
            plan,
            ports,
            module.ports(),
            &scenario.sources,
            &scenario.sinks,
        )?;
        Ok(Bench {
            row,
            hosts,
            agents,
            streams,
        })
    }
}

impl Bench<'_> {
    /// The inputs of the present cycle, for a simulator.
    pub fn row(&self) -> &[Val]
        ensures { result.now ≡ self.now.row }
    {
        self.row.as_slice()
    }

    /// Sets in the row what the components show before any command is known.
    pub fn show(&mut self)
        requires { (sim : SimValue) × HasCycleLeft (value_with sim self.old) }
        ensures { (sim : SimValue) → value_with sim self.new ≡ shown_first (value_with sim self.old) }
    {
        first_words_fit();
        levels_have_room();
        show_parts(
            self.hosts.as_slice(),
            self.agents.as_slice(),
            self.streams.as_slice(),
            &mut self.row,
        );
    }

    /// Whether an agent gives words in the very cycle that asks.
    pub fn gives_at_once(&self) -> bool
        ensures { IsFalse result → (a : ℕ) (agent : BenchAgentValue) → slice_get self.now.agents.items a ≡ Some agent
            → IsFalse (gives_at_once agent) }
    {
        any_gives_at_once(self.agents.as_slice())
    }

    /// Sets in the row, now that a simulator has stepped and the commands are known, the words and codes of agents that give them
    /// in the cycle that asks.
    /// What hosts and streams show stands there.
    pub fn answer(&mut self, sim: &Simulator)
        requires { IsAsked (value_with sim.now self.old) }
        ensures { value_with sim.now self.new ≡ answered (value_with sim.now self.old) }
    {
        answers_fit();
        components_fit();
        levels_have_room();
        levels_stand();
        answer_all(self.agents.as_slice(), sim, &mut self.row);
    }

    /// Writes the lines of the present cycle, which has this number: whether all were written.
    pub fn tell<K: Sink>(&self, cycle: u32, sim: &Simulator, sink: &mut K) -> bool
        requires { IsTold (value_with sim.now self.now) }
        ensures all { OnTrue result
            (K.held sink.new ≡ with_more (K.held sink.old) (text_of (lines_of (value_with sim.now self.now) cycle))) }
        ensures part { OnFalse result
            (HoldsPart (K.held sink.old) (K.held sink.new) (text_of (lines_of (value_with sim.now self.now) cycle))) }
        ensures rose { OnFalse result (Rose (K.faults sink.old) (K.faults sink.new)) }
        ensures grows { K.faults sink.old ≤ K.faults sink.new }
        ensures below { K.faults sink.old < 2 ^ 64 → K.faults sink.new < 2 ^ 64 }
    {
        components_fit();
        if !tell_all(self.hosts.as_slice(), cycle, sim, sink) {
            return false;
        }
        if !tell_all(self.agents.as_slice(), cycle, sim, sink) {
            return false;
        }
        tell_all(self.streams.as_slice(), cycle, sim, sink)
    }

    /// Adds what is done in the present cycle to counts that have room for it.
    pub fn count(&self, sim: &Simulator, counts: Counts) -> Counts
        requires told { IsTold (value_with sim.now self.now) }
        requires room { HaveRoom 64 counts }
        ensures value { result ≡ with_counts counts (counts_of (value_with sim.now self.now)) }
        ensures room { (more : ℕ) → HaveRoom (64 + more) counts → HaveRoom more result }
    {
        components_fit();
        components_are_few();
        let counts = count_all(self.hosts.as_slice(), sim, counts);
        let counts = count_all(self.agents.as_slice(), sim, counts);
        count_all(self.streams.as_slice(), sim, counts)
    }

    /// The host of this number.
    pub(crate) fn host(&self, number: usize) -> &BenchHost
        requires { number < length self.now.hosts.items }
        ensures { slice_get self.now.hosts.items number ≡ Some result.now }
    {
        &self.hosts[number]
    }

    /// Ends the present cycle, as the clock's edge does that of the simulator.
    pub fn end_cycle(&mut self, sim: &Simulator)
        requires { IsTold (value_with sim.now self.old) }
        ensures { (plan : PlanTable) (scenario : Stated) (run : Run) (c : ℕ) (after : SimValue)
            → IsSetUp plan scenario sim.now.netlist → c < scenario.cycles
            → IsEvaluated plan scenario run c (value_with sim.now self.old)
            → IsEdge sim.now after
            → IsUnderWay plan scenario (run_with run c (value_with sim.now self.old)) (suc c) (value_with after self.new) }
    {
        components_fit();
        benches_go_on();
        end_cycle_of_all(self.hosts.as_mut_slice(), sim);
        end_cycle_of_all(self.agents.as_mut_slice(), sim);
        end_cycle_of_all(self.streams.as_mut_slice(), sim);
    }
}
