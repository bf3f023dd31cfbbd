//! A simulation from its first cycle to its last: the trace, and the counts.

ghost use Rattle.std.specs.Prelude.{◌≡◌, ◌≤◌, ◌<◌, ◌^◌, ◌++◌, ◌∷◌, [], List, ℕ, Option as Holding, IsTrue, IsFalse, IfOk, OnErr};
ghost use Rattle.av_files.specs.Outside.{Rose};
ghost use Rattle.interconnect.specs.Interconnect.{IsInterconnect};
ghost use Rattle.netlist.specs.Netlists.{IsModule};
ghost use Rattle.port_tables.specs.PortMaps.{AreTold};
ghost use Rattle.scenario_tables.specs.Scenarios.{IsScenario};
ghost use Rattle.trace_lines.specs.Lines.{end_line as last_line};
ghost use Rattle.simulations.specs.Cycles.{IsTold, lines_of};
ghost use Rattle.simulations.specs.Traces.{AreCounts};
ghost use Rattle.simulations.specs.Value.{value_of};
ghost use Rattle.simulations.specs.Written.{Holds, HoldsTrace, HoldsTracePart};

use crate::simulation::Simulation;
use crate::telling::{cycles_are_told, earlier_cycles_are_told};
use av_base::NoMemory;
use av_files::{Sink, put_all};
use interconnect::PortMap;
use link_rules::Plan;
use netlist::Module;
use scenario_tables::Scenario;
use std::alloc::Global;
use trace_lines::{Counts, counts_grow_by_cycles, end_line};

/// Writes the lines of the present cycle where all before them were written.
fn tell_more<K: Sink>(whole: bool, simulation: &Simulation, cycle: u32, sink: &mut K) -> bool
    requires { IsTold (value_of simulation.now) }
    ensures lines { (start : Holding (List ℕ)) (faults : ℕ) (lines : List (List ℕ))
        → Holds whole start faults (K.held sink.old) (K.faults sink.old) lines
        → Holds result start faults (K.held sink.new) (K.faults sink.new) (lines ++ lines_of (value_of simulation.now) cycle) }
{
    if !whole {
        return false;
    }
    simulation.tell(cycle, sink)
}

/// Writes the last line where all before it were written.
fn tell_end<K: Sink>(whole: bool, cycles: u32, sink: &mut K) -> bool
    ensures lines { (start : Holding (List ℕ)) (faults : ℕ) (lines : List (List ℕ))
        → Holds whole start faults (K.held sink.old) (K.faults sink.old) lines
        → Holds result start faults (K.held sink.new) (K.faults sink.new) (lines ++ last_line cycles ∷ []) }
{
    if !whole {
        return false;
    }
    put_all(sink, end_line(cycles).as_slice())
}

/// Runs the module of a plan under a scenario and writes the trace, line by line: whether all of it was written. All memory is
/// taken before the first line. Behind a failed write the run goes on to its end, and nothing more is written.
pub fn simulate_module<K: Sink>(
    alloc: Global,
    module: Module,
    plan: &Plan,
    ports: &PortMap,
    scenario: &Scenario,
    sink: &mut K,
) -> Result<bool, NoMemory>
    requires module { IsInterconnect plan.now «module» }
    requires ports { AreTold plan.now.system ports.now }
    requires scenario { IsScenario plan.now.system scenario.now }
    ensures whole { IfOk result (λ whole. IsTrue whole
        → HoldsTrace plan.now scenario.now «module» (K.held sink.old) (K.held sink.new)) }
    ensures part { IfOk result (λ whole. IsFalse whole
        → HoldsTracePart plan.now scenario.now «module» (K.held sink.old) (K.held sink.new)) }
    ensures rose { IfOk result (λ whole. IsFalse whole → Rose (K.faults sink.old) (K.faults sink.new)) }
    ensures nothing { OnErr result (K.held sink.new ≡ K.held sink.old) }
    ensures grows { K.faults sink.old ≤ K.faults sink.new }
    ensures below { K.faults sink.old < 2 ^ 64 → K.faults sink.new < 2 ^ 64 }
{
    cycles_are_told();
    earlier_cycles_are_told();
    let mut simulation = Simulation::new(alloc, module, plan, ports, scenario)?;
    let mut whole = true;
    'cycles: for cycle in 0..scenario.cycles {
        simulation.evaluate();
        whole = tell_more(whole, &simulation, cycle, sink);
        simulation.end_cycle();
    }
    Ok(tell_end(whole, scenario.cycles, sink))
}

/// Runs the module of a plan under a scenario and counts what was done.
pub fn count_module(
    alloc: Global,
    module: Module,
    plan: &Plan,
    ports: &PortMap,
    scenario: &Scenario,
) -> Result<Counts, NoMemory>
    requires module { IsInterconnect plan.now «module» }
    requires ports { AreTold plan.now.system ports.now }
    requires scenario { IsScenario plan.now.system scenario.now }
    ensures { IfOk result (AreCounts plan.now scenario.now «module») }
{
    cycles_are_told();
    earlier_cycles_are_told();
    counts_grow_by_cycles();
    let mut simulation = Simulation::new(alloc, module, plan, ports, scenario)?;
    let mut counts = Counts {
        taken: 0,
        answered: 0,
        delivered: 0,
        dropped: 0,
    };
    'cycles: for _ in 0..scenario.cycles {
        simulation.evaluate();
        counts = simulation.count(counts);
        simulation.end_cycle();
    }
    Ok(counts)
}
