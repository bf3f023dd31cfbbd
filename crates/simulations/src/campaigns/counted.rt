//! What is counted of eight scenarios.

ghost use Rattle.std.specs.Prelude.{◌≡◌, ◌+◌, ◌<◌, ◌≤◌, ◌^◌, ℕ, List, length, slice_get, Some, IfOk, OnErr};
ghost use Rattle.interconnect.specs.Interconnect.{IsInterconnect};
ghost use Rattle.netlist.specs.Netlists.{Netlist};
ghost use Rattle.netlist.specs.Runs.{Run};
ghost use Rattle.cycle_sim.specs.Sims.{input_widths};
ghost use Rattle.cycle_sim.specs.Standing.{StandsFor};
ghost use Rattle.lane_sim.specs.LaneSims.{lane_of};
ghost use Rattle.link_rules.specs.Plans.{PlanTable};
ghost use Rattle.port_tables.specs.PortMaps.{AreTold};
ghost use Rattle.scenario_tables.specs.declared.scenario.Scenario.{Scenario as Stated};
ghost use Rattle.scenario_tables.specs.Scenarios.{IsScenario};
ghost use Rattle.trace_lines.specs.declared.counts.Counts.{Counts as Counted};
ghost use Rattle.simulations.specs.Lanes.{AreFirstBenches, EachLane, LanesSoFar};
ghost use Rattle.simulations.specs.Counted.{AreCountedRuns};

use crate::campaigns::evaluated::run_cycle;
use crate::campaigns::inputs::first_inputs;
use crate::campaigns::lane_bench::LaneBench;
use crate::{Bench, counts_go_on};
use av_base::NoMemory;
use interconnect::PortMap;
use lane_sim::Lanes;
use lane_sim::planes::LaneVal;
use link_rules::Plan;
use netlist::Module;
use scenario_tables::Scenario;
use std::alloc::Global;
use trace_lines::Counts;

const NO_COUNTS: Counts = Counts {
    taken: 0,
    answered: 0,
    delivered: 0,
    dropped: 0,
};

/// The benches of scenarios, before the first cycle.
fn first_benches<'a>(
    alloc: Global,
    module: &Module,
    plan: &'a Plan,
    ports: &PortMap,
    scenarios: &'a [Scenario],
) -> Result<Vec<LaneBench<'a>>, NoMemory>
    requires module { IsInterconnect plan.now «module».now }
    requires ports { AreTold plan.now.system ports.now }
    requires scenarios { (j : ℕ) (scenario : Stated) → slice_get scenarios.now j ≡ Some scenario
        → IsScenario plan.now.system scenario }
    ensures { IfOk result (λ benches. AreFirstBenches plan.now scenarios.now «module».now benches.items) }
{
    let mut benches = Vec::new(alloc);
    'scenarios: for scenario in scenarios {
        let bench = Bench::new(alloc, module, plan, ports, scenario)?;
        benches.push(LaneBench {
            bench,
            counts: NO_COUNTS,
        })?;
    }
    Ok(benches)
}

/// What was counted in each lane.
fn counts_in(benches: &[LaneBench]) -> [Counts; 8]
    requires { length benches.now ≡ 8 }
    ensures { EachLane (λ j lane. slice_get result j ≡ Some lane.counts) benches.now }
{
    let mut counts = [NO_COUNTS; 8];
    for lane in 0..8 {
        counts[lane] = benches[lane].counts;
    }
    counts
}

/// Runs all lanes for so many cycles, and gives what was counted in each.
fn run_lanes(
    lanes: &mut Lanes,
    benches: &mut [LaneBench],
    inputs: &mut [LaneVal],
    cycles: u32,
) -> [Counts; 8]
    requires inputs { length inputs.old ≡ length (input_widths lanes.old.netlist.ports) }
    requires first { (plan : PlanTable) × (scenarios : List Stated) × LanesSoFar plan scenarios cycles 0 lanes.old benches.old }
    ensures netlist { lanes.new.netlist ≡ lanes.old.netlist }
    ensures counted { (plan : PlanTable) (scenarios : List Stated) → LanesSoFar plan scenarios cycles 0 lanes.old benches.old
        → AreCountedRuns plan scenarios lanes.new result }
{
    counts_go_on();
    'cycles: for _ in 0..cycles {
        run_cycle(lanes, benches, inputs);
    }
    counts_in(benches)
}

/// Runs eight scenarios of so many cycles in the lanes of a plan's module, each in its lane from its first cycle on, and counts
/// what is done.
/// All memory is taken before the first cycle.
pub fn count_lanes(
    alloc: Global,
    lanes: &mut Lanes,
    plan: &Plan,
    ports: &PortMap,
    scenarios: &[Scenario],
    cycles: u32,
) -> Result<[Counts; 8], NoMemory>
    requires module { IsInterconnect plan.now lanes.old.netlist }
    requires unstepped { (j : ℕ) → j < 8 → (run : Run) → StandsFor (lane_of lanes.old j) run 0 }
    requires ports { AreTold plan.now.system ports.now }
    requires count { length scenarios.now ≡ 8 }
    requires scenarios { (j : ℕ) (scenario : Stated) → slice_get scenarios.now j ≡ Some scenario
        → IsScenario plan.now.system scenario }
    requires cycles { (j : ℕ) (scenario : Stated) → slice_get scenarios.now j ≡ Some scenario → scenario.cycles ≡ cycles }
    ensures netlist { lanes.new.netlist ≡ lanes.old.netlist }
    ensures counted { IfOk result (AreCountedRuns plan.now scenarios.now lanes.new) }
    ensures nothing { OnErr result (lanes.new ≡ lanes.old) }
{
    counts_go_on();
    let mut benches = first_benches(alloc, lanes.module(), plan, ports, scenarios)?;
    let mut inputs = first_inputs(alloc, benches.as_slice())?;
    Ok(run_lanes(lanes, benches.as_mut_slice(), inputs.as_mut_slice(), cycles))
}
