//! What is counted of the scenarios of a row.

ghost use Rattle.std.specs.Prelude.{◌≡◌, All, length, IfOk};
ghost use Rattle.scenario_tables.specs.Scenarios.{IsScenario};

use crate::row::Row;
use av_base::{List, NoMemory};
use interconnect::{Built, build};
use lane_sim::Lanes;
use link_rules::Plan;
use scenario_tables::Scenario;
use scenarios::{ScenarioFault, read_scenario};
use simulations::campaigns::count_lanes;
use std::alloc::Global;
use trace_lines::Counts;
use workload_systems::workload_plan;

/// Why a row isn't run.
#[derive(Clone, Copy)]
pub enum RowFault {
    Refused,
    NoMemory,
}

impl From<NoMemory> for RowFault {
    fn from(_e: NoMemory) -> RowFault {
        RowFault::NoMemory
    }
}

impl From<ScenarioFault> for RowFault {
    fn from(fault: ScenarioFault) -> RowFault {
        match fault {
            ScenarioFault::Refused { .. } => RowFault::Refused,
            ScenarioFault::NoMemory => RowFault::NoMemory,
        }
    }
}

/// The room for a scenario.
const ROOM: usize = 1 << 20;

/// The scenario of a lane, where the plan takes it.
fn scenario_of(alloc: Global, row: &Row, plan: &Plan, lane: u8) -> Result<Scenario, RowFault>
    ensures fits { IfOk result (IsScenario plan.now.system) }
    ensures cycles { IfOk result (λ scenario. scenario.cycles ≡ row.now.cycles) }
{
    let bytes = row.scenario(alloc, lane)?;
    if bytes.len() > ROOM {
        return Err(RowFault::Refused);
    }
    let scenario = read_scenario(alloc, bytes.as_slice(), plan)?;
    if scenario.cycles != row.cycles {
        return Err(RowFault::Refused);
    }
    Ok(scenario)
}

/// The scenarios of eight lanes.
fn scenarios_of(alloc: Global, row: &Row, plan: &Plan) -> Result<List<Scenario>, RowFault>
    ensures count { IfOk result (λ scenarios. length scenarios ≡ 8) }
    ensures fit { IfOk result (All (IsScenario plan.now.system)) }
    ensures cycles { IfOk result (All (λ scenario. scenario.cycles ≡ row.now.cycles)) }
{
    let mut scenarios = List::new(alloc);
    for lane in 0..8 {
        let scenario = scenario_of(alloc, row, plan, lane)?;
        scenarios.push(scenario)?;
    }
    Ok(scenarios)
}

/// What is counted in each lane, where the plan takes all scenarios.
pub fn counts_of(alloc: Global, row: &Row) -> Result<[Counts; 8], RowFault> {
    let plan = workload_plan(alloc, row.number)?;
    let scenarios = scenarios_of(alloc, row, &plan)?;
    let Built { module, ports } = build(alloc, &plan)?;
    let mut lanes = Lanes::new(alloc, module)?;
    let counts = count_lanes(
        alloc,
        &mut lanes,
        &plan,
        &ports,
        scenarios.as_slice(),
        row.cycles,
    )?;
    Ok(counts)
}
