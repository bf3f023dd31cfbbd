//! The line of a workload.

ghost use Rattle.std.specs.Prelude.{◌≡◌, IfOk};
ghost use Rattle.scenario_runs.specs.Workloads.{workload_line, IsCounted, IsWorkloadText};
ghost use Rattle.scenario_tables.specs.Scenarios.{IsScenario};

use crate::read_back::built_module;
use av_base::lines::Line;
use av_base::{Bytes, NoMemory};
use drawn_scenarios::draw_scenario;
use link_rules::Plan;
use scenario_tables::Scenario;
use simulations::count_module;
use std::alloc::Global;
use trace_lines::Counts;
use workload_systems::workload_plan;

/// The lane of a number whose scenario is drawn.
const LANE: u8 = 0;

/// For how many cycles it is drawn.
const CYCLES: u32 = 2000;

/// The line of a workload of this number.
fn workload_line(alloc: Global, number: u32, weight: u32, counts: Counts) -> Result<Bytes, NoMemory>
    ensures { IfOk result (λ text. text ≡ workload_line number weight counts) }
{
    let mut line = Line::new();
    line.put_part(b"workload ", u64::from(number));
    line.put_part(b" weight ", u64::from(weight));
    line.put_part(b" taken ", counts.taken);
    line.put_part(b" answered ", counts.answered);
    line.put_part(b" delivered ", counts.delivered);
    line.put_part(b" dropped ", counts.dropped);
    line.put(b"\n");
    let mut text = Bytes::new(alloc);
    text.append(line.as_slice())?;
    Ok(text)
}

/// Runs a scenario on the module of a plan, and counts what was done.
fn counts_of(alloc: Global, plan: &Plan, scenario: &Scenario) -> Result<Counts, NoMemory>
    requires { IsScenario plan.now.system scenario.now }
    ensures { IfOk result (IsCounted plan.now scenario.now) }
{
    let built = built_module(alloc, plan)?;
    count_module(alloc, built.module, plan, &built.ports, scenario)
}

/// Runs the scenario that is drawn for a number on the workload system of the number, and tells what was done.
pub fn workload_text(alloc: Global, number: u32) -> Result<Bytes, NoMemory>
    ensures { IfOk result (IsWorkloadText number) }
{
    let plan = workload_plan(alloc, number)?;
    let scenario = draw_scenario(alloc, &plan, number, LANE, CYCLES)?;
    let counts = counts_of(alloc, &plan, &scenario)?;
    workload_line(alloc, number, plan.weight(), counts)
}
